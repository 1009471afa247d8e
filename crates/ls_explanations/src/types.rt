// What is said of a name that is no type.

ghost use Rattle.std.specs.Prelude.{◌≡◌};
ghost use Rattle.ls_explanations.specs.Types.{atomic_lesson, condition_lesson, flag_lesson, gate_lesson, key_lesson};
ghost use Rattle.ls_explanations.specs.Types.{lock_lesson, number_lesson, thread_lesson, value_lesson};

use crate::tokens::{is_either, is_word};

/// Classes of keys and of values.
pub(crate) fn key_lesson(name: &[u8]) -> &'static str
    ensures { result.now ≡ key_lesson name.now }
{
    if is_word(name, b"Object") {
        "`Object` isn't supported: declare a class, as `class Key { }`, and use `new Key()`\n"
    } else if is_word(name, b"record") {
        "`record` isn't supported: use a class with fields and a constructor\n"
    } else {
        ""
    }
}

/// Other classes.
fn value_lesson(name: &[u8]) -> &'static str
    ensures { result.now ≡ value_lesson name.now }
{
    if is_word(name, b"T") || is_word(name, b"E") || is_word(name, b"K") || is_word(name, b"V") {
        "type parameters aren't supported: use `int`, or a class of the text\n"
    } else if is_word(name, b"var") {
        "`var` isn't supported: write the type\n"
    } else if is_word(name, b"String") || is_word(name, b"Integer") || is_word(name, b"Boolean") {
        "this class isn't supported: use `int`, `boolean` or a class of the text\n"
    } else {
        ""
    }
}

/// Classes at which threads wait for others.
fn gate_lesson(name: &[u8]) -> &'static str
    ensures { result.now ≡ gate_lesson name.now }
{
    if is_either(name, b"Semaphore", b"CountDownLatch") {
        "this class isn't supported: write one with synchronized methods\n"
    } else {
        value_lesson(name)
    }
}

/// Classes of threads.
#[tactic(auto, using(crate::proofs::Choosing::chosen, crate::proofs::Choosing::passed))]
fn thread_lesson(name: &[u8]) -> &'static str
    ensures { result.now ≡ thread_lesson name.now }
{
    if is_either(name, b"Thread", b"Runnable") {
        "threads stand in the thread program, as `thread A { c.m(); }`: remove this\n"
    } else {
        gate_lesson(name)
    }
}

/// Conditions of locks.
#[tactic(auto, using(crate::proofs::Choosing::chosen, crate::proofs::Choosing::passed))]
fn condition_lesson(name: &[u8]) -> &'static str
    ensures { result.now ≡ condition_lesson name.now }
{
    if is_word(name, b"Condition") {
        "conditions aren't supported: use `while (..) { lock.unlock(); lock.lock(); }` in place of `await`\n"
    } else {
        thread_lesson(name)
    }
}

/// Classes of locks.
#[tactic(auto, using(crate::proofs::Choosing::chosen, crate::proofs::Choosing::passed))]
fn lock_lesson(name: &[u8]) -> &'static str
    ensures { result.now ≡ lock_lesson name.now }
{
    if is_either(name, b"ReadWriteLock", b"ReentrantReadWriteLock") {
        "ReentrantLock is the only lock: use synchronized methods instead\n"
    } else {
        condition_lesson(name)
    }
}

/// The atomic class of a boolean.
#[tactic(auto, using(crate::proofs::Choosing::chosen, crate::proofs::Choosing::passed))]
fn flag_lesson(name: &[u8]) -> &'static str
    ensures { result.now ≡ flag_lesson name.now }
{
    if is_word(name, b"AtomicBoolean") {
        "this class isn't supported: use a `boolean` under a lock, or `Flag` of docs/LANGUAGE.md\n"
    } else {
        lock_lesson(name)
    }
}

/// Atomic classes of numbers.
#[tactic(auto, using(crate::proofs::Choosing::chosen, crate::proofs::Choosing::passed))]
fn number_lesson(name: &[u8]) -> &'static str
    ensures { result.now ≡ number_lesson name.now }
{
    if is_either(name, b"AtomicInteger", b"AtomicLong") {
        "this class isn't supported: use an `int` under a lock, or `AtomicInt` of docs/LANGUAGE.md\n"
    } else {
        flag_lesson(name)
    }
}

/// Atomic classes.
#[tactic(auto, using(crate::proofs::Choosing::chosen, crate::proofs::Choosing::passed))]
pub(crate) fn atomic_lesson(name: &[u8]) -> &'static str
    ensures { result.now ≡ atomic_lesson name.now }
{
    if is_either(name, b"AtomicReference", b"AtomicStampedReference") {
        "this class isn't supported: use AtomicMarkableReference, with `false` for each mark\n"
    } else {
        number_lesson(name)
    }
}
