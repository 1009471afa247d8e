// Locks by load and exchange.

ghost use Rattle.std.specs.Prelude.{◌≡◌, ℕ, ◌+◌, ◌<◌, ◌≤◌, ◌^◌, length, IfSome};
ghost use Rattle.ls_code.specs.Exchanges.{Reports, throwing, seeing_action, saw, see_named, see_at, taking_action};
ghost use Rattle.ls_code.specs.Exchanges.{took, take_from, take_at, dropping_action, drop_to, drop_at};
ghost use Rattle.ls_code.specs.Frame.{top_one, top_two};
ghost use Rattle.ls_code.specs.Locks.{taken_of, left_of};
ghost use Rattle.ls_code.specs.Steps.{seen_outcome, planned};
ghost use Rattle.ls_machine.specs.Outcomes.{Came};
ghost use Rattle.ls_machine_moves.specs.Flows.{IsQuiet};
ghost use Rattle.ls_machine.specs.Takes.{IsUnseen, TakesEvents};

use ls_code::code::Code;
use ls_code::instruction::Resume;
use ls_code::lock_word::{Left, Taken, is_own_word, lock_word, unlock_word};
use ls_code::step::Did;
use ls_events::action::{Action, Answer};
use ls_events::kind::Kind;
use ls_machine_moves::cells::Cells;
use ls_machine_moves::flow::Reply;
use ls_machine_threads::thread::Thread;
use std::alloc::AllocError;

/// What a thread sees of a lock: the operation that it is at and the number by which an instruction names that, the
/// lock, and its word.
#[derive(Copy)]
struct Sight {
    which: u32,
    operation: Action<u64>,
    lock: u64,
    word: u64,
}

impl Clone for Sight {
    fn clone(&self) -> Result<Sight, AllocError> {
        Ok(*self)
    }
}

/// An operation that fails is over, where the thread's throw is caught.
fn fail(
    code: &Code,
    cells: &mut Cells,
    number: usize,
    thread: &mut Thread,
    operation: Action<u64>,
    kind: Kind,
) -> Did
    requires { IsQuiet operation }
    ensures came { Came (seen_outcome cells.old thread.old.thread (Reports operation (Answer.Fails kind)
        (throwing code.now thread.old.thread kind))) thread.old thread.new cells.new result }
    ensures events { TakesEvents code.now number result thread.old.thread thread.new.thread }
    ensures unseen { IsUnseen result }
{
    if thread.throw(code.handlers(), kind) {
        Did::Acted(operation, Answer::Fails(kind))
    } else {
        Did::Silent
    }
}

/// The operation on a lock that the operand of `See` names.
fn seen_operation(which: u32, lock: u64) -> Option<Action<u64>>
    ensures operation { result ≡ seeing_action which lock }
    ensures quiet { IfSome result (λ operation. IsQuiet operation) }
{
    match which {
        1 => Some(Action::Lock(lock)),
        2 => Some(Action::TryLock(lock)),
        3 => Some(Action::Unlock(lock)),
        4 => Some(Action::LockMonitor(lock)),
        5 => Some(Action::UnlockMonitor(lock)),
        _ => None,
    }
}

/// The operation on a lock that the operand of `Take` names.
fn taken_operation(which: u32, lock: u64) -> Option<Action<u64>>
    ensures operation { result ≡ taking_action which lock }
    ensures quiet { IfSome result (λ operation. IsQuiet operation) }
{
    match which {
        1 => Some(Action::Lock(lock)),
        2 => Some(Action::TryLock(lock)),
        4 => Some(Action::LockMonitor(lock)),
        _ => None,
    }
}

/// The operation on a lock that the operand of `DropLock` names.
fn dropped_operation(which: u32, lock: u64) -> Option<Action<u64>>
    ensures operation { result ≡ dropping_action which lock }
    ensures quiet { IfSome result (λ operation. IsQuiet operation) }
{
    match which {
        0 => Some(Action::Unlock(lock)),
        1 => Some(Action::UnlockMonitor(lock)),
        _ => None,
    }
}

/// The thread has seen a lock's word.
#[inline(always)]
fn saw_word(code: &Code, cells: &mut Cells, number: usize, thread: &mut Thread, seen: Sight) -> Did
    requires number { number ≤ 64 }
    requires place { thread.old.thread.top.counter + 1 < 2 ^ 64 }
    requires room { length thread.old.thread.top.operands < thread.old.thread.top.need }
    requires quiet { IsQuiet seen.operation }
    ensures came { Came (seen_outcome cells.old thread.old.thread (saw code.now thread.old.thread number seen.which
        seen.operation seen.word)) thread.old thread.new cells.new result }
    ensures events { TakesEvents code.now number result thread.old.thread thread.new.thread }
    ensures unseen { IsUnseen result }
{
    let Sight {
        which,
        operation,
        word,
        ..
    } = seen;
    if which == 2 {
        thread.resume(Resume::Push, word);
        return match lock_word(word, number) {
            Taken::Other => Did::Acted(operation, Answer::Gives(0)),
            Taken::Taken(_) => Did::Silent,
            Taken::TooMany => Did::Silent,
        };
    }
    if (which == 3 || which == 5) && !is_own_word(word, number) {
        return fail(
            code,
            cells,
            number,
            thread,
            operation,
            Kind::IllegalMonitorState,
        );
    }
    thread.resume(Resume::Push, word);
    Did::Silent
}

/// The thread looks at the word of a lock.
#[inline(always)]
fn see_lock(
    code: &Code,
    cells: &mut Cells,
    number: usize,
    thread: &mut Thread,
    which: u32,
    lock: u64,
) -> Did
    requires number { number ≤ 64 }
    requires place { thread.old.thread.top.counter + 1 < 2 ^ 64 }
    ensures came { Came (planned cells.old number thread.old.thread (see_named code.now thread.old.thread number which
        lock (seeing_action which lock))) thread.old thread.new cells.new result }
    ensures events { TakesEvents code.now number result thread.old.thread thread.new.thread }
    ensures unseen { IsUnseen result }
{
    match seen_operation(which, lock) {
        None => Did::Silent,
        Some(operation) => {
            if lock == 0 {
                let _ = thread.throw(code.handlers(), Kind::NullPointer);
                return Did::Silent;
            }
            if !thread.has_room() {
                return Did::Silent;
            }
            match cells.get(lock, 0) {
                None => Did::Silent,
                Some(word) => {
                    let seen = Sight {
                        which,
                        operation,
                        lock,
                        word,
                    };
                    saw_word(code, cells, number, thread, seen)
                }
            }
        }
    }
}

/// The thread looks at the word of the lock on top.
#[inline(always)]
pub fn see(code: &Code, cells: &mut Cells, number: usize, thread: &mut Thread, which: u32) -> Did
    requires number { number ≤ 64 }
    requires place { thread.old.thread.top.counter + 1 < 2 ^ 64 }
    ensures came { Came (planned cells.old number thread.old.thread (see_at code.now thread.old.thread number which
        (top_one thread.old.thread.top.operands))) thread.old thread.new cells.new result }
    ensures events { TakesEvents code.now number result thread.old.thread thread.new.thread }
    ensures unseen { IsUnseen result }
{
    match thread.one() {
        None => Did::Silent,
        Some(lock) => see_lock(code, cells, number, thread, which, lock),
    }
}

/// The exchange was won or lost.
#[inline(always)]
fn took_word(
    code: &Code,
    cells: &mut Cells,
    number: usize,
    thread: &mut Thread,
    seen: Sight,
    won: u64,
) -> Did
    requires place { thread.old.thread.top.counter + 1 < 2 ^ 64 }
    requires there { 1 ≤ length thread.old.thread.top.operands }
    requires quiet { IsQuiet seen.operation }
    ensures came { Came (seen_outcome cells.old thread.old.thread (took thread.old.thread seen.which seen.operation
        won)) thread.old thread.new cells.new result }
    ensures events { TakesEvents code.now number result thread.old.thread thread.new.thread }
    ensures unseen { IsUnseen result }
{
    if won == 1 {
        thread.resume(Resume::Settle(1), 1);
        let answer = if seen.which == 2 {
            Answer::Gives(1)
        } else {
            Answer::Done
        };
        return Did::Acted(seen.operation, answer);
    }
    thread.resume(Resume::Settle(1), 0);
    if seen.which == 2 {
        Did::Acted(seen.operation, Answer::Gives(0))
    } else {
        Did::Silent
    }
}

/// The thread exchanges the word that it saw.
#[inline(always)]
fn take_word(code: &Code, cells: &mut Cells, number: usize, thread: &mut Thread, seen: Sight) -> Did
    requires number { number ≤ 64 }
    requires place { thread.old.thread.top.counter + 1 < 2 ^ 64 }
    requires there { 1 ≤ length thread.old.thread.top.operands }
    requires quiet { IsQuiet seen.operation }
    ensures came { Came (planned cells.old number thread.old.thread (take_from code.now thread.old.thread seen.which
        seen.operation seen.lock seen.word (taken_of seen.word number))) thread.old thread.new cells.new result }
    ensures events { TakesEvents code.now number result thread.old.thread thread.new.thread }
    ensures unseen { IsUnseen result }
{
    match lock_word(seen.word, number) {
        Taken::Other => {
            thread.resume(Resume::Settle(1), 0);
            Did::Silent
        }
        Taken::TooMany => fail(code, cells, number, thread, seen.operation, Kind::Error),
        Taken::Taken(next) => match cells.swap(seen.lock, seen.word, next) {
            Reply::Answered(Answer::Gives(won)) => took_word(
                code, cells, number, thread, seen, won,
            ),
            _ => Did::Silent,
        },
    }
}

/// The thread exchanges the word on top, which it saw, of the lock below.
#[inline(always)]
pub fn take(code: &Code, cells: &mut Cells, number: usize, thread: &mut Thread, which: u32) -> Did
    requires number { number ≤ 64 }
    requires place { thread.old.thread.top.counter + 1 < 2 ^ 64 }
    ensures came { Came (planned cells.old number thread.old.thread (take_at code.now thread.old.thread number which
        (top_two thread.old.thread.top.operands))) thread.old thread.new cells.new result }
    ensures events { TakesEvents code.now number result thread.old.thread thread.new.thread }
    ensures unseen { IsUnseen result }
{
    match thread.two() {
        None => Did::Silent,
        Some((lock, word)) => match taken_operation(which, lock) {
            None => Did::Silent,
            Some(operation) => {
                let seen = Sight {
                    which,
                    operation,
                    lock,
                    word,
                };
                take_word(code, cells, number, thread, seen)
            }
        },
    }
}

/// The thread stores the word after one unlock.
#[inline(always)]
fn drop_word(code: &Code, cells: &mut Cells, number: usize, thread: &mut Thread, seen: Sight) -> Did
    requires number { number ≤ 64 }
    requires place { thread.old.thread.top.counter + 1 < 2 ^ 64 }
    requires there { 2 ≤ length thread.old.thread.top.operands }
    requires quiet { IsQuiet seen.operation }
    ensures came { Came (planned cells.old number thread.old.thread (drop_to thread.old.thread seen.operation seen.lock
        (left_of seen.word number))) thread.old thread.new cells.new result }
    ensures events { TakesEvents code.now number result thread.old.thread thread.new.thread }
    ensures unseen { IsUnseen result }
{
    match unlock_word(seen.word, number) {
        Left::NotOwner => Did::Silent,
        Left::Left(next) => match cells.write(seen.lock, 0, next, Answer::Done) {
            Reply::Answered(Answer::Done) => {
                thread.resume(Resume::Discard(2), 0);
                Did::Acted(seen.operation, Answer::Done)
            }
            _ => Did::Silent,
        },
    }
}

/// The thread leaves the lock below the word on top, which it saw.
#[inline(always)]
pub fn drop_lock(
    code: &Code,
    cells: &mut Cells,
    number: usize,
    thread: &mut Thread,
    which: u32,
) -> Did
    requires number { number ≤ 64 }
    requires place { thread.old.thread.top.counter + 1 < 2 ^ 64 }
    ensures came { Came (planned cells.old number thread.old.thread (drop_at thread.old.thread number which
        (top_two thread.old.thread.top.operands))) thread.old thread.new cells.new result }
    ensures events { TakesEvents code.now number result thread.old.thread thread.new.thread }
    ensures unseen { IsUnseen result }
{
    match thread.two() {
        None => Did::Silent,
        Some((lock, word)) => match dropped_operation(which, lock) {
            None => Did::Silent,
            Some(operation) => {
                let seen = Sight {
                    which,
                    operation,
                    lock,
                    word,
                };
                drop_word(code, cells, number, thread, seen)
            }
        },
    }
}
