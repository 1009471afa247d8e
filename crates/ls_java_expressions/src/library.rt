// Calls of methods of the library's objects: locks, semaphores, latches, arrays, Random and ThreadLocal.

use crate::arguments::my_number;
use crate::atomics::{atomic_call, call_by, markable_call, no_method, reference_call};
use crate::parts::{as_kind, keep, keep_reading};
use crate::writing::{emit, write};
use ls_java_tables::halves::half_named;
use ls_java_tables::kinds::kind_of_element;
use ls_java_tables::remarks::{Stop, What, Why};
use ls_java_tables::restater::{Restater, note};
use ls_java_tables::ropes::Text;
use ls_java_tables::spelling::{bound, literal, nothing, value_of};
use ls_java_tables::values::{Constant, Kind, PRIMARY, Sort, Value, reads};
use ls_java_tree::names::Name;

// A method of a lock.
fn lock_call(
    restater: &mut Restater,
    out: &mut Text,
    name: &Name,
    object: Value,
    arguments: &[Value],
) -> Result<Value, Stop> {
    let at = name.token;
    let (pattern, kind) = match (name.text.as_str(), arguments) {
        ("lock" | "lockInterruptibly", []) => ("# . lock ( # )", Kind::Void),
        ("unlock", []) => ("# . unlock ( # )", Kind::Void),
        ("tryLock", []) => ("# . tryLock ( # )", Kind::Boolean),
        ("tryLock", [time, _]) => return timed_try(restater, out, at, object, *time),
        ("isHeldByCurrentThread", []) => ("# . isHeldByCurrentThread ( # )", Kind::Boolean),
        _ => return no_method(restater, name, Why::NoLibraryMethod),
    };
    call_by(restater, at, pattern, object, Text::EMPTY, kind)
}

// `tryLock` with a time, which is evaluated: it doesn't wait, as if the time had passed at once.
fn timed_try(
    restater: &mut Restater,
    out: &mut Text,
    at: usize,
    object: Value,
    time: Value,
) -> Result<Value, Stop> {
    note(restater, at, What::TryLockTime)?;
    let mut object = object;
    if reads(time) {
        object = keep_reading(restater, out, at, object)?;
        keep(restater, out, at, time)?;
    }
    let pattern = "# . tryLock ( # )";
    call_by(restater, at, pattern, object, Text::EMPTY, Kind::Boolean)
}

// A method of a Semaphore or a CountDownLatch.
fn gate_call(
    restater: &mut Restater,
    name: &Name,
    object: Value,
    arguments: &[Value],
) -> Result<Value, Stop> {
    let is_latch = object.kind == Kind::Latch;
    let (pattern, kind) = match (name.text.as_str(), is_latch, arguments) {
        ("acquire" | "acquireUninterruptibly", false, []) => ("# . acquire ( # )", Kind::Void),
        ("release", false, []) => ("# . release ( # )", Kind::Void),
        ("tryAcquire", false, []) => ("# . tryAcquire ( # )", Kind::Boolean),
        ("availablePermits", false, []) => ("# . availablePermits ( # )", Kind::Int),
        ("countDown", true, []) => ("# . countDown ( # )", Kind::Void),
        ("await", true, []) => ("# . await ( # )", Kind::Void),
        ("getCount", true, []) => ("# . getCount ( # )", Kind::Int),
        _ => return no_method(restater, name, Why::NoLibraryMethod),
    };
    call_by(restater, name.token, pattern, object, Text::EMPTY, kind)
}

// A lock of a ReadWriteLock, which is written as that object.
fn half(restater: &mut Restater, name: &Name, object: Value) -> Result<Value, Stop> {
    match half_named(name) {
        Some(kind) => Ok(Value { kind, ..object }),
        None => no_method(restater, name, Why::NoLibraryMethod),
    }
}

// `lock` or `unlock` of one lock of a ReadWriteLock.
fn half_call(restater: &mut Restater, name: &Name, object: Value) -> Result<Value, Stop> {
    let pattern = match (name.text.as_str(), object.kind == Kind::WriteLock) {
        ("lock", true) => "# . lockWrite ( # )",
        ("lock", false) => "# . lockRead ( # )",
        ("unlock", true) => "# . unlockWrite ( # )",
        ("unlock", false) => "# . unlockRead ( # )",
        _ => return no_method(restater, name, Why::NoLibraryMethod),
    };
    note(restater, name.token, What::ReadWrite)?;
    call_by(
        restater,
        name.token,
        pattern,
        object,
        Text::EMPTY,
        Kind::Void,
    )
}

// A method of a Random: 0, or false.
fn random_call(restater: &mut Restater, name: &Name) -> Result<Value, Stop> {
    note(restater, name.token, What::RandomZero)?;
    let constant = match name.text.as_str() {
        "nextInt" => Constant::Int(0),
        "nextBoolean" => Constant::Boolean(false),
        _ => return no_method(restater, name, Why::NoLibraryMethod),
    };
    literal(restater, constant, name.token)
}

// `get` or `set` of a ThreadLocal: of an array, by the thread's number.
fn thread_local_call(
    restater: &mut Restater,
    out: &mut Text,
    name: &Name,
    object: Value,
    arguments: &[Value],
) -> Result<Value, Stop> {
    let at = name.token;
    let Kind::ThreadLocal(element) = object.kind else {
        return no_method(restater, name, Why::NoLibraryMethod);
    };
    let kind = kind_of_element(element);
    let number = my_number(restater, at)?;
    let target = bound(restater, object, PRIMARY)?;
    match (name.text.as_str(), arguments) {
        ("get", []) => {
            let text = write(restater, at, "# . get ( # )", &[target, number.text])?;
            Ok(value_of(restater, text, kind, PRIMARY, Sort::Reading))
        }
        ("set", [value]) => {
            let value = as_kind(restater, at, *value, kind)?;
            let parts = [target, number.text, value.text];
            emit(restater, out, at, "# . set ( # , # ) ;", &parts)?;
            Ok(nothing())
        }
        _ => no_method(restater, name, Why::NoLibraryMethod),
    }
}

// What the elements of an array of atomics are.
fn atomic_element(array: Kind) -> Option<Kind> {
    match array {
        Kind::IntegerArray => Some(Kind::AtomicInteger),
        Kind::ReferenceArray(class) => Some(Kind::Reference(class)),
        _ => None,
    }
}

// A method of an AtomicIntegerArray or an AtomicReferenceArray: of an element, but for its length.
fn atomic_array_call(
    restater: &mut Restater,
    out: &mut Text,
    name: &Name,
    object: Value,
    arguments: &[Value],
) -> Result<Value, Stop> {
    let at = name.token;
    if name.text.as_str() == "length" {
        let target = bound(restater, object, PRIMARY)?;
        let text = write(restater, at, "# . length", &[target])?;
        return Ok(value_of(restater, text, Kind::Int, PRIMARY, Sort::Reading));
    }
    let (Some(kind), Some((index, others))) = (atomic_element(object.kind), arguments.split_first())
    else {
        return no_method(restater, name, Why::NoLibraryMethod);
    };
    let element = call_by(restater, at, "# . get ( # )", object, index.text, kind)?;
    if kind == Kind::AtomicInteger {
        atomic_call(restater, name, element, others)
    } else {
        reference_call(restater, out, name, element, others)
    }
}

/// A call of a method of an object of the library.
pub fn library_call(
    restater: &mut Restater,
    out: &mut Text,
    name: &Name,
    object: Value,
    arguments: &[Value],
) -> Result<Value, Stop> {
    match object.kind {
        Kind::Lock => lock_call(restater, out, name, object, arguments),
        Kind::ReadWrite => half(restater, name, object),
        Kind::ReadLock | Kind::WriteLock => half_call(restater, name, object),
        Kind::Semaphore => gate_call(restater, name, object, arguments),
        Kind::Latch => gate_call(restater, name, object, arguments),
        Kind::Random => random_call(restater, name),
        Kind::AtomicInteger => atomic_call(restater, name, object, arguments),
        Kind::AtomicBoolean => atomic_call(restater, name, object, arguments),
        Kind::Reference(_) => reference_call(restater, out, name, object, arguments),
        Kind::Markable(_) => markable_call(restater, name, object, arguments),
        Kind::ThreadLocal(_) => thread_local_call(restater, out, name, object, arguments),
        Kind::IntegerArray => atomic_array_call(restater, out, name, object, arguments),
        Kind::ReferenceArray(_) => atomic_array_call(restater, out, name, object, arguments),
        Kind::Array(_) if name.text.as_str() == "clone" => {
            no_method(restater, name, Why::CloneOf)
        }
        _ => no_method(restater, name, Why::NoLibraryMethod),
    }
}
