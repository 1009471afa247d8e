// Operations of AtomicInteger, AtomicBoolean, AtomicReference and AtomicMarkableReference.

use crate::arguments::{fitted, listed};
use crate::parts::{as_kind, declared, keep_as, keep_reading};
use crate::writing::{emit, write};
use ls_java_tables::needs::{Helper, Operation, use_operation};
use ls_java_tables::remarks::{Stop, What, Why};
use ls_java_tables::restater::{Restater, name_of, note, refuse_word};
use ls_java_tables::ropes::Text;
use ls_java_tables::spelling::{bound, value_of};
use ls_java_tables::values::{Kind, PRIMARY, Sort, Value, reads};
use ls_java_tree::names::Name;

/// A call of a method of the library by a pattern: the object, and the arguments.
pub fn call_by(
    restater: &mut Restater,
    at: usize,
    pattern: &'static str,
    object: Value,
    arguments: Text,
    kind: Kind,
) -> Result<Value, Stop> {
    let target = bound(restater, object, PRIMARY)?;
    let text = write(restater, at, pattern, &[target, arguments])?;
    Ok(value_of(restater, text, kind, PRIMARY, Sort::Reading))
}

/// A method that isn't there.
pub fn no_method<T>(restater: &mut Restater, name: &Name, why: Why) -> Result<T, Stop> {
    let wanted = name_of(restater, name);
    refuse_word(restater, name.token, wanted, why)
}

// The operation of a name, which AtomicBoolean has too.
fn shared_operation(name: &str) -> Option<Operation> {
    match name {
        "get" | "getPlain" | "getAcquire" | "getOpaque" | "intValue" | "longValue" => {
            Some(Operation::Get)
        }
        "set" | "lazySet" | "setPlain" | "setRelease" | "setOpaque" => Some(Operation::Set),
        "getAndSet" => Some(Operation::GetAndSet),
        "compareAndSet"
        | "weakCompareAndSet"
        | "weakCompareAndSetPlain"
        | "weakCompareAndSetVolatile" => Some(Operation::CompareAndSet),
        _ => None,
    }
}

// The operation of a name that only AtomicInteger has.
fn integer_operation(name: &str) -> Option<Operation> {
    match name {
        "getAndAdd" => Some(Operation::GetAndAdd),
        "addAndGet" => Some(Operation::AddAndGet),
        "getAndIncrement" => Some(Operation::GetAndIncrement),
        "incrementAndGet" => Some(Operation::IncrementAndGet),
        "getAndDecrement" => Some(Operation::GetAndDecrement),
        "decrementAndGet" => Some(Operation::DecrementAndGet),
        "compareAndExchange" => Some(Operation::CompareAndExchange),
        _ => None,
    }
}

// How an operation is written.
fn operation_pattern(operation: Operation) -> &'static str {
    match operation {
        Operation::Get => "# . get ( # )",
        Operation::Set => "# . set ( # )",
        Operation::GetAndSet => "# . getAndSet ( # )",
        Operation::GetAndAdd => "# . getAndAdd ( # )",
        Operation::AddAndGet => "# . addAndGet ( # )",
        Operation::GetAndIncrement => "# . getAndIncrement ( # )",
        Operation::IncrementAndGet => "# . incrementAndGet ( # )",
        Operation::GetAndDecrement => "# . getAndDecrement ( # )",
        Operation::DecrementAndGet => "# . decrementAndGet ( # )",
        Operation::CompareAndSet => "# . compareAndSet ( # )",
        Operation::CompareAndExchange => "# . compareAndExchange ( # )",
    }
}

// What an operation gives, where the value is of a kind.
fn operation_kind(operation: Operation, value: Kind) -> Kind {
    match operation {
        Operation::Set => Kind::Void,
        Operation::CompareAndSet => Kind::Boolean,
        _ => value,
    }
}

// An operation of the class that stands for AtomicInteger or AtomicBoolean.
fn operation_call(
    restater: &mut Restater,
    at: usize,
    operation: Operation,
    object: Value,
    arguments: &[Value],
) -> Result<Value, Stop> {
    let is_integer = object.kind == Kind::AtomicInteger;
    let (helper, value, what) = if is_integer {
        (Helper::AtomicInteger, Kind::Int, What::AtomicInteger)
    } else {
        (Helper::AtomicBoolean, Kind::Boolean, What::AtomicBoolean)
    };
    use_operation(restater, helper, operation)?;
    note(restater, at, what)?;
    let mut list = Text::EMPTY;
    fitted(restater, &mut list, at, arguments, &[value, value])?;
    let kind = operation_kind(operation, value);
    call_by(
        restater,
        at,
        operation_pattern(operation),
        object,
        list,
        kind,
    )
}

/// A method of an AtomicInteger, an AtomicLong or an AtomicBoolean.
pub fn atomic_call(
    restater: &mut Restater,
    name: &Name,
    object: Value,
    arguments: &[Value],
) -> Result<Value, Stop> {
    let text = name.text.as_str();
    let operation = match shared_operation(text) {
        Some(operation) => Some(operation),
        None if object.kind == Kind::AtomicInteger => integer_operation(text),
        None => None,
    };
    match operation {
        Some(operation) => { operation_call(restater, name.token, operation, object, arguments) }
        None => no_method(restater, name, Why::WriteLoop),
    }
}

/// A method of an AtomicReference: of an AtomicMarkableReference whose mark is always false.
pub fn reference_call(
    restater: &mut Restater,
    out: &mut Text,
    name: &Name,
    object: Value,
    arguments: &[Value],
) -> Result<Value, Stop> {
    let at = name.token;
    let Kind::Reference(class) = object.kind else {
        return no_method(restater, name, Why::NoLibraryMethod);
    };
    let referent = Kind::Class(class);
    let (pattern, kind) = match (shared_operation(name.text.as_str()), arguments) {
        (Some(Operation::Get), []) => ("# . getReference ( # )", referent),
        (Some(Operation::Set), [_]) => ("# . set ( # , false )", Kind::Void),
        (Some(Operation::CompareAndSet), [_, _]) => {
            ("# . compareAndSet ( # , false , false )", Kind::Boolean)
        }
        (Some(Operation::GetAndSet), [value]) => {
            return get_and_set(restater, out, at, object, *value);
        }
        _ => return no_method(restater, name, Why::WriteLoop),
    };
    let list = listed(restater, at, arguments)?;
    call_by(restater, at, pattern, object, list, kind)
}

// `getAndSet` of an AtomicReference: a loop that takes effect where the exchange succeeds.
fn get_and_set(
    restater: &mut Restater,
    out: &mut Text,
    at: usize,
    object: Value,
    value: Value,
) -> Result<Value, Stop> {
    let Kind::Reference(class) = object.kind else {
        return Ok(value);
    };
    let kind = Kind::Class(class);
    let target = keep_reading(restater, out, at, object)?;
    let new = if reads(value) {
        keep_as(restater, out, at, value, kind)?
    } else {
        value
    };
    let old = declared(restater, out, at, "old", kind)?;
    let pattern = "while ( true ) { # = # . getReference ( ) ;";
    emit(restater, out, at, pattern, &[old.text, target.text])?;
    let pattern = "if ( # . compareAndSet ( # , # , false , false ) ) break ; }";
    emit(
        restater,
        out,
        at,
        pattern,
        &[target.text, old.text, new.text],
    )?;
    note(restater, at, What::GetAndSet)?;
    Ok(old)
}

/// A method of an AtomicMarkableReference.
pub fn markable_call(
    restater: &mut Restater,
    name: &Name,
    object: Value,
    arguments: &[Value],
) -> Result<Value, Stop> {
    let at = name.token;
    let Kind::Markable(class) = object.kind else {
        return no_method(restater, name, Why::NoLibraryMethod);
    };
    let referent = Kind::Class(class);
    if name.text.as_str() == "get" && restater.facts.boolean_lengths {
        return no_method(restater, name, Why::BooleanLength);
    }
    let list = listed(restater, at, arguments)?;
    let (pattern, kind) = match name.text.as_str() {
        "getReference" => ("# . getReference ( # )", referent),
        "isMarked" => ("# . isMarked ( # )", Kind::Boolean),
        "get" => ("# . get ( # )", referent),
        "set" => ("# . set ( # )", Kind::Void),
        "compareAndSet" | "weakCompareAndSet" => ("# . compareAndSet ( # )", Kind::Boolean),
        "attemptMark" => ("# . attemptMark ( # )", Kind::Boolean),
        _ => return no_method(restater, name, Why::NoLibraryMethod),
    };
    call_by(restater, at, pattern, object, list, kind)
}

/// What `updateAndGet` and its like begin with: locals for what was there and what will be, and the loop's head.
pub fn begin_update(
    restater: &mut Restater,
    out: &mut Text,
    at: usize,
    object: Value,
    kind: Kind,
) -> Result<(Value, Value), Stop> {
    let old = declared(restater, out, at, "old", kind)?;
    let new = declared(restater, out, at, "next", kind)?;
    let pattern = if object.kind == Kind::AtomicInteger {
        use_operation(restater, Helper::AtomicInteger, Operation::Get)?;
        "while ( true ) { # = # . get ( ) ;"
    } else {
        "while ( true ) { # = # . getReference ( ) ;"
    };
    let target = bound(restater, object, PRIMARY)?;
    emit(restater, out, at, pattern, &[old.text, target])?;
    Ok((old, new))
}

/// What they end with: the exchange, which is tried again where it fails.
pub fn end_update(
    restater: &mut Restater,
    out: &mut Text,
    at: usize,
    object: Value,
    old: Value,
    new: Value,
) -> Result<(), Stop> {
    let target = bound(restater, object, PRIMARY)?;
    let pattern = if object.kind == Kind::AtomicInteger {
        use_operation(restater, Helper::AtomicInteger, Operation::CompareAndSet)?;
        "if ( # . compareAndSet ( # , # ) ) break ; }"
    } else {
        "if ( # . compareAndSet ( # , # , false , false ) ) break ; }"
    };
    emit(restater, out, at, pattern, &[target, old.text, new.text])?;
    note(restater, at, What::UpdateLoop)
}

/// The kind of what an AtomicInteger or an AtomicReference holds.
pub fn held_kind(object: Kind) -> Option<Kind> {
    match object {
        Kind::AtomicInteger => Some(Kind::Int),
        Kind::Reference(class) => Some(Kind::Class(class)),
        _ => None,
    }
}

/// The new value goes to its local.
pub fn set_new(
    restater: &mut Restater,
    out: &mut Text,
    at: usize,
    new: Value,
    value: Value,
) -> Result<(), Stop> {
    let value = as_kind(restater, at, value, new.kind)?;
    emit(restater, out, at, "# = # ;", &[new.text, value.text])
}
