// Whether events are the same.

ghost use Rattle.std.specs.Prelude.{◌≡◌, Decides, IsTrue};

use crate::event::{Event, Happening};
use crate::kind::Kind;
use crate::value::Value;

/// Whether a value is the other. True only where it is.
pub fn is_same_value(value: Value, other: Value) -> bool
    ensures { IsTrue result → value ≡ other }
{
    match (value, other) {
        (Value::Int(a), Value::Int(b)) => a == b,
        (Value::Boolean(a), Value::Boolean(b)) => a == b,
        (Value::Reference(a), Value::Reference(b)) => a == b,
        (
            Value::Pair {
                reference: a,
                mark: m,
            },
            Value::Pair {
                reference: b,
                mark: n,
            },
        ) => a == b && m == n,
        _ => false,
    }
}

/// Whether a number is that of a value.
fn is_int(value: Value, number: i32) -> bool
    ensures { Decides result (Value.Int number ≡ value) }
{
    match value {
        Value::Int(other) => number == other,
        Value::Boolean(_)
        | Value::Reference(_)
        | Value::Pair {
            reference: _,
            mark: _,
        } => false,
    }
}

/// Whether a truth value is that of a value.
fn is_boolean(value: Value, flag: bool) -> bool
    ensures { Decides result (Value.Boolean flag ≡ value) }
{
    match value {
        Value::Boolean(other) => flag == other,
        Value::Int(_)
        | Value::Reference(_)
        | Value::Pair {
            reference: _,
            mark: _,
        } => false,
    }
}

/// Whether a reference is that of a value.
fn is_reference(value: Value, number: u64) -> bool
    ensures { Decides result (Value.Reference number ≡ value) }
{
    match value {
        Value::Reference(other) => number == other,
        Value::Boolean(_)
        | Value::Int(_)
        | Value::Pair {
            reference: _,
            mark: _,
        } => false,
    }
}

/// Whether a reference and a mark are those of a value.
fn is_pair(value: Value, number: u64, flag: bool) -> bool
    ensures { Decides result (Value.Pair number flag ≡ value) }
{
    match value {
        Value::Pair { reference, mark } => number == reference && flag == mark,
        Value::Boolean(_) | Value::Int(_) | Value::Reference(_) => false,
    }
}

/// Whether a value is the other.
fn is_value(value: Value, other: Value) -> bool
    ensures { Decides result (value ≡ other) }
{
    match value {
        Value::Int(number) => is_int(other, number),
        Value::Boolean(flag) => is_boolean(other, flag),
        Value::Reference(number) => is_reference(other, number),
        Value::Pair { reference, mark } => is_pair(other, reference, mark),
    }
}

/// Whether an exception is the other.
fn is_kind(kind: Kind, other: Kind) -> bool
    ensures { Decides result (kind ≡ other) }
{
    kind == other
}

/// Whether what was returned is the other.
fn is_returned(value: Option<Value>, other: Option<Value>) -> bool
    ensures { Decides result (value ≡ other) }
{
    match value {
        None => match other {
            None => true,
            Some(_) => false,
        },
        Some(a) => match other {
            None => false,
            Some(b) => is_value(a, b),
        },
    }
}

/// Whether what happened is the other.
fn is_happening(happening: Happening, other: Happening) -> bool
    ensures { Decides result (happening ≡ other) }
{
    match happening {
        Happening::Called => match other {
            Happening::Called => true,
            Happening::Returned(_) | Happening::Trapped(_) => false,
        },
        Happening::Returned(a) => match other {
            Happening::Returned(b) => is_returned(a, b),
            Happening::Called | Happening::Trapped(_) => false,
        },
        Happening::Trapped(a) => match other {
            Happening::Trapped(b) => is_kind(a, b),
            Happening::Called | Happening::Returned(_) => false,
        },
    }
}

/// Whether an event is the other.
pub fn is_event(event: &Event, other: &Event) -> bool
    ensures { Decides result (event.now ≡ other.now) }
{
    event.thread == other.thread
        && event.call == other.call
        && is_happening(event.happening, other.happening)
}

/// Whether events are the same, one by one.
pub fn are_same_events(events: &[Event], others: &[Event]) -> bool
    ensures { Decides result (events.now ≡ others.now) }
{
    if events.len() != others.len() {
        return false;
    }
    for i in 0..events.len() {
        if !is_event(&events[i], &others[i]) {
            return false;
        }
    }
    true
}
