// Numbers made of events. Nothing depends on them.

use ls_events::event::{Event, Happening};
use ls_events::value::Value;
use ls_observers::hashing::hashed;

/// A number made of another and of a value.
fn hashed_value(hash: u64, value: Value) -> u64 {
    match value {
        Value::Int(int) => hashed(hashed(hash, 1), int.cast_unsigned() as u64),
        Value::Boolean(truth) => hashed(hashed(hash, 2), truth as u64),
        Value::Reference(number) => hashed(hashed(hash, 3), number),
        Value::Pair { reference, mark } => hashed(hashed(hashed(hash, 4), reference), mark as u64),
    }
}

/// A number made of another and of an event.
pub(crate) fn hashed_event(hash: u64, event: &Event) -> u64 {
    let place = hashed(hashed(hash, event.thread as u64), event.call as u64);
    match event.happening {
        Happening::Called => place,
        Happening::Returned(None) => hashed(place, 1),
        Happening::Returned(Some(value)) => hashed_value(hashed(place, 2), value),
        Happening::Trapped(_) => hashed(place, 3),
    }
}
