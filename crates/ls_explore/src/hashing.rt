// Numbers made of histories, by which states are looked for.

use ls_events::event::{Event, Happening};
use ls_events::kind::Kind;
use ls_events::value::Value;
use ls_machine_moves::hashing::hashed;

/// A number for each kind of exception.
fn number_of_kind(kind: Kind) -> u64 {
    match kind {
        Kind::Arithmetic => 1,
        Kind::NullPointer => 2,
        Kind::ArrayIndexOutOfBounds => 3,
        Kind::NegativeArraySize => 4,
        Kind::IllegalMonitorState => 5,
        Kind::StackOverflow => 6,
        Kind::Error => 7,
    }
}

/// A number made of another and of what happened to a call.
fn hash_of_happening(seed: u64, happening: Happening) -> u64 {
    match happening {
        Happening::Called => hashed(seed, 1),
        Happening::Returned(None) => hashed(seed, 2),
        Happening::Returned(Some(Value::Int(n))) => {
            hashed(
                hashed(seed, if n < 0 { 9 } else { 3 }),
                n.unsigned_abs() as u64,
            )
        }
        Happening::Returned(Some(Value::Boolean(b))) => hashed(seed, if b { 4 } else { 5 }),
        Happening::Returned(Some(Value::Reference(r))) => hashed(hashed(seed, 6), r),
        Happening::Returned(Some(Value::Pair { reference, mark: _ })) => hashed(
            hashed(seed, 7),
            reference,
        ),
        Happening::Trapped(kind) => hashed(hashed(seed, 8), number_of_kind(kind)),
    }
}

/// A number made of another and of an event.
fn hash_of_event(seed: u64, event: &Event) -> u64 {
    let hash = hashed(hashed(seed, event.thread as u64), event.call as u64);
    hash_of_happening(hash, event.happening)
}

/// A number made of a history.
pub(crate) fn number_of(history: &[Event]) -> u64 {
    let mut hash = 0;
    for event in history {
        hash = hash_of_event(hash, event);
    }
    hash
}
