// The observer that notes whole histories.

ghost use Rattle.std.specs.Prelude.{◌≡◌, IfOk, IsTrue, List, [], false};
ghost use Rattle.ls_events.specs.declared.event.Event.{Event as EventValue};
ghost use Rattle.ls_search_laws.specs.Histories.{one_more};

use ls_events::event::{Event, Happening};
use ls_events::kind::Kind;
use ls_events::same::are_same_events;
use ls_events::value::Value;
use ls_observers::hashing::hashed;
use ls_observers::observer::Observer;
use std::alloc::{AllocError, Global};

/// An observer that notes the whole history. None is bad.
#[derive(Drop)]
pub struct Histories;

/// A number for each kind of exception.
fn number_of_kind(kind: Kind) -> u64 {
    match kind {
        Kind::Arithmetic => 1,
        Kind::NullPointer => 2,
        Kind::ArrayIndexOutOfBounds => 3,
        Kind::NegativeArraySize => 4,
        Kind::IllegalMonitorState => 5,
        Kind::StackOverflow => 6,
        Kind::Error => 7,
    }
}

/// A number made of another and of a value.
fn hash_of_value(hash: u64, value: Value) -> u64 {
    match value {
        Value::Int(n) => hashed(
            hashed(hash, if n < 0 { 1 } else { 2 }),
            n.unsigned_abs() as u64,
        ),
        Value::Boolean(flag) => hashed(hash, if flag { 3 } else { 4 }),
        Value::Reference(number) => hashed(hashed(hash, 5), number),
        Value::Pair { reference, mark } => hashed(
            hashed(hash, if mark { 6 } else { 7 }),
            reference,
        ),
    }
}

/// A number made of another and of what happened to a call.
fn hash_of_happening(hash: u64, happening: Happening) -> u64 {
    match happening {
        Happening::Called => hashed(hash, 8),
        Happening::Returned(None) => hashed(hash, 9),
        Happening::Returned(Some(value)) => hash_of_value(hashed(hash, 10), value),
        Happening::Trapped(kind) => hashed(hashed(hash, 11), number_of_kind(kind)),
    }
}

/// A number made of another and of an event.
fn hash_of_event(hash: u64, event: &Event) -> u64 {
    hash_of_happening(
        hashed(hashed(hash, event.thread as u64), event.call as u64),
        event.happening,
    )
}

/// These events, and one more.
fn with_event(alloc: Global, events: &[Event], event: &Event) -> Result<Vec<Event>, AllocError>
    ensures { IfOk result (λ v. v.items ≡ one_more events.now event.now) }
{
    let mut more: Vec<Event> = events.iter().copied().collect(alloc)?;
    more.push(*event)?;
    Ok(more)
}

impl Observer for Histories {
    ghost State = { List EventValue };

    ghost first = { λ _. [] };

    ghost next = { λ _. one_more };

    ghost bad = { λ _ _. false };

    type Noted = Vec<Event>;

    ghost stands = { λ _ v. v.items };

    fn start(&self, alloc: Global) -> Result<Vec<Event>, AllocError> {
        Ok(Vec::new(alloc))
    }

    fn after(
        &self,
        alloc: Global,
        noted: &Vec<Event>,
        event: &Event,
    ) -> Result<Vec<Event>, AllocError> {
        with_event(alloc, noted.as_slice(), event)
    }

    fn is_same(&self, noted: &Vec<Event>, other: &Vec<Event>) -> bool {
        are_same_events(noted.as_slice(), other.as_slice())
    }

    fn hash(&self, noted: &Vec<Event>) -> u64 {
        let mut hash = 0;
        for event in noted {
            hash = hash_of_event(hash, event);
        }
        hash
    }

    fn is_bad(&self, _noted: &Vec<Event>) -> bool {
        false
    }
}
