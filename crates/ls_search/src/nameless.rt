// An observer of events that name no object.

ghost use Rattle.std.specs.Prelude.{◌≡◌, Option, Some};
ghost use Rattle.ls_search.specs.Nameless.{is_nameless, is_nameless_result, is_nameless_value};
ghost use Rattle.ls_search.specs.Nameless.{nameless_bad, nameless_next};

use ls_events::event::{Event, Happening};
use ls_events::value::Value;
use ls_observers::observer::Observer;
use std::alloc::{AllocError, Global};

/// An observer that refuses each event that names an object. The calls of a program answer none.
#[derive(Drop)]
pub struct Nameless<'a, O> {
    pub observer: &'a O,
}

/// Whether a value names no object.
fn is_nameless_value(value: Value) -> bool
    ensures { result ≡ is_nameless_value value }
{
    match value {
        Value::Int(_) | Value::Boolean(_) => true,
        Value::Reference(_) | Value::Pair { .. } => false,
    }
}

/// Whether what a call answers does.
fn is_nameless_result(result_value: Option<Value>) -> bool
    ensures { result ≡ is_nameless_result result_value }
{
    match result_value {
        None => true,
        Some(value) => is_nameless_value(value),
    }
}

/// Whether an event does.
fn is_nameless(happening: Happening) -> bool
    ensures { result ≡ is_nameless happening }
{
    match happening {
        Happening::Called => true,
        Happening::Returned(value) => is_nameless_result(value),
        Happening::Trapped(_) => true,
    }
}

impl<'a, O: Observer> Observer for Nameless<'a, O> {
    ghost State = { Option O.State };

    ghost first = { λ o. Some (O.first o.observer.now) };

    ghost next = { λ o s e. nameless_next (O.next o.observer.now) s e };

    ghost bad = { λ o s. nameless_bad (O.bad o.observer.now) s };

    type Noted = O::Noted;

    ghost stands = { λ o noted. Some (O.stands o.observer.now noted) };

    fn start(&self, alloc: Global) -> Result<O::Noted, AllocError> {
        self.observer.start(alloc)
    }

    fn after(
        &self,
        alloc: Global,
        noted: &O::Noted,
        event: &Event,
    ) -> Result<O::Noted, AllocError> {
        if !is_nameless(event.happening) {
            return Err(AllocError);
        }
        self.observer.after(alloc, noted, event)
    }

    fn is_same(&self, noted: &O::Noted, other: &O::Noted) -> bool {
        self.observer.is_same(noted, other)
    }

    fn hash(&self, noted: &O::Noted) -> u64 {
        self.observer.hash(noted)
    }

    fn is_bad(&self, noted: &O::Noted) -> bool {
        self.observer.is_bad(noted)
    }
}
