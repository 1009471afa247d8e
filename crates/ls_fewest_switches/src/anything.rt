// The observer that calls every history bad.

ghost use Rattle.std.specs.Prelude.{true};

use ls_events::event::Event;
use ls_observers::observer::Observer;
use std::alloc::{AllocError, Global};

/// An observer that calls every history bad, and notes nothing.
#[derive(Drop)]
pub(crate) struct Anything;

impl Observer for Anything {
    ghost State = { Unit {0} };

    ghost first = { λ _. tt };

    ghost next = { λ _ _ _. tt };

    ghost bad = { λ _ _. true };

    type Noted = bool;

    ghost stands = { λ _ _. tt };

    fn start(&self, _alloc: Global) -> Result<bool, AllocError> {
        Ok(true)
    }

    fn after(&self, _alloc: Global, _noted: &bool, _event: &Event) -> Result<bool, AllocError> {
        Ok(true)
    }

    fn is_same(&self, _noted: &bool, _other: &bool) -> bool {
        true
    }

    fn hash(&self, _noted: &bool) -> u64 {
        0
    }

    fn is_bad(&self, _noted: &bool) -> bool {
        true
    }
}
