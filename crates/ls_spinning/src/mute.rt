// The observer that notes nothing.

ghost use Rattle.std.specs.Prelude.{false};
ghost use Rattle.ls_spinning.specs.Mute.{nothing_noted};

use ls_events::event::Event;
use ls_observers::observer::Observer;
use std::alloc::{AllocError, Global};

/// An observer that notes nothing, so that states are told apart by what threads can do alone.
#[derive(Drop)]
pub struct Mute;

impl Observer for Mute {
    ghost State = { Unit {0} };

    ghost first = { λ _. tt };

    ghost next = { λ _. nothing_noted };

    ghost bad = { λ _ _. false };

    type Noted = bool;

    ghost stands = { λ _ _. tt };

    fn start(&self, _alloc: Global) -> Result<bool, AllocError> {
        Ok(true)
    }

    fn after(&self, _alloc: Global, _noted: &bool, _event: &Event) -> Result<bool, AllocError> {
        Ok(true)
    }

    fn is_same(&self, _noted: &bool, _other: &bool) -> bool {
        true
    }

    fn hash(&self, _noted: &bool) -> u64 {
        0
    }

    fn is_bad(&self, _noted: &bool) -> bool {
        false
    }
}
