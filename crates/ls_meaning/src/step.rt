// What a thread of a run asks for, and what a step of it does.

ghost use Rattle.std.specs.Prelude.{◌≡◌, true, false};
ghost use Rattle.ls_meaning.specs.Still.{IsActing, IsStill, has_acted};

use ls_events::action::{Action, Answer};
use ls_events::value::Value;
use std::alloc::AllocError;

/// What a thread asks for next.
#[derive(Copy)]
pub enum Asked {
    Asks(Action<Value>),
    /// Its last event has happened. A thread that doesn't exist has ended too.
    Ended,
    /// It waits for the setup, which hasn't ended or has ended with a trap.
    NotStarted,
}

impl Clone for Asked {
    fn clone(&self) -> Result<Asked, AllocError> {
        Ok(*self)
    }
}

/// What a step of a thread does.
#[derive(Copy)]
pub enum Did {
    Acted(Action<Value>, Answer<Value>),
    /// It asks for a lock that another thread owns.
    Waits,
    /// It hasn't started or has ended.
    Idle,
}

impl Clone for Did {
    fn clone(&self) -> Result<Did, AllocError> {
        Ok(*self)
    }
}

/// Whether a step acted.
pub fn has_acted(did: Did) -> bool
    ensures is { result ≡ has_acted did }
    ensures acts { result ≡ true → IsActing did }
    ensures still { result ≡ false → IsStill did }
{
    match did {
        Did::Acted(_, _) => true,
        Did::Waits | Did::Idle => false,
    }
}
