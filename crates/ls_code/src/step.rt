// What a step does, and what state a thread is in.

ghost use Rattle.std.specs.Prelude.{◌≡◌};
ghost use Rattle.ls_code.specs.Machine.{stops};

use ls_events::action::{Action, Answer};
use std::alloc::AllocError;

/// Whether a thread goes on.
#[derive(Copy, PartialEq, Eq)]
pub enum Mode {
    Running,
    Ended,
    Trapped,
}

impl Clone for Mode {
    fn clone(&self) -> Result<Mode, AllocError> {
        Ok(*self)
    }
}

/// The state of a thread.
#[derive(Copy)]
pub enum ThreadState {
    NotStarted,
    Running,
    Ended,
    Trapped,
    Stopped,
}

impl Clone for ThreadState {
    fn clone(&self) -> Result<ThreadState, AllocError> {
        Ok(*self)
    }
}

/// What one step did.
#[derive(Copy)]
pub enum Did {
    /// Nothing that another thread could notice.
    Silent,
    /// One action, with its answer, as words.
    Acted(Action<u64>, Answer<u64>),
    /// Nothing: another thread owns the lock.
    Waits,
    /// Nothing: the thread doesn't exist, hasn't started or is over.
    Idle,
    /// Nothing: the cells have run out.
    Stopped,
}

impl Clone for Did {
    fn clone(&self) -> Result<Did, AllocError> {
        Ok(*self)
    }
}

/// Whether a step stops the machine because the cells have run out. Then it stops for good, and for all of its
/// threads.
#[inline]
pub fn is_stop(did: Did) -> bool
    ensures { result ≡ stops did }
{
    match did {
        Did::Stopped => true,
        Did::Silent | Did::Acted(_, _) | Did::Waits | Did::Idle => false,
    }
}
