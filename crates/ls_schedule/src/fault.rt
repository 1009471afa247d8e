// Why a schedule text is refused.

ghost use Rattle.std.specs.Prelude.{◌≡◌};
ghost use Rattle.ls_schedule.specs.declared.fault.ScheduleFault.TheVariants.{Memory};

use std::alloc::{AllocError, AllocFailed};
use thiserror::Error;

/// Why a schedule text is refused. Places are bytes from the start of the text, from 0.
#[derive(Clone, Copy, Debug, Error, PartialEq, Eq)]
pub enum ScheduleFault {
    #[error("out of memory")]
    Memory,
    /// What begins here has not the form of an item or, in a text of version 2, of a group: its parenthesis isn't
    /// closed, it is empty or in eight others, or what follows it directly is no count.
    #[error("no item of a schedule at {at}")]
    BadItem { at: usize },
    /// The item that begins here has the form of one, and its name is that of no thread.
    #[error("no thread of the program at {at}")]
    UnknownThread { at: usize },
    #[error("more than 1,000,000 steps")]
    TooManySteps,
}

impl From<AllocError> for ScheduleFault {
    ghost from_gives = { λ _ e. e ≡ Memory };

    fn from(_error: AllocError) -> ScheduleFault {
        ScheduleFault::Memory
    }
}

impl<T: Drop> From<AllocFailed<T>> for ScheduleFault {
    ghost from_gives = { λ _ e. e ≡ Memory };

    fn from(_error: AllocFailed<T>) -> ScheduleFault {
        ScheduleFault::Memory
    }
}
