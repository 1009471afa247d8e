// Why targets are refused.

ghost use Rattle.std.specs.Prelude.{◌≡◌};
ghost use Rattle.ls_aim.specs.Answers.{lifted};
ghost use Rattle.ls_aim.specs.declared.fault.AimFault.TheVariants.{Memory};

use ls_schedule::fault::ScheduleFault;
use std::alloc::{AllocError, AllocFailed};
use thiserror::Error;

/// Why a text with targets is refused. Places are bytes from the start of the text, from 0.
#[derive(Clone, Copy, Debug, Error, PartialEq, Eq)]
pub enum AimFault {
    #[error("out of memory")]
    Memory,
    /// An item breaks the rules of schedules, a target has another form, or a target names no thread. It also comes
    /// if there are more than 1,000,000 steps.
    #[error(transparent)]
    Schedule(ScheduleFault),
    /// The thread of the target that begins here hasn't started: the setup hasn't ended, or has ended with a trap.
    #[error("the thread of the target at {at} hasn't started")]
    NotStarted { at: usize },
    /// The thread of the target that begins here ends or waits before it comes to the step.
    #[error("the thread of the target at {at} ends or waits before it")]
    NotMet { at: usize },
    /// The target that begins here isn't met while a schedule has room for steps.
    #[error("the target at {at} isn't met within 1,000,000 steps")]
    TooFar { at: usize },
}

impl From<AllocError> for AimFault {
    ghost from_gives = { λ _ e. e ≡ Memory };

    fn from(_error: AllocError) -> AimFault {
        AimFault::Memory
    }
}

impl<T: Drop> From<AllocFailed<T>> for AimFault {
    ghost from_gives = { λ _ e. e ≡ Memory };

    fn from(_error: AllocFailed<T>) -> AimFault {
        AimFault::Memory
    }
}

impl From<ScheduleFault> for AimFault {
    ghost from_gives = { λ f e. e ≡ lifted f };

    fn from(fault: ScheduleFault) -> AimFault {
        match fault {
            ScheduleFault::Memory => AimFault::Memory,
            other => AimFault::Schedule(other),
        }
    }
}
