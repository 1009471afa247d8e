// Why there is no live run, or no record of it.

ghost use Rattle.ls_live.specs.declared.fault.LiveFault.TheVariants.{Memory};
ghost use Rattle.std.specs.Prelude.{◌≡◌};

use std::alloc::AllocError;
use thiserror::Error;

/// A refusal of `Live::open`.
#[derive(Copy, Debug, Error, PartialEq, Eq)]
pub enum LiveFault {
    /// Memory ran out.
    #[error("out of memory")]
    Memory,
    /// 35: no cells, over 4,194,304 cells, or fewer cells than setup names.
    #[error("bad number of cells")]
    BadCells,
    /// 51: a limit over 1,000,000 steps.
    #[error("a limit over 1,000,000 steps")]
    BadLimit,
}

impl Clone for LiveFault {
    fn clone(&self) -> Result<LiveFault, AllocError> {
        Ok(*self)
    }
}

impl From<AllocError> for LiveFault {
    ghost from_gives = { λ _ fault. fault ≡ Memory };

    fn from(_: AllocError) -> LiveFault {
        LiveFault::Memory
    }
}

/// A refusal of a whole live run.
#[derive(Copy, Debug, Error, PartialEq, Eq)]
pub enum PlayFault {
    #[error("no live run")]
    Open(LiveFault),
    /// 52: a thread could not be started.
    #[error("no thread")]
    NoThread,
    /// 54: a seat disagrees with the record.
    #[error("a seat disagrees with the record")]
    Disagree,
}

impl Clone for PlayFault {
    fn clone(&self) -> Result<PlayFault, AllocError> {
        Ok(*self)
    }
}
