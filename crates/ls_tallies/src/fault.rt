// Why a text is no list of tallies, or why they aren't merged.

ghost use Rattle.std.specs.Prelude.{◌≡◌};
ghost use Rattle.ls_tallies.specs.declared.fault.TallyFault.TheVariants.{Memory};

use std::alloc::{AllocError, AllocFailed};
use thiserror::Error;

#[derive(Clone, Copy, Debug, Error, PartialEq, Eq)]
pub enum TallyFault {
    #[error("out of memory")]
    Memory,
    /// Neither a history with its count nor a line `%%` begins at this byte.
    #[error("no row of a tally at byte {at}")]
    BadTally { at: usize },
    /// The counts come to 2^64 or more.
    #[error("the counts come to more than 64 bits")]
    CountTooGreat,
    /// The counts don't come to the number that is wanted.
    #[error("the counts come to another number")]
    OtherCount,
}

impl From<AllocError> for TallyFault {
    ghost from_gives = { λ _ e. e ≡ Memory };

    fn from(_error: AllocError) -> TallyFault {
        TallyFault::Memory
    }
}

impl<T: Drop> From<AllocFailed<T>> for TallyFault {
    ghost from_gives = { λ _ e. e ≡ Memory };

    fn from(_error: AllocFailed<T>) -> TallyFault {
        TallyFault::Memory
    }
}
