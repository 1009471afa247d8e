// Why reports of ranges aren't added up.

ghost use Rattle.std.specs.Prelude.{◌≡◌};
ghost use Rattle.ls_find_reports.specs.declared.fault.RangeFault.TheVariants.{Memory};

use std::alloc::{AllocError, AllocFailed};
use thiserror::Error;

/// Why reports of ranges aren't added up.
#[derive(Clone, Copy, Debug, Error, PartialEq, Eq)]
pub enum RangeFault {
    #[error("out of memory")]
    Memory,
    /// Neither a report nor a line `%%` begins at this byte.
    #[error("no report of a range at byte {at}")]
    BadReport { at: usize },
    /// There is no range, or one doesn't follow the one before it.
    #[error("the ranges don't follow one another")]
    NotFollowing,
    /// There are not as many numbers as are wanted.
    #[error("there is another number of numbers")]
    OtherCount,
}

impl From<AllocError> for RangeFault {
    ghost from_gives = { λ _ fault. fault ≡ Memory };

    fn from(_error: AllocError) -> RangeFault {
        RangeFault::Memory
    }
}

impl<T: Drop> From<AllocFailed<T>> for RangeFault {
    ghost from_gives = { λ _ fault. fault ≡ Memory };

    fn from(_error: AllocFailed<T>) -> RangeFault {
        RangeFault::Memory
    }
}
