// Why a file has no tree without `try`.

ghost use Rattle.std.specs.Prelude.{◌≡◌};
ghost use Rattle.ls_linker.specs.declared.count_fault.CountFault.TheVariants.{Memory};

use std::alloc::{AllocError, AllocFailed};
use thiserror::Error;

/// Why a file has no tree without `try`.
#[derive(Clone, Copy, Debug, Error, PartialEq, Eq)]
pub enum CountFault {
    #[error("out of memory")]
    Memory,
    /// A method has over 4,096 copies of finally blocks.
    #[error("a method with too many copies of finally blocks")]
    TooManyCopies,
    /// The code of a method has over 65,536 instructions.
    #[error("a method with too long a code")]
    TooLong,
    /// The code of all methods has over 65,536 instructions.
    #[error("too long a code")]
    TooLongTogether,
}

impl From<AllocError> for CountFault {
    ghost from_gives = { λ _ e. e ≡ Memory };

    fn from(_error: AllocError) -> CountFault {
        CountFault::Memory
    }
}

impl<T: Drop> From<AllocFailed<T>> for CountFault {
    ghost from_gives = { λ _ e. e ≡ Memory };

    fn from(_error: AllocFailed<T>) -> CountFault {
        CountFault::Memory
    }
}
