// Why a lowering refuses a tree.

ghost use Rattle.std.specs.Prelude.{◌≡◌};
ghost use Rattle.ls_lowered.specs.declared.fault.LowerFault.TheVariants.{Memory};

use std::alloc::{AllocError, AllocFailed};
use thiserror::Error;

/// Why a lowering refuses a tree.
#[derive(Clone, Copy, Debug, Error, PartialEq, Eq)]
pub enum LowerFault {
    #[error("out of memory")]
    Memory,
    /// A method has over 128 locals. `this`, parameters and locals count, four for each compareAndSet, two for each
    /// get and two for each `try`.
    #[error("a method with too many locals")]
    TooManyLocals,
    /// A method has over 4,096 copies of finally blocks.
    #[error("a method with too many copies of finally blocks")]
    TooManyCopies,
}

impl From<AllocError> for LowerFault {
    ghost from_gives = { λ _ e. e ≡ Memory };

    fn from(_error: AllocError) -> LowerFault {
        LowerFault::Memory
    }
}

impl<T: Drop> From<AllocFailed<T>> for LowerFault {
    ghost from_gives = { λ _ e. e ≡ Memory };

    fn from(_error: AllocFailed<T>) -> LowerFault {
        LowerFault::Memory
    }
}
