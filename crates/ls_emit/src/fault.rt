// Why an emission refuses a tree.

ghost use Rattle.std.specs.Prelude.{◌≡◌};
ghost use Rattle.ls_emit.specs.declared.fault.EmitFault.TheVariants.{Memory};

use std::alloc::{AllocError, AllocFailed};
use thiserror::Error;

/// Why an emission refuses a tree.
#[derive(Clone, Copy, Debug, Error, PartialEq, Eq)]
pub enum EmitFault {
    #[error("out of memory")]
    Memory,
    /// A method's code has over 65,536 instructions.
    #[error("a method with too long a code")]
    CodeTooLong,
}

impl From<AllocError> for EmitFault {
    ghost from_gives = { λ _ e. e ≡ Memory };

    fn from(_error: AllocError) -> EmitFault {
        EmitFault::Memory
    }
}

impl<T: Drop> From<AllocFailed<T>> for EmitFault {
    ghost from_gives = { λ _ e. e ≡ Memory };

    fn from(_error: AllocFailed<T>) -> EmitFault {
        EmitFault::Memory
    }
}
