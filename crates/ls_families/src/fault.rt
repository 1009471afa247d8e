// Why there is no such family.

ghost use Rattle.std.specs.Prelude.{◌≡◌};
ghost use Rattle.ls_families.specs.declared.fault.FamilyFault.TheVariants.{Memory};

use std::alloc::AllocError;
use thiserror::Error;

/// Why there is no such family.
#[derive(Clone, Copy, Debug, Error, PartialEq, Eq)]
pub enum FamilyFault {
    #[error("out of memory")]
    Memory,
    /// There is no call to choose from.
    #[error("no calls to choose from")]
    NoCalls,
    /// No threads or more than 4, no calls of a thread or more than 4, or more than 8 of the setup.
    #[error("bad bounds of programs")]
    BadBounds,
    /// There are more than 1,000,000 programs.
    #[error("too many programs")]
    TooMany,
}

impl From<AllocError> for FamilyFault {
    ghost from_gives = { λ _ fault. fault ≡ Memory };

    fn from(_error: AllocError) -> FamilyFault {
        FamilyFault::Memory
    }
}
