// Why a schedule isn't translated.

ghost use Rattle.std.specs.Prelude.{◌≡◌};
ghost use Rattle.ls_translation.specs.Faults.{fault_of_load};
ghost use Rattle.ls_translation.specs.declared.fault.TranslationFault.TheVariants.{Memory};

use ls_machine::LoadFault;
use std::alloc::AllocError;
use thiserror::Error;

/// Why a schedule isn't translated.
#[derive(Clone, Copy, Debug, Error, PartialEq, Eq)]
pub enum TranslationFault {
    #[error("out of memory")]
    Memory,
    /// No cells, more than 4,194,304, or fewer than setup names.
    #[error("bad number of cells")]
    BadCells,
    /// The first step of the schedule, from 0, that makes what has no room beside the setup names and what was made
    /// before.
    #[error("what step {step} makes has no room")]
    DoesNotFit { step: usize },
    /// The machine would take more steps than a schedule can have.
    #[error("more than 1,000,000 steps")]
    ResultTooLong,
}

impl From<AllocError> for TranslationFault {
    ghost from_gives = { λ _ e. e ≡ Memory };

    fn from(_error: AllocError) -> TranslationFault {
        TranslationFault::Memory
    }
}

impl From<LoadFault> for TranslationFault {
    ghost from_gives = { λ fault e. e ≡ fault_of_load fault };

    fn from(fault: LoadFault) -> TranslationFault {
        match fault {
            LoadFault::BadCells => TranslationFault::BadCells,
            LoadFault::Memory => TranslationFault::Memory,
        }
    }
}
