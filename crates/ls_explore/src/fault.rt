// Why the schedules of an image aren't explored.

ghost use Rattle.std.specs.Prelude.{◌≡◌};
ghost use Rattle.ls_explore.specs.Faults.{fault_of_load, fault_of_translation};
ghost use Rattle.ls_explore.specs.declared.fault.ExploreFault.TheVariants.{Memory};

use ls_machine::LoadFault;
use ls_translation::fault::TranslationFault;
use std::alloc::AllocError;
use thiserror::Error;

/// Why the schedules of an image aren't explored.
#[derive(Clone, Copy, Debug, Error, PartialEq, Eq)]
pub enum ExploreFault {
    #[error("out of memory")]
    Memory,
    /// No cells, more than 4,194,304, or fewer than setup names.
    #[error("bad number of cells")]
    BadCells,
    /// No states, or more than 16,777,216.
    #[error("bad number of states")]
    BadStates,
    /// The setup goes on after 100,000 source steps.
    #[error("the setup has not ended in 100,000 source steps")]
    SetupEndless,
    /// The setup isn't translated to the machine.
    #[error(transparent)]
    Setup(TranslationFault),
}

impl From<AllocError> for ExploreFault {
    ghost from_gives = { λ _ e. e ≡ Memory };

    fn from(_error: AllocError) -> ExploreFault {
        ExploreFault::Memory
    }
}

impl From<LoadFault> for ExploreFault {
    ghost from_gives = { λ fault e. e ≡ fault_of_load fault };

    fn from(fault: LoadFault) -> ExploreFault {
        match fault {
            LoadFault::BadCells => ExploreFault::BadCells,
            LoadFault::Memory => ExploreFault::Memory,
        }
    }
}

impl From<TranslationFault> for ExploreFault {
    ghost from_gives = { λ fault e. e ≡ fault_of_translation fault };

    fn from(fault: TranslationFault) -> ExploreFault {
        match fault {
            TranslationFault::Memory => ExploreFault::Memory,
            TranslationFault::BadCells => ExploreFault::BadCells,
            other => ExploreFault::Setup(other),
        }
    }
}
