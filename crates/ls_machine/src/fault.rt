// Why a machine isn't loaded.

use std::alloc::AllocError;
use thiserror::Error;

/// A refusal of `Machine::load`.
#[derive(Clone, Copy, Debug, PartialEq, Eq, Error)]
pub enum LoadFault {
    /// No cells, more than 4,194,304, or fewer than setup names.
    #[error("bad number of cells")]
    BadCells,
    /// Memory ran out.
    #[error("out of memory")]
    Memory,
}

impl From<AllocError> for LoadFault {
    ghost use Rattle.ls_machine.specs.declared.fault.LoadFault.TheVariants.{Memory};
    ghost use Rattle.std.specs.Prelude.{◌≡◌};

    ghost from_gives = { λ _ fault. fault ≡ Memory };

    fn from(_: AllocError) -> LoadFault {
        LoadFault::Memory
    }
}
