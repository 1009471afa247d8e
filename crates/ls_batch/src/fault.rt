// Why a batch isn't run.

ghost use Rattle.std.specs.Prelude.{◌≡◌};
ghost use Rattle.ls_batch.specs.declared.fault.BatchFault.TheVariants.{Memory};

use std::alloc::AllocError;
use thiserror::Error;

/// A refusal of `batch`.
#[derive(Clone, Copy, Debug, Error, PartialEq, Eq)]
pub enum BatchFault {
    #[error("out of memory")]
    Memory,
    /// No cells, more than 4,194,304, or fewer than setup names.
    #[error("bad number of cells")]
    BadCells,
    /// No seeds, more than 100,000, a seed past the greatest `u64`, more than 900,000 steps, or a chance that isn't 1
    /// in 1 to 900,000.
    #[error("bad number of seeds or steps")]
    BadCount,
}

impl From<AllocError> for BatchFault {
    ghost from_gives = { λ _ fault. fault ≡ Memory };

    fn from(_error: AllocError) -> BatchFault {
        BatchFault::Memory
    }
}
