// Why a text is no history.

ghost use Rattle.std.specs.Prelude.{◌≡◌};
ghost use Rattle.ls_report.specs.declared.fault.HistoryFault.TheVariants.{Memory};

use std::alloc::{AllocError, AllocFailed};
use thiserror::Error;

/// Why a text is no history.
#[derive(Clone, Copy, Debug, Error, PartialEq, Eq)]
pub enum HistoryFault {
    #[error("out of memory")]
    Memory,
    /// The line that begins at this byte can't come there.
    #[error("no line of a history at byte {at}")]
    BadHistory { at: usize },
}

impl From<AllocError> for HistoryFault {
    ghost from_gives = { λ _ e. e ≡ Memory };

    fn from(_error: AllocError) -> HistoryFault {
        HistoryFault::Memory
    }
}

impl<T: Drop> From<AllocFailed<T>> for HistoryFault {
    ghost from_gives = { λ _ e. e ≡ Memory };

    fn from(_error: AllocFailed<T>) -> HistoryFault {
        HistoryFault::Memory
    }
}
