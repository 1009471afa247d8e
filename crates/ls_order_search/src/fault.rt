// Why a history gets no verdict.

ghost use Rattle.std.specs.Prelude.{◌≡◌};
ghost use Rattle.ls_order_search.specs.Faults.{lifted_history};
ghost use Rattle.ls_order_search.specs.declared.fault.SearchFault.TheVariants.{Memory};

use ls_report::HistoryFault;
use std::alloc::{AllocError, AllocFailed};
use thiserror::Error;

/// Why a history gets no verdict.
#[derive(Clone, Copy, Debug, Error, PartialEq, Eq)]
pub enum SearchFault {
    #[error("out of memory")]
    Memory,
    /// The line that begins at this byte can't come there.
    #[error("no history at byte {at}")]
    BadHistory { at: usize },
    /// An item has more than 12 trapped calls.
    #[error("an item has more than 12 trapped calls")]
    TooManyTrapped,
}

impl From<AllocError> for SearchFault {
    ghost from_gives = { λ _ e. e ≡ Memory };

    fn from(_error: AllocError) -> SearchFault {
        SearchFault::Memory
    }
}

impl<T: Drop> From<AllocFailed<T>> for SearchFault {
    ghost from_gives = { λ _ e. e ≡ Memory };

    fn from(_error: AllocFailed<T>) -> SearchFault {
        SearchFault::Memory
    }
}

impl From<HistoryFault> for SearchFault {
    ghost from_gives = { λ f e. e ≡ lifted_history f };

    fn from(fault: HistoryFault) -> SearchFault {
        match fault {
            HistoryFault::Memory => SearchFault::Memory,
            HistoryFault::BadHistory { at } => SearchFault::BadHistory { at },
        }
    }
}
