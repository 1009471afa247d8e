// Why a text is no order.

ghost use Rattle.std.specs.Prelude.{◌≡◌};
ghost use Rattle.ls_orders.specs.declared.fault.OrderFault.TheVariants.{Memory};

use std::alloc::{AllocError, AllocFailed};
use thiserror::Error;

/// Why a text is no order.
#[derive(Clone, Copy, Debug, Error, PartialEq, Eq)]
pub enum OrderFault {
    #[error("out of memory")]
    Memory,
    /// The item that begins at this byte is no call.
    #[error("no call at byte {at}")]
    BadOrder { at: usize },
}

impl From<AllocError> for OrderFault {
    ghost from_gives = { λ _ e. e ≡ Memory };

    fn from(_error: AllocError) -> OrderFault {
        OrderFault::Memory
    }
}

impl<T: Drop> From<AllocFailed<T>> for OrderFault {
    ghost from_gives = { λ _ e. e ≡ Memory };

    fn from(_error: AllocFailed<T>) -> OrderFault {
        OrderFault::Memory
    }
}
