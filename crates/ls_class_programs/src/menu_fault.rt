// Why there is no menu.

ghost use Rattle.std.specs.Prelude.{◌≡◌};
ghost use Rattle.ls_class_programs.specs.declared.menu_fault.MenuFault.TheVariants.{Memory};

use std::alloc::{AllocError, AllocFailed};
use thiserror::Error;

/// Why there is no menu.
#[derive(Clone, Copy, Debug, Error, PartialEq, Eq)]
pub enum MenuFault {
    #[error("out of memory")]
    Memory,
    /// A method or constructor has more than 1,000 lists of arguments.
    #[error("too many arguments")]
    TooMany,
}

impl From<AllocError> for MenuFault {
    ghost from_gives = { λ _ fault. fault ≡ Memory };

    fn from(_error: AllocError) -> MenuFault {
        MenuFault::Memory
    }
}

impl<T: Drop> From<AllocFailed<T>> for MenuFault {
    ghost from_gives = { λ _ fault. fault ≡ Memory };

    fn from(_error: AllocFailed<T>) -> MenuFault {
        MenuFault::Memory
    }
}
