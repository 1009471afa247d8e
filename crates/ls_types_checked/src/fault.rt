// Why a program text is refused.

use std::alloc::{AllocError, AllocFailed};
use thiserror::Error;

/// Why a program text is refused. Places are bytes from the start of the text, from 0.
#[derive(Clone, Copy, Debug, PartialEq, Eq, Error)]
pub enum ProgramFault {
    #[error("memory ran out")]
    Memory,
    /// Tokens that begin no text of a thread program, or a name that is given twice.
    #[error("no thread program at {at}")]
    BadProgram { at: usize },
    /// A class, setup name or method that doesn't exist, or arguments of another number or type.
    #[error("an unknown thing at {at}")]
    UnknownThing { at: usize },
    /// A method that answers neither an int, a boolean nor nothing.
    #[error("a method that answers a reference at {at}")]
    ReferenceResult { at: usize },
    /// Too many threads, too many calls of a thread, or too many bytes.
    #[error("a limit of thread programs is passed")]
    ProgramLimit,
}

impl From<AllocError> for ProgramFault {
    ghost use Rattle.std.specs.Prelude.{◌≡◌};
    ghost use Rattle.ls_types_checked.specs.declared.fault.ProgramFault.TheVariants.{Memory};

    ghost from_gives = { λ _ e. e ≡ Memory };

    fn from(_e: AllocError) -> ProgramFault {
        ProgramFault::Memory
    }
}

impl<T: Drop> From<AllocFailed<T>> for ProgramFault {
    ghost use Rattle.std.specs.Prelude.{◌≡◌};
    ghost use Rattle.ls_types_checked.specs.declared.fault.ProgramFault.TheVariants.{Memory};

    ghost from_gives = { λ _ e. e ≡ Memory };

    fn from(_e: AllocFailed<T>) -> ProgramFault {
        ProgramFault::Memory
    }
}
