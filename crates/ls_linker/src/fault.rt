// Why linking refuses units or a program.

ghost use Rattle.std.specs.Prelude.{◌≡◌};
ghost use Rattle.ls_linker.specs.declared.fault.LinkFault.TheVariants.{Memory};
ghost use Rattle.ls_linker.specs.declared.fault.BuildFault.TheVariants.{Lower, Emit, Link};
ghost use Rattle.ls_linker.specs.Counted.{of_counts};

use crate::count_fault::CountFault;
use ls_emit::fault::EmitFault;
use ls_lowered::fault::LowerFault;
use std::alloc::AllocError;
use thiserror::Error;

/// Why linking refuses units or a program.
#[derive(Clone, Copy, Debug, Error, PartialEq, Eq)]
pub enum LinkFault {
    #[error("out of memory")]
    Memory,
    /// The whole code has over 65,536 instructions.
    #[error("too long a code")]
    CodeTooLong,
}

impl From<AllocError> for LinkFault {
    ghost from_gives = { λ _ e. e ≡ Memory };

    fn from(_error: AllocError) -> LinkFault {
        LinkFault::Memory
    }
}

/// Why no code is built of a checked file and a thread program.
#[derive(Clone, Copy, Debug, Error, PartialEq, Eq)]
pub enum BuildFault {
    #[error("a method with too many locals or copies")]
    Lower(LowerFault),
    #[error("a method with too long a code")]
    Emit(EmitFault),
    #[error("too long a code")]
    Link(LinkFault),
}

impl From<LowerFault> for BuildFault {
    ghost from_gives = { λ f e. e ≡ Lower f };

    fn from(fault: LowerFault) -> BuildFault {
        BuildFault::Lower(fault)
    }
}

impl From<CountFault> for BuildFault {
    ghost from_gives = { λ f e. e ≡ of_counts f };

    fn from(fault: CountFault) -> BuildFault {
        match fault {
            CountFault::Memory => BuildFault::Lower(LowerFault::Memory),
            CountFault::TooManyCopies => BuildFault::Lower(LowerFault::TooManyCopies),
            CountFault::TooLong => BuildFault::Emit(EmitFault::CodeTooLong),
            CountFault::TooLongTogether => BuildFault::Link(LinkFault::CodeTooLong),
        }
    }
}

impl From<EmitFault> for BuildFault {
    ghost from_gives = { λ f e. e ≡ Emit f };

    fn from(fault: EmitFault) -> BuildFault {
        BuildFault::Emit(fault)
    }
}

impl From<LinkFault> for BuildFault {
    ghost from_gives = { λ f e. e ≡ Link f };

    fn from(fault: LinkFault) -> BuildFault {
        BuildFault::Link(fault)
    }
}
