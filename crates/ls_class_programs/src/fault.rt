// Why a class text has no programs.

ghost use Rattle.std.specs.Prelude.{◌≡◌};
ghost use Rattle.ls_class_programs.specs.Lifted.{fault_of_family, fault_of_menu, fault_of_text};
ghost use Rattle.ls_class_programs.specs.declared.fault.ClassFault.TheVariants.{Memory};

use crate::MenuFault;
use ls_families::FamilyFault;
use ls_lexer::fault::TextFault;
use std::alloc::AllocError;
use thiserror::Error;

/// Why a class text has no programs.
#[derive(Clone, Copy, Debug, Error, PartialEq, Eq)]
pub enum ClassFault {
    #[error("out of memory")]
    Memory,
    /// The text is no class file.
    #[error(transparent)]
    Text(TextFault),
    /// There is no class of the number; or none that no other class names, or several.
    #[error("no class is meant, or several")]
    NotOneClass,
    /// The constructor takes a reference.
    #[error("no object of the class can be made")]
    NoMaking,
    /// Each method is private, takes a reference or answers one; or the menu that is written by hand has no entry.
    #[error("no method can be called")]
    NoCalls,
    /// No integers or more than 9; no threads or more than 4, no calls of a thread or more than 4, or more
    /// than 8 of the setup.
    #[error("bad bounds of programs")]
    BadBounds,
    /// A method or the constructor has more than 1,000 lists of arguments.
    #[error("too many arguments")]
    TooManyCalls,
    /// There are more than 1,000,000 programs.
    #[error("too many programs")]
    TooManyPrograms,
}

impl From<AllocError> for ClassFault {
    ghost from_gives = { λ _ fault. fault ≡ Memory };

    fn from(_error: AllocError) -> ClassFault {
        ClassFault::Memory
    }
}

impl From<TextFault> for ClassFault {
    ghost from_gives = { λ f fault. fault ≡ fault_of_text f };

    fn from(fault: TextFault) -> ClassFault {
        match fault {
            TextFault::Memory => ClassFault::Memory,
            other => ClassFault::Text(other),
        }
    }
}

impl From<MenuFault> for ClassFault {
    ghost from_gives = { λ f fault. fault ≡ fault_of_menu f };

    fn from(fault: MenuFault) -> ClassFault {
        match fault {
            MenuFault::Memory => ClassFault::Memory,
            MenuFault::TooMany => ClassFault::TooManyCalls,
        }
    }
}

impl From<FamilyFault> for ClassFault {
    ghost from_gives = { λ f fault. fault ≡ fault_of_family f };

    fn from(fault: FamilyFault) -> ClassFault {
        match fault {
            FamilyFault::Memory => ClassFault::Memory,
            FamilyFault::NoCalls => ClassFault::NoCalls,
            FamilyFault::BadBounds => ClassFault::BadBounds,
            FamilyFault::TooMany => ClassFault::TooManyPrograms,
        }
    }
}
