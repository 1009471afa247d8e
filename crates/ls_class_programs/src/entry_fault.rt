// Why an entry of a menu is refused.

ghost use Rattle.std.specs.Prelude.{◌≡◌};
ghost use Rattle.ls_class_programs.specs.declared.entry_fault.EntryFault.TheVariants.{Memory};

use ls_compiler::fault::CompileFault;
use std::alloc::AllocError;
use thiserror::Error;

/// Why an entry of a menu is refused.
#[derive(Clone, Copy, Debug, Error, PartialEq, Eq)]
pub enum EntryFault {
    #[error("out of memory")]
    Memory,
    /// The entry whose line begins at this byte isn't calls of the class.
    #[error("the entry at {at} isn't calls of the class")]
    NotCalls { at: usize },
    /// The class text isn't compiled.
    #[error(transparent)]
    NotCompiled(CompileFault),
}

impl From<AllocError> for EntryFault {
    ghost from_gives = { λ _ fault. fault ≡ Memory };

    fn from(_error: AllocError) -> EntryFault {
        EntryFault::Memory
    }
}
