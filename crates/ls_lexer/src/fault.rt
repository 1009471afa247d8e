// Why a text is refused.

use std::alloc::AllocError;
use thiserror::Error;

/// Why a class text or a program text is refused. Places are bytes from the start of the text, from 0.
#[derive(Clone, Copy, Debug, Error, PartialEq, Eq)]
pub enum TextFault {
    /// Memory ran out.
    #[error("out of memory")]
    Memory,
    /// The text has more than 262,144 bytes, which is a limit of this profile.
    #[error("the text is too long")]
    TooLong,
    /// No gap and no token begins with this byte (JLS 3.5). Characters beyond ASCII may be in comments only.
    #[error("a byte that no token has at {at}")]
    BadByte { at: usize },
    /// A comment that begins with `/*` here doesn't end (JLS 3.7).
    #[error("a comment that doesn't end at {at}")]
    OpenComment { at: usize },
    /// Letters and digits that begin with a digit here and are no decimal number of at most 2147483648 (JLS 3.10.1).
    /// Other bases, underscores, suffixes and floating point aren't in this profile. From the parser: 2147483648 that
    /// isn't directly after a unary minus.
    #[error("no number of the language at {at}")]
    BadNumber { at: usize },
    /// With the token here, these tokens begin no text of the grammar (JLS 19, as far as this profile goes). Only the
    /// parser answers this.
    #[error("no text of the grammar at {at}")]
    Syntax { at: usize },
    /// The tree is over the greatest height, 128 nodes, which is a limit of this profile. Only the parser answers this.
    #[error("nested too deeply at {at}")]
    TooDeep { at: usize },
}

impl From<AllocError> for TextFault {
    ghost use Rattle.ls_lexer.specs.declared.fault.TextFault.TheVariants.{Memory};
    ghost use Rattle.std.specs.Prelude.{◌≡◌};

    ghost from_gives = { λ _ e. e ≡ Memory };

    fn from(_: AllocError) -> TextFault {
        TextFault::Memory
    }
}
