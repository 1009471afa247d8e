// Why a Java file isn't read.

use std::alloc::AllocError;
use thiserror::Error;

/// What would have fitted at a place.
#[derive(Clone, Copy, Debug, Error, PartialEq, Eq)]
pub enum Wanted {
    #[error("`(`")]
    OpenParen,
    #[error("`)`")]
    CloseParen,
    #[error("`{{`")]
    OpenBrace,
    #[error("`}}`")]
    CloseBrace,
    #[error("`[`")]
    OpenBracket,
    #[error("`]`")]
    CloseBracket,
    #[error("`;`")]
    Semicolon,
    #[error("`,`")]
    Comma,
    #[error("`:`")]
    Colon,
    #[error("`->`")]
    Arrow,
    #[error("`::`")]
    ColonColon,
    #[error("`.`")]
    Dot,
    #[error("`<`")]
    Less,
    #[error("`>`")]
    Greater,
    #[error("`@`")]
    At,
    #[error("another token")]
    Token,
    #[error("`while`")]
    While,
    #[error("`class`")]
    Class,
    #[error("`catch` or `finally`")]
    Catch,
    #[error("`case`, `default` or `}}`")]
    Case,
    #[error("a name")]
    Name,
    #[error("a type")]
    Type,
    #[error("an expression")]
    Expression,
    #[error("an assignment, a count, a call or `new`, which are statements (JLS 14.8)")]
    Statement,
    #[error("a variable, a field or an element, to which a value is assigned (JLS 15.26)")]
    Target,
    #[error("`class`, `interface` or `enum`")]
    Declaration,
}

/// A form of Java SE 8 that isn't read.
#[derive(Clone, Copy, Debug, Error, PartialEq, Eq)]
pub enum Form {
    #[error("a class in a method: write it beside the method")]
    LocalClass,
    #[error("`try` with a resource: write `try` and `finally`")]
    Resource,
    #[error("an annotation type: leave it out")]
    AnnotationType,
    #[error("an enum with members or an interface: write a class, or ints")]
    EnumMember,
    #[error("`...`: write an array")]
    Ellipsis,
    #[error("`object.new` or `Outer.super`: write the class beside the other")]
    Qualified,
    #[error("`case` with `->`, which isn't Java SE 8: write `case 1: .. break;`")]
    CaseArrow,
}

/// Why a Java file isn't read. Places are bytes from the start of the text, from 0.
#[derive(Clone, Copy, Debug, Error, PartialEq, Eq)]
pub enum JavaFault {
    /// Memory ran out.
    #[error("out of memory")]
    Memory,
    /// The text has more than 262,144 bytes, which is a limit of this profile.
    #[error("the text is too long")]
    TooLong,
    /// No gap and no token begins with this byte (JLS 3.5).
    #[error("a byte that no token has at {at}")]
    BadByte { at: usize },
    /// A character beyond ASCII that isn't in a comment or a text.
    #[error("a letter that isn't of ASCII at {at}: write ASCII letters")]
    NotAscii { at: usize },
    /// A `\u` escape (JLS 3.3) outside of comments.
    #[error("a `\\u` escape at {at}: write the character itself")]
    UnicodeEscape { at: usize },
    /// A comment that begins with `/*` here doesn't end (JLS 3.7).
    #[error("a comment that doesn't end at {at}")]
    OpenComment { at: usize },
    /// A text that begins here doesn't end on its line (JLS 3.10.5).
    #[error("a text that doesn't end on its line at {at}")]
    OpenText { at: usize },
    /// A character that begins here doesn't end on its line, or it is none (JLS 3.10.4).
    #[error("no character at {at}")]
    BadCharacter { at: usize },
    /// Letters and digits that begin with a digit here and are no number (JLS 3.10.1, 3.10.2).
    #[error("no number at {at}")]
    BadNumber { at: usize },
    /// A number that no `int` and, with `L`, no `long` holds (JLS 3.10.1).
    #[error("a number that is too large at {at}")]
    LargeNumber { at: usize },
    /// With the token here, these tokens begin no file (JLS 19).
    #[error("expected {wanted} at {at}")]
    Expected { at: usize, wanted: Wanted },
    /// A form that this profile doesn't read.
    #[error("not read at {at}: {form}")]
    Unread { at: usize, form: Form },
    /// The tree is over the greatest height, which is a limit of this profile.
    #[error("nested too deeply at {at}")]
    TooDeep { at: usize },
}

impl From<AllocError> for JavaFault {
    ghost use Rattle.ls_java_lexer.specs.declared.fault.JavaFault.TheVariants.{Memory};
    ghost use Rattle.std.specs.Prelude.{◌≡◌};

    ghost from_gives = { λ _ e. e ≡ Memory };

    fn from(_: AllocError) -> JavaFault {
        JavaFault::Memory
    }
}
