// Separators and operators.

use std::alloc::AllocError;

/// A separator (JLS 3.11) or an operator (JLS 3.12), used by the grammar or not.
#[derive(Copy, PartialEq, Eq)]
pub enum Sign {
    OpenParen,
    CloseParen,
    OpenBrace,
    CloseBrace,
    OpenBracket,
    CloseBracket,
    Semicolon,
    Comma,
    Dot,
    Ellipsis,
    At,
    ColonColon,
    Assign,
    Greater,
    Less,
    Not,
    Tilde,
    Question,
    Colon,
    Arrow,
    Equal,
    GreaterEqual,
    LessEqual,
    NotEqual,
    And,
    Or,
    Increment,
    Decrement,
    Plus,
    Minus,
    Star,
    Slash,
    BitAnd,
    BitOr,
    Caret,
    Percent,
    ShiftLeft,
    ShiftRight,
    UnsignedShiftRight,
    PlusAssign,
    MinusAssign,
    StarAssign,
    SlashAssign,
    BitAndAssign,
    BitOrAssign,
    CaretAssign,
    PercentAssign,
    ShiftLeftAssign,
    ShiftRightAssign,
    UnsignedShiftRightAssign,
}

impl Clone for Sign {
    fn clone(&self) -> Result<Sign, AllocError> {
        Ok(*self)
    }
}
