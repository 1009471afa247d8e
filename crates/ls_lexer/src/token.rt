// Tokens, with the slice of the source that spells a name or a number.

use crate::sign::Sign;
use crate::word::Word;

/// A place in a text: from byte `start` up to byte `end`, counted from 0.
#[derive(Clone, Copy, Debug, PartialEq, Eq)]
pub struct Span {
    pub start: usize,
    pub end: usize,
}

/// What a token is (JLS 3.5). It may be an identifier (JLS 3.8) or a number (JLS 3.10.1), which have their text. Or it
/// is a reserved word, or a separator or operator.
#[derive(Clone, Copy, PartialEq, Eq)]
pub enum TokenKind<'a> {
    Name(&'a str),
    Number(&'a str),
    Word(Word),
    Sign(Sign),
}

/// A token and its place. The text of a name or number is the slice of the source at that place.
#[derive(Clone, Copy)]
pub struct Token<'a> {
    pub kind: TokenKind<'a>,
    pub span: Span,
}
