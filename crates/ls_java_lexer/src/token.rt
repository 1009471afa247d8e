// Tokens of a Java file, with their places in bytes.

use ls_lexer::sign::Sign;
use ls_lexer::word::Word;

/// What a token is (JLS 3.5). A name (JLS 3.8) has its text, and a number without point and exponent its value (JLS
/// 3.10.1). Floats, characters and texts (JLS 3.10.2, 3.10.4, 3.10.5) stand in the file at their place. `>` is always a
/// token of its own, so that two of them may close two lists of types. `End` comes once, at the end of the file.
#[derive(Clone, Copy, PartialEq, Eq)]
pub enum TokenKind<'a> {
    Name(&'a str),
    Number(Number),
    Float,
    Character,
    Text,
    Word(Word),
    Sign(Sign),
    End,
}

/// A number without point and exponent (JLS 3.10.1): its value as it is written, whether it ends in `L`, and whether
/// its base is 10. In base 10 the value may be one more than the greatest one, which only a unary minus may stand
/// before.
#[derive(Clone, Copy, PartialEq, Eq)]
pub struct Number {
    pub value: u64,
    pub long: bool,
    pub decimal: bool,
}

/// A token from byte `start` up to byte `end`. The gap before it, which is white space (JLS 3.6) and comments (JLS
/// 3.7), begins at byte `gap`.
#[derive(Clone, Copy)]
pub struct Token<'a> {
    pub kind: TokenKind<'a>,
    pub gap: usize,
    pub start: usize,
    pub end: usize,
}
