// What the tokens of a file are.

use ls_java_lexer::token::{Token, TokenKind};
use ls_lexer::sign::Sign;
use ls_lexer::word::Word;
use std::alloc::{AllocError, Global};

/// What a token is. The text of a name is among the words.
#[derive(Clone, Copy, PartialEq, Eq)]
pub enum Shape {
    Name,
    Word(Word),
    Sign(Sign),
    Other,
}

// What a kind of tokens is.
fn shape_of(kind: TokenKind) -> Shape {
    match kind {
        TokenKind::Name(_) => Shape::Name,
        TokenKind::Word(word) => Shape::Word(word),
        TokenKind::Sign(sign) => Shape::Sign(sign),
        _ => Shape::Other,
    }
}

/// What the tokens of a file are.
pub fn shapes_of(alloc: Global, tokens: &[Token]) -> Result<Vec<Shape>, AllocError> {
    let mut shapes = Vec::new(alloc);
    for token in tokens {
        shapes.push(shape_of(token.kind))?;
    }
    Ok(shapes)
}
