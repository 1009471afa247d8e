// Looking ahead: where brackets close, and whether tokens are a type. Nothing is read, and no tree is made. Each
// function takes tokens and the number of one of them.

ghost use Rattle.std.specs.Prelude.{◌<◌, ◌≤◌, IfSome, length};

use crate::reader::{Reader, is_name, is_sign, is_word, peek, peek_at, place};
use ls_java_lexer::token::{Token, TokenKind};
use ls_java_tree::names::Primitive;
use ls_lexer::sign::Sign;
use ls_lexer::word::Word;

/// What the token of this number is.
pub fn kind_at<'a>(tokens: &[Token<'a>], at: usize) -> TokenKind<'a> {
    match tokens.get(at) {
        Some(token) => token.kind,
        None => TokenKind::End,
    }
}

/// The primitive type that a token is, if it is one (JLS 4.2).
pub fn primitive_of(kind: TokenKind) -> Option<Primitive> {
    match kind {
        TokenKind::Word(Word::Boolean) => Some(Primitive::Boolean),
        TokenKind::Word(Word::Byte) => Some(Primitive::Byte),
        TokenKind::Word(Word::Short) => Some(Primitive::Short),
        TokenKind::Word(Word::Int) => Some(Primitive::Int),
        TokenKind::Word(Word::Long) => Some(Primitive::Long),
        TokenKind::Word(Word::Char) => Some(Primitive::Char),
        TokenKind::Word(Word::Float) => Some(Primitive::Float),
        TokenKind::Word(Word::Double) => Some(Primitive::Double),
        _ => None,
    }
}

/// Behind the sign that closes a bracket which opens here, if there is one. Brackets of other kinds aren't counted.
pub fn closed_end(tokens: &[Token], at: usize, open: Sign, close: Sign) -> Option<usize> {
    let mut depth: usize = 0;
    let mut end = at;
    while end < tokens.len() {
        let kind = tokens[end].kind;
        end += 1;
        if is_sign(kind, open) {
            depth = depth.saturating_add(1);
        } else if is_sign(kind, close) {
            depth = depth.saturating_sub(1);
        }
        if depth == 0 {
            return Some(end);
        }
    }
    None
}

// Whether a token may stand in a list of types.
fn is_of_types(kind: TokenKind) -> bool {
    match kind {
        TokenKind::Name(_) => true,
        TokenKind::Word(Word::Extends) => true,
        TokenKind::Word(Word::Super) => true,
        TokenKind::Sign(Sign::Less) => true,
        TokenKind::Sign(Sign::Greater) => true,
        TokenKind::Sign(Sign::Comma) => true,
        TokenKind::Sign(Sign::Dot) => true,
        TokenKind::Sign(Sign::Question) => true,
        TokenKind::Sign(Sign::BitAnd) => true,
        TokenKind::Sign(Sign::OpenBracket) => true,
        TokenKind::Sign(Sign::CloseBracket) => true,
        _ => primitive_of(kind).is_some(),
    }
}

// Behind the `>` that closes the `<` here, if only what may stand in a list of types is between them.
fn list_end(tokens: &[Token], at: usize) -> Option<usize> {
    let end = closed_end(tokens, at, Sign::Less, Sign::Greater)?;
    let mut here = at;
    while here < end {
        if !is_of_types(kind_at(tokens, here)) {
            return None;
        }
        here += 1;
    }
    Some(end)
}

// Behind the pairs of brackets `[]` here.
fn brackets_end(tokens: &[Token], at: usize) -> usize {
    let mut end = at;
    while end < tokens.len()
        && is_sign(tokens[end].kind, Sign::OpenBracket)
        && is_sign(kind_at(tokens, end + 1), Sign::CloseBracket)
    {
        end = end.saturating_add(2);
    }
    end
}

// Behind the parts of the name of a class, with their lists of types.
fn class_end(tokens: &[Token], at: usize) -> Option<usize> {
    let mut end = at;
    while end < tokens.len() && is_name(tokens[end].kind) {
        end += 1;
        if is_sign(kind_at(tokens, end), Sign::Less) {
            end = list_end(tokens, end)?.max(end);
        }
        if !is_sign(kind_at(tokens, end), Sign::Dot) {
            return Some(end);
        }
        if !is_name(kind_at(tokens, end.saturating_add(1))) {
            return Some(end);
        }
        end = end.saturating_add(1);
    }
    None
}

/// Behind the type that begins here, if one does.
pub fn type_end(tokens: &[Token], at: usize) -> Option<usize> {
    let end = if primitive_of(kind_at(tokens, at)).is_some() {
        at.saturating_add(1)
    } else {
        class_end(tokens, at)?
    };
    Some(brackets_end(tokens, end))
}

/// Whether a type and then a name come next, and behind it what may come after the name of a local (JLS 14.4).
pub fn at_locals(reader: &Reader) -> bool {
    let Some(end) = type_end(reader.tokens, place(reader)) else {
        return false;
    };
    if !is_name(kind_at(reader.tokens, end)) {
        return false;
    }
    matches!(
        &kind_at(reader.tokens, end.saturating_add(1)),
        TokenKind::Sign(
            Sign::Assign | Sign::Semicolon | Sign::Comma | Sign::Colon | Sign::OpenBracket
        )
    )
}

/// Whether a lambda comes next (JLS 15.27): `->` comes after a name, or after what is in parentheses.
pub fn at_lambda(reader: &Reader) -> bool {
    match peek(reader) {
        TokenKind::Name(_) => is_sign(peek_at(reader, 1), Sign::Arrow),
        TokenKind::Sign(Sign::OpenParen) => {
            let end = closed_end(
                reader.tokens,
                place(reader),
                Sign::OpenParen,
                Sign::CloseParen,
            );
            match end {
                Some(end) => is_sign(kind_at(reader.tokens, end), Sign::Arrow),
                None => false,
            }
        }
        _ => false,
    }
}

// Whether a token may begin the operand of a cast to a class, which doesn't begin with `+` or `-` (JLS 15.16).
fn begins_operand(kind: TokenKind) -> bool {
    match kind {
        TokenKind::Name(_) => true,
        TokenKind::Number(_) => true,
        TokenKind::Float => true,
        TokenKind::Character => true,
        TokenKind::Text => true,
        TokenKind::Sign(Sign::OpenParen | Sign::Not | Sign::Tilde) => true,
        TokenKind::Word(Word::This | Word::Super | Word::New) => true,
        TokenKind::Word(Word::True | Word::False | Word::Null | Word::Void) => true,
        _ => primitive_of(kind).is_some(),
    }
}

// Behind the types of a cast: one, or several with `&` between them.
fn cast_end(tokens: &[Token], at: usize) -> Option<usize> {
    let mut end = type_end(tokens, at)?;
    let mut seen = at;
    while seen < end && end < tokens.len() && is_sign(tokens[end].kind, Sign::BitAnd) {
        seen = end;
        end = type_end(tokens, end + 1)?;
    }
    Some(end)
}

/// Whether a cast comes next (JLS 15.16). A type in parentheses is one if it is primitive, or if an operand comes that
/// doesn't begin with `+` or `-`.
pub fn at_cast(reader: &Reader) -> bool {
    let inner = place(reader).saturating_add(1);
    if !is_sign(peek(reader), Sign::OpenParen) {
        return false;
    }
    let Some(end) = cast_end(reader.tokens, inner) else {
        return false;
    };
    if !is_sign(kind_at(reader.tokens, end), Sign::CloseParen) {
        return false;
    }
    let primitive = primitive_of(kind_at(reader.tokens, inner)).is_some()
        && end == inner.saturating_add(1);
    primitive || begins_operand(kind_at(reader.tokens, end.saturating_add(1)))
}

/// Whether a type comes next that is no expression, or that `.class` comes after: `int[]::new`, `List<T>::add`,
/// `Outer.Inner.class`.
pub fn at_type_use(reader: &Reader) -> bool {
    let Some(end) = type_end(reader.tokens, place(reader)) else {
        return false;
    };
    let kind = kind_at(reader.tokens, end);
    let class = is_sign(kind, Sign::Dot)
        && is_word(kind_at(reader.tokens, end.saturating_add(1)), Word::Class);
    let last = kind_at(reader.tokens, end.saturating_sub(1));
    class || (is_sign(kind, Sign::ColonColon) && !is_name(last))
}
