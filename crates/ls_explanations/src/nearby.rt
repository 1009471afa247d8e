// What stands beside a place of a thread program: its tokens, as far as the form of a program tells them apart.

ghost use Rattle.std.specs.Prelude.{◌≡◌, drop};
ghost use Rattle.ls_lexer.specs.Lexemes.{lexeme_of, lexemes};
ghost use Rattle.ls_explanations.specs.Around.{ahead_of, front, is_close, near_of, near_sign, near_word};
ghost use Rattle.ls_explanations.specs.Around.{no_tokens, passed, stepped};

use ls_lexer::sign::Sign;
use ls_lexer::token::{Token, TokenKind};
use ls_lexer::word::Word;
use std::alloc::AllocError;

/// A token beside a place, or that there is none.
#[derive(Copy)]
pub(crate) enum Near {
    Nothing,
    Name,
    /// A number, `true` or `false`.
    Value,
    New,
    /// `int`, or another type of Java that is a word.
    Type,
    Final,
    /// A word with which a statement begins that is no call.
    Statement,
    /// A word with which a class or a member begins.
    Class,
    /// Another reserved word.
    Word,
    OpenBrace,
    CloseBrace,
    OpenParen,
    CloseParen,
    Semicolon,
    Comma,
    Dot,
    Assign,
    Less,
    Minus,
    /// Another sign.
    Sign,
}

impl Clone for Near {
    fn clone(&self) -> Result<Near, AllocError> {
        Ok(*self)
    }
}

fn near_word(word: Word) -> Near
    ensures { result ≡ near_word word }
{
    match word {
        Word::True | Word::False => Near::Value,
        Word::New => Near::New,
        Word::Int | Word::Boolean | Word::Long | Word::Short | Word::Byte => Near::Type,
        Word::Char | Word::Float | Word::Double => Near::Type,
        Word::Final => Near::Final,
        Word::If | Word::Else | Word::For | Word::While | Word::Do | Word::Switch =>
            Near::Statement,
        Word::Try | Word::Return | Word::Throw | Word::Synchronized => Near::Statement,
        Word::Class | Word::Interface | Word::Enum | Word::Abstract => Near::Class,
        Word::Import | Word::Package | Word::Public => Near::Class,
        _ => Near::Word,
    }
}

fn near_sign(sign: Sign) -> Near
    ensures { result ≡ near_sign sign }
{
    match sign {
        Sign::OpenBrace => Near::OpenBrace,
        Sign::CloseBrace => Near::CloseBrace,
        Sign::OpenParen => Near::OpenParen,
        Sign::CloseParen => Near::CloseParen,
        Sign::Semicolon => Near::Semicolon,
        Sign::Comma => Near::Comma,
        Sign::Dot => Near::Dot,
        Sign::Assign => Near::Assign,
        Sign::Less => Near::Less,
        Sign::Minus => Near::Minus,
        _ => Near::Sign,
    }
}

fn near_of(kind: TokenKind<'_>) -> Near
    ensures { result ≡ near_of (lexeme_of kind.entry) }
{
    match kind {
        TokenKind::Name(_) => Near::Name,
        TokenKind::Number(_) => Near::Value,
        TokenKind::Word(word) => near_word(word),
        TokenKind::Sign(sign) => near_sign(sign),
    }
}

fn is_close(near: Near) -> bool
    ensures { result ≡ is_close near }
{
    match near {
        Near::CloseBrace => true,
        _ => false,
    }
}

/// What stands before a place.
#[derive(Clone, Copy)]
pub(crate) struct Before {
    /// The token before the last one.
    pub second: Near,
    pub last: Near,
    /// Whether a block has ended, so that the setup has.
    pub is_closed: bool,
}

/// What stands before the next place, after one more token.
fn stepped(before: Before, near: Near) -> Before
    ensures { result ≡ stepped before near }
{
    Before {
        second: before.last,
        last: near,
        is_closed: before.is_closed || is_close(near),
    }
}

/// What stands before the end of these tokens.
pub(crate) fn before_end(tokens: &[Token<'_>]) -> Before
    ensures { result ≡ passed no_tokens (lexemes tokens.now) }
{
    let mut before = Before {
        second: Near::Nothing,
        last: Near::Nothing,
        is_closed: false,
    };
    for token in tokens {
        before = stepped(before, near_of(token.kind));
    }
    before
}

/// The first token.
fn front(tokens: &[Token<'_>]) -> Near
    ensures { result ≡ front (lexemes tokens.now) }
{
    match tokens {
        [] => Near::Nothing,
        [token, ..] => near_of(token.kind),
    }
}

/// The tokens after the first one.
fn rest<'s, 't>(tokens: &'s [Token<'t>]) -> &'s [Token<'t>]
    ensures { lexemes result.now ≡ drop 1 (lexemes tokens.entry.now) }
{
    match tokens {
        [] => tokens,
        [_, rest @ ..] => rest,
    }
}

/// What stands from a place on.
#[derive(Clone, Copy)]
pub(crate) struct Ahead {
    pub here: Near,
    pub next: Near,
    /// The token after the next one.
    pub later: Near,
}

/// The first three of these tokens.
pub(crate) fn ahead_of(tokens: &[Token<'_>]) -> Ahead
    ensures { result ≡ ahead_of (lexemes tokens.now) }
{
    let after = rest(tokens);
    Ahead {
        here: front(tokens),
        next: front(after),
        later: front(rest(after)),
    }
}
