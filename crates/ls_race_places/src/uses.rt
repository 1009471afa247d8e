// Where a class text may access a field of a name.

ghost use Rattle.std.specs.Prelude.{◌≡◌, IfOk, Option as OptionValue, map, option_map, string_bytes};
ghost use Rattle.std.specs.List.{count_by};
ghost use Rattle.ls_lexer.specs.Lexemes.{lexeme_of};
ghost use Rattle.ls_race_places.specs.Seen.{use_of};
ghost use Rattle.ls_race_places.specs.Uses.{is_feed, is_named, is_read, is_set, line_of, member_text, new_text};
ghost use Rattle.ls_race_places.specs.Uses.{use_at, use_in, use_of_value, used};

use crate::marks::{Mark, mark_in};
use crate::scopes::Scope;
use ls_lexer::token::{Token, TokenKind};
use std::alloc::{AllocError, Global};

/// A name in a method or constructor, as `S.get` or `new S`, on a line, counted from 1.
#[derive(Drop)]
pub struct Use {
    pub member: String,
    pub line: usize,
    /// Whether it may be read there.
    pub reads: bool,
    /// Whether it may be written there.
    pub writes: bool,
}

fn feeds(bytes: &[u8]) -> usize
    ensures { result ≡ count_by is_feed bytes.now }
{
    let mut count = 0;
    for byte in bytes {
        if *byte == b'\n' {
            count += 1;
        }
    }
    count
}

/// The line of a byte of a text.
fn line_of(text: &str, at: usize) -> usize
    ensures { result ≡ line_of text.now at }
{
    let bytes = text.as_bytes();
    let (gone, _left) = bytes.split_at(at.min(bytes.len()));
    1 + feeds(gone)
}

/// As `new S`.
fn new_text(alloc: Global, class: &str) -> Result<String, AllocError>
    ensures { IfOk result (λ text. string_bytes text ≡ new_text class.now) }
{
    let mut text = String::from_str(alloc, "new ")?;
    text.push_str(class)?;
    Ok(text)
}

/// As `S.get`, or as `new S`.
fn member_text(alloc: Global, class: &str, member: &str) -> Result<String, AllocError>
    ensures { IfOk result (λ text. string_bytes text ≡ member_text class.now member.now) }
{
    if class == member {
        return new_text(alloc, class);
    }
    let mut text = String::from_str(alloc, class)?;
    text.push('.')?;
    text.push_str(member)?;
    Ok(text)
}

fn is_read(next: Mark) -> bool
    ensures { result ≡ is_read next }
{
    match next {
        Mark::Assigns => false,
        _ => true,
    }
}

fn is_set(next: Mark) -> bool
    ensures { result ≡ is_set next }
{
    match next {
        Mark::Assigns | Mark::Adds | Mark::Counts => true,
        _ => false,
    }
}

fn use_in(
    alloc: Global,
    text: &str,
    scope: &Scope<'_>,
    at: usize,
    next: Mark,
) -> Result<Use, AllocError>
    ensures { IfOk result (λ u. use_of u ≡ use_in text.now scope.now at next) }
{
    Ok(Use {
        member: member_text(alloc, scope.class(), scope.member())?,
        line: line_of(text, at),
        reads: is_read(next),
        writes: is_set(next) || scope.is_counting(),
    })
}

fn use_of_value(alloc: Global, text: &str, scope: &Scope<'_>, at: usize) -> Result<Use, AllocError>
    ensures { IfOk result (λ u. use_of u ≡ use_of_value text.now scope.now at) }
{
    Ok(Use {
        member: new_text(alloc, scope.class())?,
        line: line_of(text, at),
        reads: true,
        writes: true,
    })
}

fn used(
    alloc: Global,
    text: &str,
    scope: &Scope<'_>,
    at: usize,
    next: Mark,
) -> Result<Option<Use>, AllocError>
    ensures { IfOk result (λ o. option_map use_of o ≡ used text.now scope.now at next) }
{
    if let Mark::Calls = next {
        return Ok(None);
    }
    if scope.depth() >= 2 {
        return Ok(Some(use_in(alloc, text, scope, at, next)?));
    }
    if scope.depth() == 1 && (scope.is_assigned() || is_set(next)) {
        return Ok(Some(use_of_value(alloc, text, scope, at)?));
    }
    Ok(None)
}

fn is_named(name: &str, kind: TokenKind<'_>) -> bool
    ensures { result ≡ is_named name.now (lexeme_of kind.entry) }
{
    match kind {
        TokenKind::Name(text) => text == name,
        TokenKind::Number(_) | TokenKind::Word(_) | TokenKind::Sign(_) => false,
    }
}

/// The use of a name that a token is, if it is one, before another token.
pub(crate) fn use_at(
    alloc: Global,
    text: &str,
    name: &str,
    scope: &Scope<'_>,
    token: &Token<'_>,
    next: Option<TokenKind<'_>>,
) -> Result<Option<Use>, AllocError>
    ensures { IfOk result (λ o. option_map use_of o ≡
        use_at text.now name.now scope.now token.now (option_map lexeme_of next.entry)) }
{
    if !is_named(name, token.kind) {
        return Ok(None);
    }
    used(alloc, text, scope, token.span.start, mark_in(next))
}
