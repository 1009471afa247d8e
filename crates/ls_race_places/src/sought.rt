// Where an access may be that one of some methods makes.

ghost use Rattle.std.specs.Prelude.{◌≡◌, ◌++◌, IfOk, OnOk, drop, map, option_map, string_bytes};
ghost use Rattle.std.specs.List.{list_any};
ghost use Rattle.std.specs.Str.{bytes_eq};
ghost use Rattle.ls_lexer.specs.Lexemes.{lexeme_of};
ghost use Rattle.ls_race_places.specs.Scopes.{first_scope};
ghost use Rattle.ls_race_places.specs.Seen.{seen_of, use_of};
ghost use Rattle.ls_race_places.specs.Sought.{Nowhere, first_of, fits, noted, seen_in, seen_text, with_use};

use crate::scopes::{after, first_scope};
use crate::uses::{Use, use_at};
use ls_lexer::token::{Token, TokenKind};
use std::alloc::{AllocError, Global};
use std::fmt::Write;

/// Where an access may be.
#[derive(Drop)]
pub enum Seen {
    Nowhere,
    /// On this line of a method, and on no other.
    OnLine { member: String, line: usize },
    /// On several lines of a method.
    Within { member: String },
    /// In several methods.
    Several,
}

/// What is looked for: reads or writes of a field of this name, which one of these methods makes.
#[derive(Copy)]
pub struct Sought<'a> {
    pub name: &'a str,
    pub methods: &'a [String],
    pub writes: bool,
}

impl<'a> Clone for Sought<'a> {
    fn clone(&self) -> Result<Sought<'a>, AllocError> {
        Ok(*self)
    }
}

/// Whether a text is one of these.
pub(crate) fn is_among(texts: &[String], text: &str) -> bool
    ensures { result ≡ list_any (λ m. bytes_eq m text.now) (map string_bytes texts.now) }
{
    match texts {
        [] => false,
        [one, rest @ ..] => {
            if one.as_str() == text {
                true
            } else {
                is_among(rest, text)
            }
        }
    }
}

fn fits(sought: Sought<'_>, found: &Use) -> bool
    ensures { result ≡ fits (map string_bytes sought.entry.methods.now) sought.entry.writes (use_of found.now) }
{
    let wanted = if sought.writes {
        found.writes
    } else {
        found.reads
    };
    wanted && is_among(sought.methods, found.member.as_str())
}

fn with_use(seen: Seen, found: Use) -> Seen
    ensures { seen_of result ≡ with_use (seen_of seen) (use_of found) }
{
    match seen {
        Seen::Nowhere => Seen::OnLine {
            member: found.member,
            line: found.line,
        },
        Seen::OnLine { member, line } => {
            if member.as_str() != found.member.as_str() {
                return Seen::Several;
            }
            if line == found.line {
                return Seen::OnLine { member, line };
            }
            Seen::Within { member }
        }
        Seen::Within { member } => {
            if member.as_str() != found.member.as_str() {
                return Seen::Several;
            }
            Seen::Within { member }
        }
        Seen::Several => Seen::Several,
    }
}

fn noted(sought: Sought<'_>, seen: Seen, found: Option<Use>) -> Seen
    ensures { seen_of result ≡ noted (map string_bytes sought.entry.methods.now) sought.entry.writes (seen_of seen)
        (option_map use_of found) }
{
    match found {
        None => seen,
        Some(found) => {
            if fits(sought, &found) {
                with_use(seen, found)
            } else {
                seen
            }
        }
    }
}

/// What the token at a place is, if there is one.
fn kind_at<'a>(tokens: &[Token<'a>], at: usize) -> Option<TokenKind<'a>>
    ensures { option_map lexeme_of result ≡ first_of (drop at tokens.now) }
{
    match tokens.get(at) {
        Some(next) => Some(next.kind),
        None => None,
    }
}

/// Where an access may be, by the tokens of a class text. The only refusal is that memory ran out.
pub fn seen_in(
    alloc: Global,
    text: &str,
    tokens: &[Token<'_>],
    sought: Sought<'_>,
) -> Result<Seen, AllocError>
    ensures { IfOk result (λ seen. seen_of seen ≡ seen_in text.now sought.entry.name.now
        (map string_bytes sought.entry.methods.now) sought.entry.writes first_scope Nowhere tokens.now) }
{
    let mut scope = first_scope();
    let mut seen = Seen::Nowhere;
    for at in 0..tokens.len() {
        let token = &tokens[at];
        let found = use_at(
            alloc,
            text,
            sought.name,
            &scope,
            token,
            kind_at(tokens, at + 1),
        )?;
        seen = noted(sought, seen, found);
        scope = after(scope, token.kind);
    }
    Ok(seen)
}

/// Adds where an access is, as ` in S.get, line 8`; where it can't be told, nothing. The only refusal is that memory
/// ran out.
pub fn push_seen(out: &mut String, seen: &Seen) -> Result<(), AllocError>
    ensures { OnOk result (string_bytes out.new ≡ string_bytes out.old ++ seen_text (seen_of seen.now)) }
{
    match seen {
        Seen::Nowhere | Seen::Several => Ok(()),
        Seen::OnLine { member, line } => {
            out.push_str(" in ")?;
            out.push_str(member.as_str())?;
            write!(out, ", line {line}")
        }
        Seen::Within { member } => {
            out.push_str(" in ")?;
            out.push_str(member.as_str())
        }
    }
}
