// In which method a token of a class text stands.

ghost use Rattle.std.specs.Prelude.{◌≡◌, ◌<◌, ◌+◌, ◌≤◌, ◌^◌, option_map};
ghost use Rattle.ls_lexer.specs.Lexemes.{lexeme_of};
ghost use Rattle.ls_race_places.specs.Scopes.{after, by_mark, first_scope, is_class, is_name, moved, name_in};

use crate::marks::{Mark, mark_of};
use ls_lexer::token::TokenKind;
use ls_lexer::word::Word;
use std::marker::Model;

/// Where a token stands.
#[derive(Drop)]
pub struct Scope<'a> {
    /// How many braces are open.
    depth: usize,
    class: &'a str,
    /// The method or constructor, from its first parenthesis on; else nothing.
    member: &'a str,
    /// Whether an `=` came since the last declaration or statement.
    assigned: bool,
    /// Whether a count such as `++n` began in the statement.
    counting: bool,
    /// The token before.
    before: Option<TokenKind<'a>>,
}

impl<'a> Model for Scope<'a> {
    ghost use Rattle.std.specs.Prelude.{option_map};
    ghost use Rattle.ls_lexer.specs.Lexemes.{lexeme_of};
    ghost use Rattle.ls_race_places.specs.Scopes.{Scope as ScopeValue};

    ghost Value = { ScopeValue };

    ghost view = { λ s. record {
      depth = s.depth;
      class = s.class.now;
      member = s.member.now;
      assigned = s.assigned;
      counting = s.counting;
      before = option_map lexeme_of s.before;
    } };
}

/// That of the first token.
pub(crate) fn first_scope<'a>() -> Scope<'a>
    ensures { result ≡ first_scope }
{
    Scope {
        depth: 0,
        class: "",
        member: "",
        assigned: false,
        counting: false,
        before: None,
    }
}

/// The name that a token is; else nothing.
fn name_in<'a>(kind: Option<TokenKind<'a>>) -> &'a str
    ensures { result.now ≡ name_in (option_map lexeme_of kind.entry) }
{
    match kind {
        Some(TokenKind::Name(text)) => text,
        Some(TokenKind::Number(_) | TokenKind::Word(_) | TokenKind::Sign(_)) => "",
        None => "",
    }
}

fn is_name(kind: Option<TokenKind<'_>>) -> bool
    ensures { result ≡ is_name (option_map lexeme_of kind.entry) }
{
    match kind {
        Some(TokenKind::Name(_)) => true,
        Some(TokenKind::Number(_) | TokenKind::Word(_) | TokenKind::Sign(_)) => false,
        None => false,
    }
}

fn is_class(kind: Option<TokenKind<'_>>) -> bool
    ensures { result ≡ is_class (option_map lexeme_of kind.entry) }
{
    match kind {
        Some(TokenKind::Word(Word::Class)) => true,
        _ => false,
    }
}

fn by_mark<'a>(scope: Scope<'a>, mark: Mark) -> Scope<'a>
    requires { scope.depth + 1 < 2 ^ 64 }
    ensures scope { result ≡ by_mark scope.entry mark }
    ensures depth { result.depth ≤ scope.entry.depth + 1 }
{
    let mut after = scope;
    match mark {
        Mark::Opens => {
            after.depth += 1;
            after.assigned = false;
            after.counting = false;
        }
        Mark::Closes => {
            if after.depth <= 2 {
                after.member = "";
            }
            after.depth = after.depth.saturating_sub(1);
            after.assigned = false;
            after.counting = false;
        }
        Mark::Ends => {
            if after.depth <= 1 {
                after.member = "";
            }
            after.assigned = false;
            after.counting = false;
        }
        Mark::Calls => {
            if after.depth == 1 && after.member.is_empty() {
                after.member = name_in(after.before);
            }
        }
        Mark::Called => after.counting = false,
        Mark::Assigns => after.assigned = true,
        Mark::Adds => {}
        Mark::Counts => after.counting = !is_name(after.before),
        Mark::Other => {}
    }
    after
}

fn moved<'a>(scope: Scope<'a>, kind: TokenKind<'a>) -> Scope<'a>
    requires { scope.depth + 1 < 2 ^ 64 }
    ensures scope { result ≡ moved scope.entry (lexeme_of kind.entry) }
    ensures depth { result.depth ≤ scope.entry.depth + 1 }
{
    match kind {
        TokenKind::Name(text) => {
            let mut after = scope;
            if is_class(after.before) {
                after.class = text;
            }
            after
        }
        TokenKind::Number(_) | TokenKind::Word(_) => scope,
        TokenKind::Sign(sign) => by_mark(scope, mark_of(sign)),
    }
}

/// That after a token.
pub(crate) fn after<'a>(scope: Scope<'a>, kind: TokenKind<'a>) -> Scope<'a>
    requires { scope.depth + 1 < 2 ^ 64 }
    ensures scope { result ≡ after scope.entry (lexeme_of kind.entry) }
    ensures depth { result.depth ≤ scope.entry.depth + 1 }
{
    let mut after = moved(scope, kind);
    after.before = Some(kind);
    after
}

impl<'a> Scope<'a> {
    ghost use Rattle.std.specs.Prelude.{◌≡◌};

    pub(crate) fn depth(&self) -> usize
        ensures { result ≡ self.now.depth }
    {
        self.depth
    }

    pub(crate) fn class(&self) -> &'a str
        ensures { result.now ≡ self.now.class }
    {
        self.class
    }

    pub(crate) fn member(&self) -> &'a str
        ensures { result.now ≡ self.now.member }
    {
        self.member
    }

    pub(crate) fn is_assigned(&self) -> bool
        ensures { result ≡ self.now.assigned }
    {
        self.assigned
    }

    pub(crate) fn is_counting(&self) -> bool
        ensures { result ≡ self.now.counting }
    {
        self.counting
    }
}
