// A Java file as tokens.

ghost use Rattle.ls_java_lexer.specs.Order.{AreInOrder};
ghost use Rattle.std.specs.Prelude.{◌≡◌, ◌<◌, ◌≤◌, ◌++◌, ◌∷◌, [], IfOk, IfSome, OnOk, length};

use crate::fault::JavaFault;
use crate::gaps::gap_end;
use crate::scanning::scan;
use crate::token::{Token, TokenKind};
use std::alloc::{AllocError, Global};

/// The most bytes of a text.
pub const TEXT_LIMIT: usize = 262144;

// One more token at the end.
fn push<'a>(tokens: &mut Vec<Token<'a>>, token: Token<'a>) -> Result<(), AllocError>
    ensures { OnOk result (tokens.new.items ≡ tokens.old.items ++ token.entry ∷ []) }
{
    tokens.push(token)?;
    Ok(())
}

// The token after the gap that begins at byte `at`, or none if the text ends with that gap.
fn token_at<'a>(text: &'a str, at: usize) -> Result<Option<Token<'a>>, JavaFault>
    requires { at ≤ length text.now }
    ensures { IfOk result (λ found. IfSome found (λ t. (t.gap ≡ at) × (at ≤ t.start) × (t.start < t.end) ×
        (t.end ≤ length text.now))) }
{
    let start = gap_end(text.as_bytes(), at)?;
    if start >= text.len() {
        return Ok(None);
    }
    let scanned = scan(text, start)?;
    Ok(Some(Token {
        kind: scanned.kind,
        gap: at,
        start,
        end: scanned.end,
    }))
}

/// The tokens of a text (JLS 3.5), each with the gap before it, and each as long as it can be (JLS 3.2), but for `>`.
/// The last one is `End`, and only that one. Each byte of the text is in the gap of exactly one token or in that token.
/// The text of each name is a slice of `text`.
///
/// Refused with the first place where no gap and no token begins, or if memory runs out, or if the text is too long.
#[tactic(auto, using(crate::proofs::Orders::order_more))]
pub fn lex_java<'a>(alloc: Global, text: &'a str) -> Result<Vec<Token<'a>>, JavaFault>
    ensures { IfOk result (λ tokens. AreInOrder 0 tokens.items (length text.now)) }
{
    if text.len() > TEXT_LIMIT {
        return Err(JavaFault::TooLong);
    }
    let mut tokens = Vec::new(alloc);
    let mut at = 0;
    while at < text.len() {
        let Some(token) = token_at(text, at)? else {
            break;
        };
        at = token.end;
        push(&mut tokens, token)?;
    }
    let last = Token {
        kind: TokenKind::End,
        gap: at,
        start: text.len(),
        end: text.len(),
    };
    push(&mut tokens, last)?;
    Ok(tokens)
}
