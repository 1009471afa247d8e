// A text as tokens.

ghost use Rattle.ls_lexer.specs.Lexemes.{lexemes};
ghost use Rattle.ls_lexer.specs.Pieces.{placed};
ghost use Rattle.ls_lexer.specs.Places.{InOrder, Refused, Splits, text_limit};
ghost use Rattle.ls_lexer.specs.Tokens.{tokens_of};
ghost use Rattle.ls_lexer.specs.declared.fault.TextFault.TheVariants.{TooLong};
ghost use Rattle.std.specs.Prelude.{◌≡◌, ◌<◌, ◌++◌, [], IfErr, IfOk, IsErrOf, OnErr, OnOk, Some, length};

use crate::fault::TextFault;
use crate::scanning::scan;
use crate::token::{Span, Token, TokenKind};
use std::alloc::{AllocError, Global};

/// The most bytes of a text.
pub const TEXT_LIMIT: usize = 262144;

fn push_kind<'a>(
    out: &mut Vec<Token<'a>>,
    kind: Option<TokenKind<'a>>,
    span: Span,
) -> Result<(), AllocError>
    ensures { OnOk result (out.new.items ≡ out.old.items ++ placed kind.entry span) }
{
    if let Some(kind) = kind {
        out.push(Token { kind, span })?;
    }
    Ok(())
}

fn lex_any<'a>(alloc: Global, text: &'a str) -> Result<Vec<Token<'a>>, TextFault>
    ensures read { IfOk result (λ tokens. tokens_of text.now ≡ Some (lexemes tokens.items)) }
    ensures split { IfOk result (λ tokens. Splits text.now (lexemes tokens.items) []) }
    ensures spans { IfOk result (λ tokens. InOrder text.now 0 tokens.items (length text.now)) }
    ensures refused { IfErr result (λ fault. Refused text.now fault) }
{
    let mut out = Vec::new(alloc);
    let mut rest = text;
    let mut at = 0;
    while !rest.is_empty() {
        let (kind, n) = scan(rest, at)?;
        let (_, after) = rest.split_at(n);
        push_kind(
            &mut out,
            kind,
            Span {
                start: at,
                end: at + n,
            },
        )?;
        at += n;
        rest = after;
    }
    Ok(out)
}

/// The tokens of a text (JLS 3.5), each as long as it can be (JLS 3.2). The text of each name and number is a slice of
/// `text`. Gaps, which are white space (JLS 3.6) and comments (JLS 3.7), are left out.
///
/// Refused with `TooLong` exactly if the text has more than 262,144 bytes. Else refused with `BadByte`, `OpenComment`
/// or `BadNumber` at the first place where no gap and no token begins, or if memory runs out. It never answers a fault
/// of the grammar.
pub fn lex<'a>(alloc: Global, text: &'a str) -> Result<Vec<Token<'a>>, TextFault>
    ensures read { IfOk result (λ tokens. tokens_of text.now ≡ Some (lexemes tokens.items)) }
    ensures split { IfOk result (λ tokens. Splits text.now (lexemes tokens.items) []) }
    ensures spans { IfOk result (λ tokens. InOrder text.now 0 tokens.items (length text.now)) }
    ensures long { text_limit < length text.now → IsErrOf result TooLong }
    ensures refused { IfErr result (λ fault. Refused text.now fault) }
{
    if text.len() > TEXT_LIMIT {
        return Err(TextFault::TooLong);
    }
    lex_any(alloc, text)
}
