// The gap or token at the front of a text.

ghost use Rattle.ls_lexer.specs.Lexemes.{lexeme_of};
ghost use Rattle.ls_lexer.specs.Pieces.{IsPieceSlice, maybe_lexeme};
ghost use Rattle.ls_lexer.specs.Places.{IsSlice, fault_at};
ghost use Rattle.ls_lexer.specs.Tokens.{begins, comment_at, piece_at, word_of};
ghost use Rattle.ls_lexer.specs.declared.fault.TextFault.TheVariants.{OpenComment};
ghost use Rattle.std.specs.Prelude.{
  ◌≡◌,
  ◌<◌,
  ◌+◌,
  ◌^◌,
  IfErr,
  IfOk,
  None,
  Some,
  length,
  take,
};
ghost use Rattle.std.specs.Str.{IsCharBoundary};

use crate::characters::{is_digit, is_letter, is_white};
use crate::fault::TextFault;
use crate::longest_sign::sign_at;
use crate::numbers::is_number;
use crate::reserved::reserved_word;
use crate::runs::{comment_run, line_run, part_run};
use crate::token::TokenKind;

fn word_of<'a>(text: &'a str) -> TokenKind<'a>
    ensures read { lexeme_of result ≡ word_of text.now }
    ensures slice { IsSlice text.now result }
{
    match reserved_word(text.as_bytes()) {
        Some(word) => TokenKind::Word(word),
        None => TokenKind::Name(text),
    }
}

fn begins(bytes: &[u8], wanted: u8) -> bool
    ensures { result ≡ begins wanted bytes.now }
{
    match bytes.split_first() {
        Some((first, _)) => *first == wanted,
        None => false,
    }
}

// A comment. `rest` are the bytes after its first byte.
fn comment_piece(rest: &[u8], at: usize) -> Result<usize, TextFault>
    requires { length rest.now + 1 < 2 ^ 64 }
    ensures fault { IfErr result (λ e. (e ≡ OpenComment at) × (comment_at rest.now ≡ None)) }
    ensures read { IfOk result (λ n. comment_at rest.now ≡ Some (maybe_lexeme None, n)) }
{
    match rest.split_first() {
        Some((_, body)) => match comment_run(body) {
            Some(n) => Ok(n + 2),
            None => Err(TextFault::OpenComment { at }),
        },
        None => Err(TextFault::OpenComment { at }),
    }
}

/// The kind of the token at the front of a text, or `None` for a gap, and its number of bytes. The text begins at byte
/// `at`, and a fault has that place.
#[tactic(auto, using(crate::proofs::Cuts::cut_white, crate::proofs::Cuts::cut_run))]
pub fn scan<'a>(text: &'a str, at: usize) -> Result<(Option<TokenKind<'a>>, usize), TextFault>
    ensures read { IfOk result (λ p. piece_at text.now ≡ Some (maybe_lexeme p.0, p.1)) }
    ensures boundary { IfOk result (λ p. (0 < p.1) × IsCharBoundary text.now p.1) }
    ensures slice { IfOk result (λ p. IsPieceSlice (take p.1 text.now) p.0) }
    ensures fault { IfErr result (λ e. (e ≡ fault_at at text.now) × (piece_at text.now ≡ None)) }
{
    let bytes = text.as_bytes();
    let Some((first, rest)) = bytes.split_first() else {
        return Err(TextFault::BadByte { at });
    };
    if is_white(*first) {
        Ok((None, 1))
    } else if *first == b'/' && begins(rest, b'/') {
        Ok((None, line_run(rest) + 1))
    } else if *first == b'/' && begins(rest, b'*') {
        let n = comment_piece(rest, at)?;
        Ok((None, n))
    } else if is_digit(*first) {
        let (token, _) = text.split_at(part_run(bytes));
        if is_number(token.as_bytes()) {
            Ok((Some(TokenKind::Number(token)), part_run(bytes)))
        } else {
            Err(TextFault::BadNumber { at })
        }
    } else if is_letter(*first) {
        let (token, _) = text.split_at(part_run(bytes));
        Ok((Some(word_of(token)), part_run(bytes)))
    } else {
        match sign_at(*first, rest) {
            Some((sign, n)) => Ok((Some(TokenKind::Sign(sign)), n)),
            None => Err(TextFault::BadByte { at }),
        }
    }
}
