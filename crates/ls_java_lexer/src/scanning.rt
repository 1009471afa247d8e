// The token at a place of a text.

ghost use Rattle.std.specs.Prelude.{◌<◌, ◌≤◌, IfOk, length};

use crate::fault::JavaFault;
use crate::gaps::{byte_at, escape_in, is_letter, part_end, quoted_end};
use crate::numbers::{number_end, number_of};
use crate::signs::sign_at;
use crate::token::TokenKind;
use crate::words::reserved_word;

/// What a token is, and where it ends.
#[derive(Clone, Copy)]
pub struct Scanned<'a> {
    pub kind: TokenKind<'a>,
    pub end: usize,
}

fn scan_word<'a>(text: &'a str, at: usize) -> Result<Scanned<'a>, JavaFault>
    requires { at < length text.now }
    ensures { IfOk result (λ s. (at < s.end) × (s.end ≤ length text.now)) }
{
    let end = part_end(text.as_bytes(), at + 1);
    match text.get(at..end) {
        Some(name) => {
            let kind = match reserved_word(name) {
                Some(word) => TokenKind::Word(word),
                None => TokenKind::Name(name),
            };
            Ok(Scanned { kind, end })
        }
        None => Err(JavaFault::BadByte { at }),
    }
}

fn scan_number<'a>(bytes: &[u8], at: usize) -> Result<Scanned<'a>, JavaFault>
    requires { at < length bytes.now }
    ensures { IfOk result (λ s. (at < s.end) × (s.end ≤ length bytes.now)) }
{
    let end = number_end(bytes, at);
    let kind = number_of(&bytes[at..end], at)?;
    Ok(Scanned { kind, end })
}

fn scan_text<'a>(bytes: &[u8], at: usize) -> Result<Scanned<'a>, JavaFault>
    requires { at < length bytes.now }
    ensures { IfOk result (λ s. (at < s.end) × (s.end ≤ length bytes.now)) }
{
    let Some(end) = quoted_end(bytes, at + 1, b'"') else {
        return Err(JavaFault::OpenText { at });
    };
    match escape_in(bytes, at, end) {
        Some(at) => Err(JavaFault::UnicodeEscape { at }),
        None => Ok(Scanned {
            kind: TokenKind::Text,
            end,
        }),
    }
}

fn scan_character<'a>(bytes: &[u8], at: usize) -> Result<Scanned<'a>, JavaFault>
    requires { at < length bytes.now }
    ensures { IfOk result (λ s. (at < s.end) × (s.end ≤ length bytes.now)) }
{
    let Some(end) = quoted_end(bytes, at + 1, b'\'') else {
        return Err(JavaFault::BadCharacter { at });
    };
    if end - at < 3 {
        return Err(JavaFault::BadCharacter { at });
    }
    match escape_in(bytes, at, end) {
        Some(at) => Err(JavaFault::UnicodeEscape { at }),
        None => Ok(Scanned {
            kind: TokenKind::Character,
            end,
        }),
    }
}

fn scan_sign<'a>(bytes: &[u8], at: usize) -> Result<Scanned<'a>, JavaFault>
    requires { at < length bytes.now }
    ensures { IfOk result (λ s. (at < s.end) × (s.end ≤ length bytes.now)) }
{
    match sign_at(&bytes[at..]) {
        Some((sign, size)) => Ok(Scanned {
            kind: TokenKind::Sign(sign),
            end: at + size,
        }),
        None if bytes[at] >= 128 => Err(JavaFault::NotAscii { at }),
        None if bytes[at] == b'\\' && byte_at(bytes, at + 1) == b'u' => {
            Err(JavaFault::UnicodeEscape { at })
        }
        None => Err(JavaFault::BadByte { at }),
    }
}

/// The token that begins at byte `at`, where no gap is, or why none does.
pub fn scan<'a>(text: &'a str, at: usize) -> Result<Scanned<'a>, JavaFault>
    requires { at < length text.now }
    ensures { IfOk result (λ s. (at < s.end) × (s.end ≤ length text.now)) }
{
    let bytes = text.as_bytes();
    let first = bytes[at];
    if is_letter(first) {
        scan_word(text, at)
    } else if first.is_ascii_digit() {
        scan_number(bytes, at)
    } else if first == b'.' && byte_at(bytes, at + 1).is_ascii_digit() {
        scan_number(bytes, at)
    } else if first == b'"' {
        scan_text(bytes, at)
    } else if first == b'\'' {
        scan_character(bytes, at)
    } else {
        scan_sign(bytes, at)
    }
}
