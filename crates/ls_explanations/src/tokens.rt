// The text around a place.

ghost use Rattle.std.specs.Prelude.{◌≡◌, ◌≤◌, ◌-◌, ◌||◌, drop, length, take};
ghost use Rattle.std.specs.List.{before_first, suffix_len};
ghost use Rattle.std.specs.Str.{bytes_eq};
ghost use Rattle.ls_lexer.specs.Characters.{is_part, is_white};
ghost use Rattle.ls_explanations.specs.Tokens.{byte_at, called_name, front_name, last_byte, last_name};
ghost use Rattle.ls_explanations.specs.Tokens.{opens};

use ls_lexer::characters::{is_part, is_white};

/// The name, word or number at the front.
pub(crate) fn front_name(text: &[u8]) -> &[u8]
    ensures { result.now ≡ front_name text.now }
{
    let mut end = 0;
    while end < text.len() && is_part(text[end]) {
        end += 1;
    }
    &text[..end]
}

/// Where the white space at the end of a text begins, in bytes.
pub(crate) fn end_of(text: &[u8]) -> usize
    ensures within { result ≤ length text.now }
    ensures value { result ≡ length text.now - suffix_len is_white text.now }
{
    let mut end = text.len();
    while end > 0 && is_white(text[end - 1]) {
        end -= 1;
    }
    end
}

/// The name, word or number at the end.
pub(crate) fn last_name(text: &[u8]) -> &[u8]
    ensures { result.now ≡ last_name text.now }
{
    let mut start = text.len();
    while start > 0 && is_part(text[start - 1]) {
        start -= 1;
    }
    &text[start..]
}

/// The text before the first parenthesis that opens.
fn before_opening(text: &[u8]) -> &[u8]
    ensures { result.now ≡ before_first opens text.now }
{
    let mut end = 0;
    while end < text.len() && text[end] != b'(' {
        end += 1;
    }
    &text[..end]
}

/// The name of the method that a call begins with.
pub(crate) fn called_name(text: &[u8]) -> &[u8]
    ensures { result.now ≡ called_name text.now }
{
    last_name(before_opening(text))
}

/// Whether a name is this word.
pub(crate) fn is_word(name: &[u8], word: &[u8]) -> bool
    ensures { result ≡ bytes_eq name.now word.now }
{
    name == word
}

/// Whether a name is one of these words.
pub(crate) fn is_either(name: &[u8], word: &[u8], other: &[u8]) -> bool
    ensures { result ≡ (bytes_eq name.now word.now || bytes_eq name.now other.now) }
{
    name == word || name == other
}

/// A byte of a text, or 0 if there is none.
pub fn byte_at(text: &[u8], at: usize) -> u8
    ensures { result ≡ byte_at text.now at }
{
    match text.get(at) {
        Some(byte) => *byte,
        None => 0,
    }
}

pub(crate) fn last_byte(text: &[u8]) -> u8
    ensures { result ≡ last_byte text.now }
{
    byte_at(text, text.len().saturating_sub(1))
}

/// The text before a place, and the text from it on.
#[derive(Clone, Copy)]
pub(crate) struct Cut<'t> {
    pub gone: &'t [u8],
    pub left: &'t [u8],
}

/// Cuts a text at a place. A place after the end counts as the end.
pub(crate) fn cut_at(text: &[u8], at: usize) -> Cut<'_>
    ensures gone { result.gone.now ≡ take at text.now }
    ensures left { result.left.now ≡ drop at text.now }
{
    let (gone, left) = text.split_at(at.min(text.len()));
    Cut { gone, left }
}
