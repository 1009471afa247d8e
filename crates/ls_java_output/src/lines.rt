// The lines of a file's tokens, and how its lines are indented.

ghost use Rattle.std.specs.Prelude.{◌≡◌, IfOk};
ghost use Rattle.ls_java_output.specs.Lines.{ends_before, ends_in, lines_of};

use ls_java_lexer::token::Token;
use std::alloc::{AllocError, Global};

/// The widest white space that is taken for one step of indentation.
const WIDEST_STEP: usize = 8;

/// How many lines end in these bytes.
pub fn feeds(bytes: &[u8]) -> usize
    ensures { result ≡ ends_in bytes.now }
{
    let mut count = 0;
    for byte in bytes {
        if *byte == b'\n' {
            count += 1;
        }
    }
    count
}

/// How many lines end from one byte to another.
pub fn line_ends(text: &str, from: usize, to: usize) -> usize {
    match text.as_bytes().get(from..to) {
        Some(part) => feeds(part),
        None => 0,
    }
}

/// How many lines end before a byte, if so many end before another one.
pub fn ends_upto(text: &str, from: usize, ends: usize, to: usize) -> usize
    requires { ends ≡ ends_before from text.now }
    ensures { result ≡ ends_before to text.now }
{
    let bytes = text.as_bytes();
    let upto = to.min(bytes.len());
    if from <= upto {
        return ends + feeds(&bytes[from..upto]);
    }
    feeds(&bytes[..upto])
}

/// The line of each token of a file, from 1.
pub fn token_lines(alloc: Global, text: &str, tokens: &[Token]) -> Result<Vec<usize>, AllocError>
    ensures { IfOk result (λ lines. lines.items ≡ lines_of text.now tokens.now) }
{
    let mut lines = Vec::new(alloc);
    let mut ends: usize = 0;
    let mut at = 0;
    for token in tokens {
        ends = ends_upto(text, at, ends, token.start);
        at = token.start;
        lines.push(1 + ends)?;
    }
    Ok(lines)
}

/// The column of a byte, from 1.
pub fn column_at(text: &str, at: usize) -> usize {
    match text.as_bytes().get(..at) {
        Some(before) => last_line(before).unwrap_or(before).len().saturating_add(1),
        None => 0,
    }
}

/// The line of the token of this number, or 0 if there is none.
pub fn line_at(lines: &[usize], token: usize) -> usize {
    match lines.get(token) {
        Some(line) => *line,
        None => 0,
    }
}

// Behind the last line that ends in these bytes, if one does.
fn last_line(bytes: &[u8]) -> Option<&[u8]> {
    let mut found = None;
    for (at, b) in bytes.iter().enumerate() {
        if *b == b'\n' {
            found = bytes.get(at + 1..);
        }
    }
    found
}

fn is_white(b: u8) -> bool {
    b == b' ' || b == b'\t' || b == b'\r'
}

/// The bytes between two places, from the last line that ends there on, if they are white space.
pub fn line_white<'a>(text: &'a str, from: usize, to: usize) -> Option<&'a str> {
    let part = text.as_bytes().get(from..to)?;
    let line = last_line(part).unwrap_or(part);
    if !line.iter().all(|b| is_white(*b)) {
        return None;
    }
    text.get(to.saturating_sub(line.len())..to)
}

// The white space of a token's line before it, if that is one step of indentation.
fn step_before<'a>(text: &'a str, token: &Token) -> Option<&'a str> {
    if line_ends(text, token.gap, token.start) == 0 {
        return None;
    }
    let white = line_white(text, token.gap, token.start)?;
    if white.is_empty() || white.len() > WIDEST_STEP {
        return None;
    }
    Some(white)
}

/// One step of indentation: the white space before the first token of the file that stands behind some on its line, or
/// four spaces.
pub fn indentation<'a>(text: &'a str, tokens: &[Token]) -> &'a str {
    for token in tokens {
        if let Some(step) = step_before(text, token) {
            return step;
        }
    }
    "    "
}
