// White space and comments, and other runs of bytes. Each function answers where a run ends that begins at `at`.

ghost use Rattle.std.specs.Prelude.{◌<◌, ◌≤◌, IfOk, IfSome, length};

use crate::fault::JavaFault;

fn is_white(b: u8) -> bool {
    b == b' ' || b == b'\t' || b == 12 || b == b'\r' || b == b'\n'
}

fn is_line_end(b: u8) -> bool {
    b == b'\r' || b == b'\n'
}

/// Whether a byte is a letter of ASCII, `_` or `$`.
pub fn is_letter(b: u8) -> bool {
    b.is_ascii_alphabetic() || b == b'_' || b == b'$'
}

/// Whether a byte is a letter, a digit, `_` or `$`.
pub fn is_part(b: u8) -> bool {
    b.is_ascii_digit() || is_letter(b)
}

/// The byte at a place, or 0 after the last one.
pub fn byte_at(bytes: &[u8], at: usize) -> u8
    ensures { 0 < result → at < length bytes.now }
{
    match bytes.get(at) {
        Some(b) => *b,
        None => 0,
    }
}

/// Where the parts of a name end.
pub fn part_end(bytes: &[u8], at: usize) -> usize
    requires { at ≤ length bytes.now }
    ensures { (at ≤ result) × (result ≤ length bytes.now) }
{
    let mut end = at;
    while end < bytes.len() && is_part(bytes[end]) {
        end += 1;
    }
    end
}

// Where a line ends.
fn line_end(bytes: &[u8], at: usize) -> usize
    requires { at ≤ length bytes.now }
    ensures { (at ≤ result) × (result ≤ length bytes.now) }
{
    let mut end = at;
    while end < bytes.len() && !is_line_end(bytes[end]) {
        end += 1;
    }
    end
}

// Behind the `*/` that ends a comment. The comment begins at `start`.
fn comment_end(bytes: &[u8], at: usize, start: usize) -> Result<usize, JavaFault>
    ensures { IfOk result (λ end. (at < end) × (end ≤ length bytes.now)) }
{
    let mut end = at;
    while end < bytes.len() {
        if bytes[end] == b'*' && byte_at(bytes, end + 1) == b'/' {
            return Ok(end + 2);
        }
        end += 1;
    }
    Err(JavaFault::OpenComment { at: start })
}

/// Behind the white space or the comment that begins here, or here.
pub fn piece_end(bytes: &[u8], at: usize) -> Result<usize, JavaFault>
    requires { at < length bytes.now }
    ensures { IfOk result (λ end. (at ≤ end) × (end ≤ length bytes.now)) }
{
    let first = bytes[at];
    let second = byte_at(bytes, at + 1);
    if is_white(first) {
        Ok(at + 1)
    } else if first == b'/' && second == b'/' {
        Ok(line_end(bytes, at + 1))
    } else if first == b'/' && second == b'*' {
        comment_end(bytes, at + 2, at)
    } else {
        Ok(at)
    }
}

/// Behind the gap that begins here.
pub fn gap_end(bytes: &[u8], at: usize) -> Result<usize, JavaFault>
    requires { at ≤ length bytes.now }
    ensures { IfOk result (λ end. (at ≤ end) × (end ≤ length bytes.now)) }
{
    let mut end = at;
    while end < bytes.len() {
        let next = piece_end(bytes, end)?;
        if next <= end {
            break;
        }
        end = next;
    }
    Ok(end)
}

/// Behind the `quote` that ends a text or a character whose first byte within is here, or none. A backslash takes the
/// byte after it (JLS 3.10.6).
pub fn quoted_end(bytes: &[u8], at: usize, quote: u8) -> Option<usize>
    ensures { IfSome result (λ end. (at < end) × (end ≤ length bytes.now)) }
{
    let mut end = at;
    while end < bytes.len() && !is_line_end(bytes[end]) {
        if bytes[end] == quote {
            return Some(end + 1);
        }
        if bytes[end] == b'\\' && !is_line_end(byte_at(bytes, end + 1)) {
            end += 1;
        }
        end += 1;
    }
    None
}

/// Where a `\u` stands from `at` up to `end`, if anywhere. A backslash takes the byte after it.
pub fn escape_in(bytes: &[u8], at: usize, end: usize) -> Option<usize> {
    let mut here = at;
    while here < end {
        if byte_at(bytes, here) == b'\\' {
            if byte_at(bytes, here.saturating_add(1)) == b'u' {
                return Some(here);
            }
            here = here.saturating_add(1);
        }
        here = here.saturating_add(1);
    }
    None
}
