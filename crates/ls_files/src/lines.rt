// Where a byte of an input stands in its files.

ghost use Rattle.std.specs.Prelude.{◌≡◌, ◌+◌, ◌-◌, ◌^◌, ◌<◌, ◌≤◌, ◌∷◌, [], IfNone, IfSome, length};
ghost use Rattle.std.specs.List.{position_or_len};
ghost use Rattle.ls_items.specs.Parts.{lines_of};
ghost use Rattle.ls_files.specs.Files.{ends_file, ends_part, file_line, first_end, is_feed, next_line, part_start};

use std::alloc::AllocError;

/// A line of a file.
#[derive(Copy)]
pub struct FileLine {
    /// The number of the file, from 0.
    pub file: usize,
    /// The number of the line in that file, from 1.
    pub line: usize,
}

impl Clone for FileLine {
    fn clone(&self) -> Result<FileLine, AllocError> {
        Ok(*self)
    }
}

/// How far the first line feed is, or the length of the bytes.
fn feed_of(bytes: &[u8]) -> usize
    ensures within { result ≤ length bytes.now }
    ensures value { result ≡ position_or_len is_feed bytes.now }
{
    let mut end = 0;
    while end < bytes.len() && bytes[end] != b'\n' {
        end += 1;
    }
    end
}

/// The first line and the bytes after its line feed, or none where no line feed is.
fn cut_line(bytes: &[u8]) -> Option<(&[u8], &[u8])>
    ensures some { IfSome result (λ cut. (lines_of bytes.now ≡ cut.0.now ∷ lines_of cut.1.now)
        × (length bytes.now ≡ length cut.0.now + (length cut.1.now + 1))) }
    ensures none { IfNone result (lines_of bytes.now ≡ bytes.now ∷ []) }
{
    let end = feed_of(bytes);
    if end < bytes.len() {
        Some((&bytes[..end], &bytes[end + 1..]))
    } else {
        None
    }
}

/// Whether a line stands between two files.
fn ends_file(line: &[u8]) -> bool
    ensures { result ≡ ends_file line.now }
{
    line == b"%\x1c".as_slice()
}

/// Whether a line stands between two parts.
fn ends_part(line: &[u8]) -> bool
    ensures { result ≡ ends_part line.now }
{
    line == b"%%".as_slice() || ends_file(line)
}

/// The line that comes after one.
fn next_line(here: FileLine, line: &[u8]) -> FileLine
    requires file { here.file < 2 ^ 64 - 1 }
    requires line { here.line < 2 ^ 64 - 1 }
    ensures { result ≡ next_line here line.now }
{
    if ends_file(line) {
        FileLine {
            file: here.file + 1,
            line: 1,
        }
    } else {
        FileLine {
            file: here.file,
            line: here.line + 1,
        }
    }
}

/// The file and the line of a byte. A byte after the end counts as the end.
pub fn file_line(input: &[u8], at: usize) -> FileLine
    ensures { result ≡ file_line input.now at }
{
    let mut here = FileLine { file: 0, line: 1 };
    let mut rest = &input[..at.min(input.len())];
    while let Some((line, after)) = cut_line(rest) {
        here = next_line(here, line);
        rest = after;
    }
    here
}

/// The byte with which the part of a number begins, from 0. If there are fewer parts, it comes after the end.
pub fn part_start(input: &[u8], number: usize) -> usize
    ensures { result ≡ part_start input.now number }
{
    let mut left = number;
    let mut at = 0;
    let mut rest = input;
    while left > 0 {
        let Some((line, after)) = cut_line(rest) else {
            return at + rest.len() + 1;
        };
        if ends_part(line) {
            left -= 1;
        }
        at += line.len() + 1;
        rest = after;
    }
    at
}

/// The byte with which the line begins that ends the first part. If there is one part alone, it comes after the end.
pub fn first_end(input: &[u8]) -> usize
    ensures { result ≡ first_end input.now }
{
    let mut at = 0;
    let mut rest = input;
    while let Some((line, after)) = cut_line(rest) {
        if ends_part(line) {
            return at;
        }
        at += line.len() + 1;
        rest = after;
    }
    if ends_part(rest) {
        return at;
    }
    at + rest.len() + 1
}
