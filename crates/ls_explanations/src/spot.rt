// The line of a text that has a given byte.

ghost use Rattle.std.specs.Prelude.{◌≡◌};
ghost use Rattle.std.specs.List.{before_first, count_by};
ghost use Rattle.ls_explanations.specs.Spots.{before, begins_character, characters, from_on, is_feed, last_line};
ghost use Rattle.ls_explanations.specs.Spots.{line_number};

/// Whether a byte is the first of its character.
pub(crate) fn begins_character(byte: u8) -> bool
    ensures { result ≡ begins_character byte }
{
    byte < 128 || byte >= 192
}

/// How many characters begin in the bytes.
pub(crate) fn characters(bytes: &[u8]) -> usize
    ensures { result ≡ characters bytes.now }
{
    let mut count = 0;
    for byte in bytes {
        if begins_character(*byte) {
            count += 1;
        }
    }
    count
}

fn feeds(bytes: &[u8]) -> usize
    ensures { result ≡ count_by is_feed bytes.now }
{
    let mut count = 0;
    for byte in bytes {
        if *byte == b'\n' {
            count += 1;
        }
    }
    count
}

/// The text after the last line feed.
fn last_line(bytes: &[u8]) -> &[u8]
    ensures { result.now ≡ last_line bytes.now }
{
    let mut start = bytes.len();
    while start > 0 && bytes[start - 1] != b'\n' {
        start -= 1;
    }
    &bytes[start..]
}

/// The text before the first line feed.
fn first_line(bytes: &[u8]) -> &[u8]
    ensures { result.now ≡ before_first is_feed bytes.now }
{
    let mut end = 0;
    while end < bytes.len() && bytes[end] != b'\n' {
        end += 1;
    }
    &bytes[..end]
}

/// The line and column of a byte of a text.
#[derive(Clone, Copy)]
pub(crate) struct Spot<'t> {
    /// The number of its line, from 1.
    pub line: usize,
    /// The text of that line before the byte.
    pub before: &'t [u8],
    /// The text from the byte on.
    pub from_on: &'t [u8],
}

/// The line and column of a byte. A byte after the end counts as the end.
pub(crate) fn spot_of(text: &[u8], at: usize) -> Spot<'_>
    ensures line { result.line ≡ line_number text.now at }
    ensures before { result.before.now ≡ before text.now at }
    ensures from_on { result.from_on.now ≡ from_on text.now at }
{
    let at = at.min(text.len());
    let (gone, left) = text.split_at(at);
    Spot {
        line: 1 + feeds(gone),
        before: last_line(gone),
        from_on: first_line(left),
    }
}
