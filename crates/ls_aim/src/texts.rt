// The items of a text with targets.

ghost use Rattle.std.specs.Prelude.{◌≡◌, ◌==◌, ◌&&◌, ◌+◌, ◌<◌, ◌≤◌, codes, drop, length, false, not, if◌then◌else◌};
ghost use Rattle.std.specs.List.{prefix_len};
ghost use Rattle.std.specs.Str.{bytes_eq};
ghost use Rattle.ls_items.specs.Items.{is_gap};
ghost use Rattle.ls_aim.specs.Texts.{group_len, item_len, items, items_of, depth_after, opens_group, word_len};

use ls_items::is_gap;

pub fn opens_group(text: &[u8]) -> bool
    ensures { result ≡ opens_group text.now }
{
    match text {
        [] => false,
        [first, ..] => *first == b'(',
    }
}

// Whether a byte stands between quotes, after one more.
fn quoted_after(quoted: bool, b: u8) -> bool
    ensures { result ≡ (if b == 34 then not quoted else quoted) }
{
    if b == b'"' { !quoted } else { quoted }
}

// Whether a word ends before a byte.
fn ends_word(quoted: bool, b: u8) -> bool
    ensures { result ≡ (is_gap b && not quoted) }
{
    is_gap(b) && !quoted
}

// How many bytes stand before the first gap that is not between double quotes.
fn word_len(text: &[u8]) -> usize
    ensures len { result ≡ word_len false text.now }
    ensures within { result ≤ length text.now }
{
    let mut len = 0;
    let mut quoted = false;
    for b in text {
        if ends_word(quoted, *b) {
            return len;
        }
        quoted = quoted_after(quoted, *b);
        len += 1;
    }
    len
}

// How many parentheses are open after a byte.
fn depth_after(depth: usize, b: u8) -> usize
    requires { depth < usize.MAX }
    ensures value { result ≡ depth_after depth b }
    ensures one_more { result ≤ depth + 1 }
{
    if b == b'(' {
        depth + 1
    } else if b == b')' {
        depth.saturating_sub(1)
    } else {
        depth
    }
}

// Whether a group ends before a byte.
fn ends_group(depth: usize, b: u8) -> bool
    ensures { result ≡ (is_gap b && (depth == 0)) }
{
    is_gap(b) && depth == 0
}

// How many bytes stand before the first gap that is in no parentheses.
fn group_len(text: &[u8]) -> usize
    ensures len { result ≡ group_len 0 text.now }
    ensures within { result ≤ length text.now }
{
    let mut len = 0;
    let mut depth = 0;
    for b in text {
        if ends_group(depth, *b) {
            return len;
        }
        depth = depth_after(depth, *b);
        len += 1;
    }
    len
}

/// How many bytes the item has with which a text begins: none where a gap begins it.
pub fn item_len(text: &[u8]) -> usize
    ensures len { result ≡ item_len text.now }
    ensures within { result ≤ length text.now }
{
    if opens_group(text) {
        group_len(text)
    } else {
        word_len(text)
    }
}

// How many gaps stand first.
fn gap_len(text: &[u8]) -> usize
    ensures len { result ≡ prefix_len is_gap text.now }
    ensures within { result ≤ length text.now }
{
    let mut len = 0;
    for b in text {
        if !is_gap(*b) {
            return len;
        }
        len += 1;
    }
    len
}

fn is_version(item: &[u8]) -> bool
    ensures { result ≡ bytes_eq item.now (codes "@2") }
{
    item == b"@2".as_slice()
}

/// The place from which on the items of a text are read: after a first item `@2`.
pub fn start_of(text: &[u8]) -> usize
    ensures items { items result 0 (drop result text.now) ≡ items_of text.now }
    ensures within { result ≤ length text.now }
{
    let gaps = gap_len(text);
    let rest = text.split_at(gaps).1;
    let len = item_len(rest);
    if is_version(rest.split_at(len).0) {
        gaps + len
    } else {
        gaps
    }
}
