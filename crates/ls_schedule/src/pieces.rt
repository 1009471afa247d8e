// The words and parentheses of a schedule text.

ghost use Rattle.ls_items.specs.Items.{is_gap};
ghost use Rattle.ls_schedule.specs.Passing.{begins_group, capped_times, times_here, word_len};
ghost use Rattle.ls_schedule.specs.Pieces.{ends_word, pieces, second_version};
ghost use Rattle.ls_schedule.specs.Reading.{times_of};
ghost use Rattle.std.specs.List.{prefix_len};
ghost use Rattle.std.specs.Prelude.{
  ◌≡◌,
  ◌∷◌,
  ◌≤◌,
  ◌==◌,
  ◌&&◌,
  codes,
  drop,
  length,
  not,
  option_map,
  IfSome,
};
ghost use Rattle.std.specs.Str.{bytes_eq};

use crate::reading::count;
use ls_items::is_gap;

pub fn ends_word(b: u8) -> bool
    ensures { result ≡ ends_word b }
{
    is_gap(b) || b == b'(' || b == b')'
}

// How many bytes stand before the first that ends a word.
pub fn word_len(text: &[u8]) -> usize
    ensures len { result ≡ word_len text.now }
    ensures within { result ≤ length text.now }
{
    let mut len = 0;
    for b in text {
        if ends_word(*b) {
            return len;
        }
        len += 1;
    }
    len
}

// How many gaps stand first.
fn gap_len(text: &[u8]) -> usize
    ensures len { result ≡ prefix_len is_gap text.now }
    ensures within { result ≤ length text.now }
{
    let mut len = 0;
    for b in text {
        if !is_gap(*b) {
            return len;
        }
        len += 1;
    }
    len
}

// Whether a group begins here.
pub fn begins_group(text: &[u8]) -> bool
    ensures { result ≡ begins_group text.now }
{
    match text {
        [] => false,
        [first, ..] => *first == b'(',
    }
}

// How often a group goes whose closing parenthesis this word follows.
fn times_of(after: &[u8]) -> Option<u64>
    ensures { result ≡ capped_times (times_of after.now) }
{
    match after {
        [] => Some(1),
        [first, digits @ ..] => times_by_star(*first, digits),
    }
}

fn times_by_star(first: u8, digits: &[u8]) -> Option<u64>
    ensures { result ≡ capped_times (times_of (first ∷ digits.now)) }
{
    if first == b'*' { count(digits) } else { None }
}

// How often a group goes whose closing parenthesis this text follows, where it has the form of a group.
pub fn times_here(text: &[u8]) -> Option<u64>
    ensures { result ≡ capped_times (times_here text.now) }
{
    let (after, next) = text.split_at(word_len(text));
    if begins_group(next) {
        None
    } else {
        times_of(after)
    }
}

fn is_version(word: &[u8], next: &[u8]) -> bool
    ensures { result ≡ (bytes_eq word.now (codes "@2") && not (begins_group next.now)) }
{
    word == b"@2".as_slice() && !begins_group(next)
}

// The place after the first item of a text, where that is `@2`.
pub fn after_version(text: &[u8]) -> Option<usize>
    ensures version { option_map (λ n. pieces n (drop n text.now)) result ≡ second_version (pieces 0 text.now) }
    ensures within { IfSome result (λ n. n ≤ length text.now) }
{
    let gaps = gap_len(text);
    let rest = text.split_at(gaps).1;
    let len = word_len(rest);
    let (word, next) = rest.split_at(len);
    if is_version(word, next) {
        Some(gaps + len)
    } else {
        None
    }
}
