// The words of a line.

ghost use Rattle.std.specs.Prelude.{◌≡◌, ◌<◌, ◌^◌, [], ℕ, Some};
ghost use Rattle.std.specs.Fmt.{decimal};
ghost use Rattle.ls_find_reports.specs.Words.{after_cut, before_cut, rest_at, word_at};
ghost use Rattle.ls_report.specs.Cut.{cut};

use ls_report::cuts::cut;

/// What stands after the first space, or nothing.
fn after_space(line: &str) -> &str
    ensures { result.now ≡ after_cut (cut 32 line.now) }
{
    match cut(line, ' ') {
        Some((_, rest)) => rest,
        None => "",
    }
}

/// What stands before the first space, or all.
fn before_space(line: &str) -> &str
    ensures { result.now ≡ before_cut line.now (cut 32 line.now) }
{
    match cut(line, ' ') {
        Some((word, _)) => word,
        None => line,
    }
}

/// The word at a place, from 0.
pub(crate) fn word_at(line: &str, place: usize) -> &str
    ensures { result.now ≡ word_at place line.now }
{
    let mut rest = line;
    for _ in 0..place {
        rest = after_space(rest);
    }
    before_space(rest)
}

/// The number that is printed so.
fn number_in(text: &str) -> Option<u64>
    ensures { (n : ℕ) → n < 2 ^ 64 → text.now ≡ decimal n → result ≡ Some n }
{
    text.parse::<u64>().ok()
}

/// The number that the word at a place is. Of another word it is some number.
pub(crate) fn number_at(line: &str, place: usize) -> u64
    ensures { (n : ℕ) → n < 2 ^ 64 → word_at place line.now ≡ decimal n → result ≡ n }
{
    match number_in(word_at(line, place)) {
        Some(number) => number,
        None => 0,
    }
}
