// The line in front of a history.

ghost use Rattle.std.specs.Prelude.{◌≡◌, ◌↔◌, ◌<◌, ◌^◌, ℕ, Some, IfOk, IfSome, IsTrue, OnOk, option_map, string_bytes};
ghost use Rattle.std.specs.Fmt.{decimal};
ghost use Rattle.ls_tallies.specs.Heads.{fields_of, head_line};

use ls_report::cuts::cut;
use std::alloc::AllocError;
use std::fmt::Write;

/// The number that is printed so.
fn number_in(text: &str) -> Option<u64>
    ensures { (n : ℕ) → n < 2 ^ 64 → text.now ≡ decimal n → result ≡ Some n }
{
    text.parse::<u64>().ok()
}

/// The texts of the seed and the count: the second word and the last.
fn fields_in(line: &str) -> Option<(&str, &str)>
    ensures { option_map (λ p. (p.0.now, p.1.now)) result ≡ fields_of line.now }
{
    let (_, rest) = cut(line, ' ')?;
    let (seed, rest) = cut(rest, ' ')?;
    let (_, count) = cut(rest, ' ')?;
    Some((seed, count))
}

/// The seed and the count whose line it is. Another line may give two numbers too.
fn numbers_in(line: &str) -> Option<(u64, u64)>
    ensures { (s n : ℕ) → s < 2 ^ 64 → n < 2 ^ 64 → line.now ≡ head_line s n → result ≡ Some (s, n) }
{
    let Some((first, second)) = fields_in(line) else {
        return None;
    };
    let Some(seed) = number_in(first) else {
        return None;
    };
    let Some(count) = number_in(second) else {
        return None;
    };
    Some((seed, count))
}

/// Puts the line of the seed and the count in the place of the text that it borrows.
fn put_head(printed: &mut String, seed: u64, count: u64) -> Result<(), AllocError>
    ensures line { OnOk result (string_bytes printed.new ≡ head_line seed count) }
    ensures fits { (seed < 2 ^ 64) × (count < 2 ^ 64) }
{
    printed.clear();
    write!(printed, "seed {seed} count {count}")
}

/// Whether the line is the one that is printed, of a count of at least 1.
fn is_head(printed: &str, count: u64, line: &str) -> bool
    ensures { IsTrue result ↔ ((0 < count) × (line.now ≡ printed.now)) }
{
    count > 0 && line == printed
}

/// The seed and the count whose line it is, if there is one: a count is at least 1. The borrowed text is used to
/// print in.
pub(crate) fn head_in(printed: &mut String, line: &str) -> Result<Option<(u64, u64)>, AllocError>
    ensures is { IfOk result
        (λ o. IfSome o (λ p. (p.0 < 2 ^ 64) × (0 < p.1) × (p.1 < 2 ^ 64) × (line.now ≡ head_line p.0 p.1))) }
    ensures reads { (s n : ℕ) → s < 2 ^ 64 → 0 < n → n < 2 ^ 64 → line.now ≡ head_line s n →
        IfOk result (λ o. o ≡ Some (s, n)) }
{
    let Some((seed, count)) = numbers_in(line) else {
        return Ok(None);
    };
    put_head(printed, seed, count)?;
    if !is_head(printed.as_str(), count, line) {
        return Ok(None);
    }
    Ok(Some((seed, count)))
}
