// A program that is found.

ghost use Rattle.std.specs.Prelude.{◌≡◌, ◌<◌, ◌^◌, ◌++◌, ◌∷◌, ℕ, IfOk, IfSome, OnOk, Some, codes, option_map};
ghost use Rattle.std.specs.Prelude.{string_bytes, true};
ghost use Rattle.std.specs.Prelude.{MatchOption};
ghost use Rattle.ls_find_reports.specs.Reports.{lacks, plain_body, plain_reason};
ghost use Rattle.ls_find_reports.specs.Printing.{number_text};
ghost use Rattle.ls_report.specs.Events.{Text};

use crate::push_number;
use crate::words::number_at;
use ls_report::cuts::cut;
use std::alloc::AllocError;

/// Puts the number among so many in the place of the text that it borrows.
fn put_number(printed: &mut String, number: u64, count: u64) -> Result<(), AllocError>
    ensures { OnOk result (string_bytes printed.new ≡ number_text number count) }
{
    printed.clear();
    push_number(printed, number, count)
}

/// What stands after a text that another begins with.
pub(crate) fn after<'a>(text: &'a str, front: &str) -> Option<&'a str>
    ensures { MatchOption result ((rest : Text) → text.now ≡ front.now ++ rest → ⊥) (λ rest. text.now ≡
        front.now ++ rest.now) }
{
    text.strip_prefix(front)
}

/// The number and the reason that the line tells, among so many. The borrowed text is used to print in.
pub(crate) fn number_in<'a>(
    printed: &mut String,
    line: &'a str,
    count: u64,
) -> Result<Option<(u64, &'a str)>, AllocError>
    ensures is { IfOk result (λ o. IfSome o (λ p. (p.0 < 2 ^ 64) × (line.now ≡ number_text p.0 count ++ p.1.now))) }
    ensures reads { (n : ℕ) (reason : Text) → n < 2 ^ 64 → line.now ≡ number_text n count ++ reason →
        IfOk result (λ o. option_map plain_reason o ≡ Some (n, reason)) }
{
    let number = number_at(line, 2);
    put_number(printed, number, count)?;
    match after(line, printed.as_str()) {
        Some(reason) => Ok(Some((number, reason))),
        None => Ok(None),
    }
}

/// A program's text, the line of a schedule, and what stands after it.
pub(crate) fn body_in(text: &str) -> Option<(&str, &str, &str)>
    ensures is { IfSome result (λ p. (text.now ≡ p.0.now ++ (codes "%%\n" ++ (p.1.now ++ 10 ∷ p.2.now))) ×
        (lacks 37 p.0.now ≡ true) × (lacks 10 p.1.now ≡ true)) }
    ensures reads { (program schedule rest : Text) → lacks 37 program ≡ true → lacks 10 schedule ≡ true →
        text.now ≡ program ++ (codes "%%\n" ++ (schedule ++ 10 ∷ rest)) →
        option_map plain_body result ≡ Some (program, schedule, rest) }
{
    let Some((program, behind)) = cut(text, '%') else {
        return None;
    };
    let Some(lines) = after(behind, "%\n") else {
        return None;
    };
    let Some((schedule, rest)) = cut(lines, '\n') else {
        return None;
    };
    Some((program, schedule, rest))
}
