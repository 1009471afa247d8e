// What reports of ranges say of all their numbers.

ghost use Rattle.std.specs.Prelude.{◌≡◌, ◌∷◌, [], ◌+◌, ◌<◌, ◌^◌, ◌↔◌, All, IfNone, IfOk, IfSome, OnOk, IsPermutation};
ghost use Rattle.std.specs.Prelude.{IsTrue, MatchOption};
ghost use Rattle.std.specs.Prelude.{Err, IfErr, Ok, Some, length, map, slice_get, string_bytes};
ghost use Rattle.std.specs.List.Sorted.{IsNonDecreasingBy};
ghost use Rattle.ls_find_reports.specs.Reports.{AreFigures, IsReport, plain_found, plain_report, report_text};
ghost use Rattle.ls_find_reports.specs.Reports.{text_with};
ghost use Rattle.ls_find_reports.specs.Sums.{AddsTo, FollowFrom, Follows, IsOther, both, first_of, joined, sum_from};

use crate::fault::RangeFault;
use crate::reading::read_reports;
use crate::report::{Found, Report};
use crate::{Figures, Shown, print_found, print_none};
use std::alloc::{AllocError, Global};

/// The first that is cut of two ranges, where so many are cut in the first.
fn first_of(cut: u64, first: u64, next: u64) -> u64
    ensures { result ≡ first_of cut first next }
{
    if cut == 0 { next } else { first }
}

/// What is counted of two ranges, where none is found in the first.
fn both(f: Figures, g: Figures) -> Figures
    requires doubles { f.doubles + g.doubles < 2 ^ 64 }
    requires cut { f.cut + g.cut < 2 ^ 64 }
    ensures { result ≡ both f g }
{
    Figures {
        from: f.from,
        to: g.to,
        count: f.count,
        doubles: f.doubles + g.doubles,
        cut: f.cut + g.cut,
        first: first_of(f.cut, f.first, g.first),
    }
}

/// The report of two ranges, one after the other.
fn joined<'a>(r: Report<'a>, s: Report<'a>) -> Report<'a>
    requires first { AreFigures r.figures }
    requires second { AreFigures s.figures }
    requires next { Follows (plain_report r) (plain_report s) }
    ensures is { plain_report result ≡ joined (plain_report r.entry) (plain_report s.entry) }
    ensures figures { AreFigures result.figures }
{
    match r.found {
        None => Report {
            figures: both(r.figures, s.figures),
            found: s.found,
        },
        Some(found) => Report {
            figures: Figures {
                to: s.figures.to,
                ..r.figures
            },
            found: Some(found),
        },
    }
}

/// Whether the second range follows the first, among as many numbers.
fn follows(r: &Report<'_>, s: &Report<'_>) -> bool
    requires { AreFigures s.now.figures }
    ensures { IsTrue result ↔ Follows (plain_report r.now) (plain_report s.now) }
{
    s.figures.from - 1 == r.figures.to && s.figures.count == r.figures.count
}

/// The first report, and those after it.
fn parted<'a, 'b>(reports: &'b [Report<'a>]) -> Option<(Report<'a>, &'b [Report<'a>])>
    ensures { MatchOption result (reports.now ≡ []) (λ p. reports.now ≡ p.0 ∷ p.1.now) }
{
    match reports.split_first() {
        Some((first, rest)) => Some((*first, rest)),
        None => None,
    }
}

/// The report at a place.
fn report_at<'a>(reports: &[Report<'a>], at: usize) -> Report<'a>
    requires { at < length reports.now }
    ensures { slice_get reports.now at ≡ Some result }
{
    reports[at]
}

/// The report of all numbers of ranges, after one that comes before them. None if one doesn't follow the one before it.
fn sum_from<'a>(first: Report<'a>, more: &[Report<'a>]) -> Option<Report<'a>>
    requires first { AreFigures first.figures }
    requires more { All (λ s. AreFigures s.figures) more.now }
    ensures some { IfSome result (λ sum. FollowFrom (plain_report first.entry) (map plain_report more.now) ×
        (plain_report sum ≡ sum_from (plain_report first.entry) (map plain_report more.now)) ×
        AreFigures sum.figures) }
    ensures none { IfNone result (¬ FollowFrom (plain_report first.entry) (map plain_report more.now)) }
{
    let mut sum = first;
    for at in 0..more.len() {
        let report = report_at(more, at);
        if !follows(&sum, &report) {
            return None;
        }
        sum = joined(sum, report);
    }
    Some(sum)
}

/// Whether another number of numbers is wanted than the range has.
fn is_other(wanted: Option<u64>, figures: Figures) -> bool
    requires { AreFigures figures }
    ensures { IsTrue result ↔ IsOther wanted figures }
{
    match wanted {
        Some(number) => number != figures.to - figures.from + 1,
        None => false,
    }
}

/// The text of a program that is found, with the line feed of its schedule.
fn print_program(alloc: Global, figures: Figures, found: Found<'_>) -> Result<String, AllocError>
    ensures { IfOk result (λ text. string_bytes text ≡ text_with figures (Some (plain_found found.entry))) }
{
    let shown = Shown {
        number: found.number,
        reason: found.reason,
        program: found.program,
        schedule: found.schedule,
    };
    let mut text = print_found(alloc, figures, shown)?;
    text.push_str("\n")?;
    Ok(text)
}

/// The text of a report.
fn print_report(alloc: Global, report: Report<'_>) -> Result<String, AllocError>
    ensures { IfOk result (λ text. string_bytes text ≡ report_text (plain_report report.entry)) }
{
    match report.found {
        Some(found) => print_program(alloc, report.figures, found),
        None => print_none(alloc, report.figures),
    }
}

/// Puts reports in the order of their first numbers.
fn sort(reports: &mut Vec<Report<'_>>) -> Result<(), AllocError>
    ensures permutes { OnOk result (IsPermutation reports.old.items reports.new.items) }
    ensures rise { OnOk result (IsNonDecreasingBy (λ r. r.figures.from) reports.new.items) }
{
    reports.sort_by_key(|report| report.figures.from)?;
    Ok(())
}

/// The text of what `find` says of all numbers of the ranges of which it says what stands in a text: of each range
/// once, in any order. With a number that is wanted, there are as many numbers.
pub fn add_up(alloc: Global, wanted: Option<u64>, text: &str) -> Result<String, RangeFault>
    ensures sum { IfOk result (λ sum. AddsTo wanted text.now (Ok (string_bytes sum))) }
    ensures refused { IfErr result (λ fault. AddsTo wanted text.now (Err fault)) }
{
    let mut reports = read_reports(alloc, text)?;
    sort(&mut reports)?;
    let Some((first, more)) = parted(reports.as_slice()) else {
        return Err(RangeFault::NotFollowing);
    };
    let Some(sum) = sum_from(first, more) else {
        return Err(RangeFault::NotFollowing);
    };
    if is_other(wanted, sum.figures) {
        return Err(RangeFault::OtherCount);
    }
    Ok(print_report(alloc, sum)?)
}
