// Reading reports of ranges.

ghost use Rattle.std.specs.Prelude.{◌≡◌, ◌++◌, IfErr, IfOk, IfSome, Some, map, option_map, true};
ghost use Rattle.ls_find_reports.specs.Reports.{Found as ghost_Found, Report as ghost_Report};
ghost use Rattle.ls_find_reports.specs.Reports.{ComesAfter, Explains, IsProgram, IsReport, IsWith, Lists, lacks};
ghost use Rattle.ls_find_reports.specs.Reports.{plain_entry, plain_found, plain_program, plain_report, report_text};
ghost use Rattle.ls_find_reports.specs.Reports.{tail_of};
ghost use Rattle.ls_find_reports.specs.Printing.{number_text};
ghost use Rattle.ls_report.specs.Events.{Text};

use crate::fault::RangeFault;
use crate::program_lines::are_lines;
use crate::programs::{after, body_in, number_in};
use crate::range_figures::{comes_after, figures_in, is_line};
use crate::report::{Found, Report};
use crate::{Figures, none_line};
use ls_report::cuts::cut;
use std::alloc::{AllocError, Global};

/// The program that is found, whose first line, what is counted, and what stands after the second line are these; and
/// what stands after it.
fn found_in<'a>(
    printed: &mut String,
    line: &'a str,
    figures: Figures,
    behind: &'a str,
) -> Result<Option<(Found<'a>, &'a str)>, AllocError>
    requires { lacks 10 line.now ≡ true }
    ensures is { IfOk result (λ o. IfSome o (λ p. IsProgram (plain_found p.0) ×
        ComesAfter figures p.0.number ×
        (line.now ≡ number_text p.0.number figures.count ++ p.0.reason.now) ×
        (behind.now ≡ tail_of (Some (plain_found p.0)) p.1.now))) }
    ensures reads { (f : ghost_Found) (after : Text) → IsProgram f → ComesAfter figures f.number →
        line.now ≡ number_text f.number figures.count ++ f.reason → behind.now ≡ tail_of (Some f) after →
        IfOk result (λ o. option_map plain_program o ≡ Some (f, after)) }
{
    let Some((number, reason)) = number_in(printed, line, figures.count)? else {
        return Ok(None);
    };
    let Some((program, schedule, after)) = body_in(behind) else {
        return Ok(None);
    };
    if !comes_after(figures, number) || !are_lines(program) {
        return Ok(None);
    }
    let found = Found {
        number,
        reason,
        program,
        schedule,
    };
    Ok(Some((found, after)))
}

/// The report whose first line, what it counts, and what stands after its second line are these; and what stands after
/// it.
fn with_figures<'a>(
    printed: &mut String,
    line: &'a str,
    figures: Figures,
    behind: &'a str,
) -> Result<Option<(Report<'a>, &'a str)>, AllocError>
    requires { lacks 10 line.now ≡ true }
    ensures is { IfOk result (λ o. IfSome o (λ p. IsWith figures line.now behind.now (plain_report p.0) p.1.now)) }
    ensures reads { (r : ghost_Report) (after : Text) → IsWith figures line.now behind.now r after →
        IfOk result (λ o. option_map plain_entry o ≡ Some (r, after)) }
{
    if is_line(line, none_line(figures.cut)) {
        let found = None;
        return Ok(Some((Report { figures, found }, behind)));
    }
    match found_in(printed, line, figures, behind)? {
        Some((program, after)) => {
            let found = Some(program);
            Ok(Some((Report { figures, found }, after)))
        }
        None => Ok(None),
    }
}

/// The report with which a text begins, and what stands after it. The borrowed text is used to print in.
fn report_in<'a>(
    printed: &mut String,
    text: &'a str,
) -> Result<Option<(Report<'a>, &'a str)>, AllocError>
    ensures is { IfOk result (λ o. IfSome o (λ p. IsReport (plain_report p.0) ×
        (text.now ≡ report_text (plain_report p.0) ++ p.1.now))) }
    ensures reads { (r : ghost_Report) (after : Text) → IsReport r → text.now ≡ report_text r ++ after →
        IfOk result (λ o. option_map plain_entry o ≡ Some (r, after)) }
{
    let Some((first, behind)) = cut(text, '\n') else {
        return Ok(None);
    };
    let Some((second, after)) = cut(behind, '\n') else {
        return Ok(None);
    };
    let Some(figures) = figures_in(printed, second)? else {
        return Ok(None);
    };
    with_figures(printed, first, figures, after)
}

/// The reports whose texts stand one after another, with lines `%%` between them or without. Otherwise the fault says
/// where a report would have to begin, or a line `%%`, and neither does.
pub(crate) fn read_reports<'a>(alloc: Global, text: &'a str) -> Result<Vec<Report<'a>>, RangeFault>
    ensures found { IfOk result (λ reports. Lists text.now (map plain_report reports.items)) }
    ensures fault { IfErr result (Explains text.now) }
{
    let length = text.len();
    let mut printed = String::new(alloc);
    let mut reports = Vec::new(alloc);
    let mut rest = text;
    while !rest.is_empty() {
        if let Some(behind) = after(rest, "%%\n") {
            rest = behind;
            continue;
        }
        let Some((report, behind)) = report_in(&mut printed, rest)? else {
            let at = length - rest.len();
            return Err(RangeFault::BadReport { at });
        };
        reports.push(report)?;
        rest = behind;
    }
    Ok(reports)
}
