// The text of what is found.

ghost use Rattle.std.specs.Prelude.{◌≡◌, ◌++◌, IfOk, OnOk, string_bytes};
ghost use Rattle.ls_find_reports.specs.Printing.{figures_line, first_text, found_text, none_line, none_text};
ghost use Rattle.ls_find_reports.specs.Printing.{number_text};

use crate::figures::Figures;
use std::alloc::{AllocError, Global};
use std::fmt::Write;

/// Adds the number of the first that is cut, if some are.
fn push_first(out: &mut String, cut: u64, first: u64) -> Result<(), AllocError>
    ensures { OnOk result (string_bytes out.new ≡ string_bytes out.old ++ first_text cut first) }
{
    if cut > 0 {
        write!(out, " from number {first} on")?;
    }
    Ok(())
}

/// Adds what is counted of a range, without a line feed.
pub fn push_figures(out: &mut String, figures: Figures) -> Result<(), AllocError>
    ensures { OnOk result (string_bytes out.new ≡ string_bytes out.old ++ figures_line figures) }
{
    let Figures {
        from,
        to,
        count,
        doubles,
        cut,
        first,
    } = figures;
    write!(
        out,
        "// numbers {from} to {to} of {count} with {doubles} doubles and {cut} cut"
    )?;
    push_first(out, cut, first)?;
    Ok(())
}

/// Adds the number of a program among so many.
pub fn push_number(out: &mut String, number: u64, count: u64) -> Result<(), AllocError>
    ensures { OnOk result (string_bytes out.new ≡ string_bytes out.old ++ number_text number count) }
{
    write!(out, "// number {number} of {count}: ")?;
    Ok(())
}

/// A program that is shown: its number, why, its text, and a schedule.
#[derive(Copy)]
pub struct Shown<'a> {
    pub number: u64,
    pub reason: &'a str,
    pub program: &'a str,
    pub schedule: &'a str,
}

impl<'a> Clone for Shown<'a> {
    fn clone(&self) -> Result<Shown<'a>, AllocError> {
        Ok(*self)
    }
}

/// The text of a program that is shown: its number among so many, and why, what is counted of the range, the program,
/// and the schedule as another part.
pub fn print_found(alloc: Global, figures: Figures, shown: Shown<'_>) -> Result<String, AllocError>
    ensures { IfOk result (λ text. string_bytes text ≡ found_text figures shown.entry.number
        shown.entry.reason.now shown.entry.program.now shown.entry.schedule.now) }
{
    let mut out = String::new(alloc);
    push_number(&mut out, shown.number, figures.count)?;
    out.push_str(shown.reason)?;
    out.push_str("\n")?;
    push_figures(&mut out, figures)?;
    out.push_str("\n")?;
    out.push_str(shown.program)?;
    out.push_str("%%\n")?;
    out.push_str(shown.schedule)?;
    Ok(out)
}

/// How a text begins that says that none is found: without a line feed.
pub fn none_line(cut: u64) -> &'static str
    ensures { result.now ≡ none_line cut }
{
    if cut == 0 {
        return "// none";
    }
    "// none in what was explored"
}

/// The text that there is none in a range, and what is counted of the range.
pub fn print_none(alloc: Global, figures: Figures) -> Result<String, AllocError>
    ensures { IfOk result (λ text. string_bytes text ≡ none_text figures) }
{
    let mut out = String::new(alloc);
    out.push_str(none_line(figures.cut))?;
    out.push_str("\n")?;
    push_figures(&mut out, figures)?;
    out.push_str("\n")?;
    Ok(out)
}
