// The line of what is counted.

ghost use Rattle.std.specs.Prelude.{◌≡◌, ◌<◌, ◌^◌, ◌↔◌, ℕ, IfOk, IfSome, IsTrue, OnOk, Some, string_bytes};
ghost use Rattle.std.specs.Fmt.{decimal};
ghost use Rattle.ls_find_reports.specs.Words.{word_at};
ghost use Rattle.ls_find_reports.specs.Reports.{AreFigures, ComesAfter};
ghost use Rattle.ls_find_reports.specs.Printing.{figures_line};
ghost use Rattle.ls_find_reports.specs.declared.figures.Figures.{Figures as ghost_Figures};

use crate::words::number_at;
use crate::{Figures, push_figures};
use std::alloc::AllocError;

/// The number of the first one that is cut, which stands in the line if some are.
fn first_at(line: &str, cut: u64) -> u64
    ensures none { cut ≡ 0 → result ≡ 0 }
    ensures some { 0 < cut → (n : ℕ) → n < 2 ^ 64 → word_at 15 line.now ≡ decimal n → result ≡ n }
{
    if cut == 0 {
        return 0;
    }
    number_at(line, 15)
}

/// What is counted by the line. Of another line it is something.
fn guessed(line: &str) -> Figures
    ensures { (f : ghost_Figures) → AreFigures f → line.now ≡ figures_line f → result ≡ f }
{
    let from = number_at(line, 2);
    let to = number_at(line, 4);
    let count = number_at(line, 6);
    let doubles = number_at(line, 8);
    let cut = number_at(line, 11);
    let first = first_at(line, cut);
    Figures {
        from,
        to,
        count,
        doubles,
        cut,
        first,
    }
}

/// Whether a range has its numbers among all, no more doubles and cut ones than numbers, and the first cut one in it.
fn are_figures(f: Figures) -> bool
    ensures { IsTrue result ↔ AreFigures f }
{
    f.from > 0
        && f.from <= f.to
        && f.to <= f.count
        && f.doubles <= f.to - f.from + 1
        && f.cut <= f.to - f.from + 1 - f.doubles
        && (f.cut != 0 || f.first == 0)
        && (f.cut == 0 || f.from <= f.first && f.first - 1 <= f.to - f.cut)
}

/// Whether a number is one of a range, with room before it for the doubles and the cut ones.
pub(crate) fn comes_after(f: Figures, number: u64) -> bool
    ensures { IsTrue result ↔ ComesAfter f number }
{
    number <= f.to
        && f.from <= number
        && f.doubles <= number - f.from
        && f.cut <= number - f.from - f.doubles
        && f.first <= number - f.cut
}

/// Puts the line in the place of the text that it borrows.
fn put_figures(printed: &mut String, figures: Figures) -> Result<(), AllocError>
    ensures { OnOk result (string_bytes printed.new ≡ figures_line figures) }
{
    printed.clear();
    push_figures(printed, figures)
}

/// Whether the line is the one that is printed.
pub(crate) fn is_line(line: &str, printed: &str) -> bool
    ensures { IsTrue result ↔ (line.now ≡ printed.now) }
{
    line == printed
}

/// What is counted by the line, if it counts something. The borrowed text is used to print in.
pub(crate) fn figures_in(printed: &mut String, line: &str) -> Result<Option<Figures>, AllocError>
    ensures is { IfOk result (λ o. IfSome o (λ f. AreFigures f × (line.now ≡ figures_line f))) }
    ensures reads { (f : ghost_Figures) → AreFigures f → line.now ≡ figures_line f →
        IfOk result (λ o. o ≡ Some f) }
{
    let figures = guessed(line);
    if !are_figures(figures) {
        return Ok(None);
    }
    put_figures(printed, figures)?;
    if !is_line(line, printed.as_str()) {
        return Ok(None);
    }
    Ok(Some(figures))
}
