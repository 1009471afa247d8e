// Which page the command line asks for, by how many parts there are.

ghost use Rattle.std.specs.Prelude.{◌≡◌, [], map};
ghost use Rattle.ls_faults.specs.Given.{GivesText};
ghost use Rattle.ls_items.specs.Cutting.{plain_text};
ghost use Rattle.ls_tool.specs.Pages.{PagesOn, PagesOnFour, PagesOnThree, PagesOnTwo, PagesRun, first_of, has_range};
ghost use Rattle.ls_tool.specs.Pages.{PagesByReference, PagesLike, last_of, states_of};

use ls_choosing::choosing::choose;
use ls_command_line::Paging;
use ls_commands::{page, page_with_order};
use ls_faults::fault::ToolFault;
use ls_page::Window;
use std::alloc::Global;

/// The states that are kept where no number is asked for.
const STATES: u64 = 20_000;

/// The last step that is shown where none is asked for: the most that a schedule has.
const LAST_STEP: u64 = 1_000_000;

// Whether a range of steps is asked for.
fn has_range(paging: Paging) -> bool
    ensures { result ≡ has_range paging }
{
    paging.from.is_some() || paging.to.is_some()
}

// The steps that are shown.
fn window_of(paging: Paging) -> Window
    ensures from { result.from ≡ first_of paging }
    ensures to { result.to ≡ last_of paging }
{
    Window {
        from: paging.from.unwrap_or(1) as usize,
        to: paging.to.unwrap_or(LAST_STEP) as usize,
    }
}

// The most states that are kept.
fn states_of(paging: Paging) -> usize
    ensures { result ≡ states_of paging }
{
    paging.states.unwrap_or(STATES) as usize
}

// The page of two parts, on which one chooses.
fn page_on_two(
    alloc: Global,
    paging: Paging,
    classes: &str,
    program: &str,
) -> Result<String, ToolFault>
    ensures { GivesText (PagesOnTwo paging classes.now program.now) result }
{
    if has_range(paging) || paging.choose {
        return Err(ToolFault::BadOptions);
    }
    choose(alloc, None, states_of(paging), classes, program, "")
}

// The page of a run, which shows no more than that.
fn page_of_run(
    alloc: Global,
    paging: Paging,
    classes: &str,
    program: &str,
    schedule: &str,
) -> Result<String, ToolFault>
    ensures { GivesText (PagesRun paging classes.now program.now schedule.now) result }
{
    if paging.states.is_some() {
        return Err(ToolFault::BadOptions);
    }
    let window = window_of(paging);
    page(alloc, window.from, window.to, classes, program, schedule)
}

// The page of three parts: on a run, or on which one chooses and begins with the run.
fn page_on_three(
    alloc: Global,
    paging: Paging,
    classes: &str,
    program: &str,
    schedule: &str,
) -> Result<String, ToolFault>
    ensures { GivesText (PagesOnThree paging classes.now program.now schedule.now) result }
{
    if !paging.choose {
        return page_of_run(alloc, paging, classes, program, schedule);
    }
    if has_range(paging) {
        return Err(ToolFault::BadOptions);
    }
    choose(alloc, None, states_of(paging), classes, program, schedule)
}

// The page of four parts, on a run and an order.
fn page_on_four(
    alloc: Global,
    paging: Paging,
    classes: &str,
    program: &str,
    schedule: &str,
    order: &str,
) -> Result<String, ToolFault>
    ensures { GivesText (PagesOnFour paging classes.now program.now schedule.now order.now) result }
{
    if paging.choose || paging.states.is_some() {
        return Err(ToolFault::BadOptions);
    }
    page_with_order(alloc, window_of(paging), classes, program, schedule, order)
}

// The page by a reference, on which one chooses.
fn page_like(
    alloc: Global,
    paging: Paging,
    reference: &str,
    classes: &str,
    program: &str,
    schedule: &str,
) -> Result<String, ToolFault>
    ensures { GivesText (PagesLike paging reference.now classes.now program.now schedule.now) result }
{
    if has_range(paging) {
        return Err(ToolFault::BadOptions);
    }
    choose(
        alloc,
        Some(reference),
        states_of(paging),
        classes,
        program,
        schedule,
    )
}

/// A class text, a program of it, a schedule if there is one, and a reference.
pub(crate) fn on_page_like(
    alloc: Global,
    paging: Paging,
    parts: &[&str],
) -> Result<String, ToolFault>
    ensures { GivesText (PagesByReference paging (map plain_text parts.now)) result }
{
    match parts {
        [classes, program, reference] => page_like(alloc, paging, reference, classes, program, ""),
        [classes, program, schedule, reference] => {
            page_like(alloc, paging, reference, classes, program, schedule)
        }
        _ => Err(ToolFault::WrongParts),
    }
}

/// A class text and a program of it; the same and a schedule; or the same and an order.
pub(crate) fn on_page(alloc: Global, paging: Paging, parts: &[&str]) -> Result<String, ToolFault>
    ensures { GivesText (PagesOn paging (map plain_text parts.now)) result }
{
    match parts {
        [classes, program] => page_on_two(alloc, paging, classes, program),
        [classes, program, schedule] => page_on_three(alloc, paging, classes, program, schedule),
        [classes, program, schedule, order] => {
            page_on_four(alloc, paging, classes, program, schedule, order)
        }
        _ => Err(ToolFault::WrongParts),
    }
}
