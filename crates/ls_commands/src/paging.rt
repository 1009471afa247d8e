// The command `page`.

ghost use Rattle.std.specs.Prelude.{◌≡◌, Some};
ghost use Rattle.ls_types_checked.specs.CheckedFile.{elaborated_file};
ghost use Rattle.ls_labels.specs.Names.{names_of};
ghost use Rattle.ls_faults.specs.Given.{GivesText};
ghost use Rattle.ls_commands.specs.Paged.{Pages, PagesTo, PagesWithOrderTo, PlaysTo, RunsTo, TellsTo, wanted_of};
ghost use Rattle.ls_commands.specs.ReadablePages.{HistoriesRead, ProgramsRead};

use crate::page_judging::judge;
use crate::page_wanted::Wanted;
use crate::showing::names_in;
use ls_faults::fault::ToolFault;
use ls_labels::names::Names;
use ls_page::{Judged, Texts, Window, first_steps, history, page_data, page_data_with_order};
use ls_parser::parsing::parse_text;
use ls_schedule::read_schedule;
use ls_text_laws::source_is_readable;
use ls_types::{check, read_program};
use ls_types_checked::checked::Checked;
use std::alloc::Global;

// The page of a run with an order. The verdict is on the history of the steps up to the last that is shown.
fn judged(
    alloc: Global,
    wanted: Wanted,
    names: Names,
    steps: &[u8],
    order: &str,
) -> Result<String, ToolFault>
    requires { HistoriesRead (names_of names) }
    ensures { GivesText (TellsTo (wanted_of wanted.entry) (names_of names.entry) steps.now (Some order.now)) result }
{
    let history = history(alloc, names, first_steps(steps, wanted.window.to))?;
    let verdict = judge(alloc, history.as_str(), order)?;
    let verdict = verdict.as_str();
    let judged = Judged { order, verdict };
    let page = page_data_with_order(alloc, names, wanted.texts, steps, wanted.window, judged)?;
    Ok(page)
}

// The page of a run.
fn told(alloc: Global, wanted: Wanted, names: Names, steps: &[u8]) -> Result<String, ToolFault>
    requires { HistoriesRead (names_of names) }
    ensures { GivesText (TellsTo (wanted_of wanted.entry) (names_of names.entry) steps.now
        (wanted_of wanted.entry).order) result }
{
    match wanted.order {
        None => {
            let page = page_data(alloc, names, wanted.texts, steps, wanted.window)?;
            Ok(page)
        }
        Some(order) => judged(alloc, wanted, names, steps, order),
    }
}

// The page of the program's run under the schedule.
fn played(alloc: Global, wanted: Wanted, names: Names) -> Result<String, ToolFault>
    requires { HistoriesRead (names_of names) }
    ensures { GivesText (PlaysTo (wanted_of wanted.entry) (names_of names.entry)) result }
{
    let schedule = read_schedule(alloc, wanted.texts.schedule, names.program)?;
    told(alloc, wanted, names, schedule.steps())
}

// The page of the program that the text is for the checked file.
fn run(alloc: Global, wanted: Wanted, checked: &Checked) -> Result<String, ToolFault>
    requires { ProgramsRead (elaborated_file checked.now) }
    ensures { GivesText (RunsTo (wanted_of wanted.entry) (elaborated_file checked.now)) result }
{
    let program = read_program(alloc, wanted.texts.program, checked)?;
    played(alloc, wanted, names_in(checked, &program))
}

// The page of the file that the class text is.
fn paged(alloc: Global, wanted: Wanted) -> Result<String, ToolFault>
    ensures { GivesText (Pages (wanted_of wanted.entry)) result }
{
    let parsed = parse_text(alloc, wanted.texts.classes)?;
    let checked = check(alloc, parsed)?;
    source_is_readable();
    run(alloc, wanted, &checked)
}

/// The data of a page on a run, from the Java text: a JSON object in one line. It has the three texts, the trace of
/// the steps `from..=to`, the states at both ends, and the history before. Steps are numbered from 1.
///
/// The first text that breaks is refused with its fault: first the class text, then the program, then the schedule. It
/// is also refused if memory runs out.
pub fn page(
    alloc: Global,
    from: usize,
    to: usize,
    classes: &str,
    program: &str,
    schedule: &str,
) -> Result<String, ToolFault>
    ensures { GivesText (PagesTo from to classes.now program.now schedule.now) result }
{
    let texts = Texts {
        classes,
        program,
        schedule,
    };
    let window = Window { from, to };
    let order = None;
    paged(
        alloc,
        Wanted {
            texts,
            window,
            order,
        },
    )
}

/// The same with an order of the calls, and what `check` says of the order. The verdict is on the history of the steps
/// up to the window's end. An order with an item that is no call is refused, after the other texts.
pub fn page_with_order(
    alloc: Global,
    window: Window,
    classes: &str,
    program: &str,
    schedule: &str,
    order: &str,
) -> Result<String, ToolFault>
    ensures { GivesText (PagesWithOrderTo window.from window.to classes.now program.now schedule.now order.now) result }
{
    let texts = Texts {
        classes,
        program,
        schedule,
    };
    let order = Some(order);
    paged(
        alloc,
        Wanted {
            texts,
            window,
            order,
        },
    )
}
