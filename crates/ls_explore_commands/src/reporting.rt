// The text of a verdict.

ghost use Rattle.std.specs.Prelude.{◌≡◌, ◌++◌, IfOk, OnOk, string_bytes};
ghost use Rattle.ls_labels.specs.Names.{names_of};
ghost use Rattle.ls_meaning.specs.Runs.{source_history};
ghost use Rattle.ls_report.specs.Printing.{run_text};
ghost use Rattle.ls_schedule.specs.Reading.{thread_names};
ghost use Rattle.ls_explore_commands.specs.Reports.{bad_text, doubt_text, doubtful_text, end_text, free_text};
ghost use Rattle.ls_explore_commands.specs.Reports.{last_text};
ghost use Rattle.ls_explore_commands.specs.Reports.{run_report, stuck_and_doubtful_text, stuck_text};
ghost use Rattle.ls_explore_commands.specs.Reports.{turning_text, unsure_text};

use ls_events::schedule::Schedule;
use ls_explore_reports::{cut_words, waiting_after};
use ls_fewest_switches::{SimpleRun, push_switches};
use ls_labels::names::Names;
use ls_report::print_history;
use ls_schedule::print_schedule;
use ls_serial_search::telling::Doubt;
use ls_state::scene::Scene;
use std::alloc::{AllocError, Global};
use std::fmt::Write;

/// How many states may be kept, how many were, and whether these are all.
#[derive(Copy)]
pub(crate) struct Extent {
    pub limit: usize,
    pub states: usize,
    pub complete: bool,
}

impl Clone for Extent {
    fn clone(&self) -> Result<Extent, AllocError> {
        Ok(*self)
    }
}

fn end_words(extent: Extent) -> &'static str
    ensures { result.now ≡ end_text extent.limit extent.states extent.complete }
{
    if extent.complete {
        return " complete\n";
    }
    cut_words(extent.limit, extent.states)
}

fn doubt_words(doubt: Doubt) -> &'static str
    ensures { result.now ≡ doubt_text doubt }
{
    match doubt {
        Doubt::LongCall => "not judged: a call goes on",
    }
}

/// Adds how many states were kept, and whether these are all.
pub(crate) fn push_last(out: &mut String, extent: Extent) -> Result<(), AllocError>
    ensures { OnOk result (string_bytes out.new ≡ string_bytes out.old ++
        last_text extent.limit extent.states extent.complete) }
{
    let states = extent.states;
    write!(out, "states {states}")?;
    out.push_str(end_words(extent))
}

/// The history's lines of a schedule.
fn history_after(alloc: Global, names: Names<'_>, schedule: &Schedule) -> Result<String, AllocError>
    ensures { IfOk result (λ text. string_bytes text ≡ run_text (names_of names.entry).program
        (source_history (names_of names.entry).file (names_of names.entry).program schedule.now)) }
{
    let scene = Scene::after(alloc, names, schedule.steps())?;
    let text = print_history(alloc, scene.run.history(), names.program)?;
    Ok(text)
}

/// Adds what is wrong with a run, its context switches, its schedule, its history's lines, an empty line.
pub(crate) fn push_run(
    alloc: Global,
    out: &mut String,
    names: Names<'_>,
    head: &str,
    run: &SimpleRun,
) -> Result<(), AllocError>
    ensures { OnOk result (string_bytes out.new ≡ string_bytes out.old ++
        run_report run.now.fewest (names_of names.entry) (thread_names names.entry.program.now) head.now
        run.now.schedule) }
{
    let steps = print_schedule(alloc, &run.schedule, names.program)?;
    let history = history_after(alloc, names, &run.schedule)?;
    out.push_str(head)?;
    push_switches(out, run)?;
    out.push_str("\n")?;
    out.push_str(steps.as_str())?;
    out.push_str(history.as_str())?;
    out.push_str("\n")
}

/// The text of a run whose history isn't linearizable, with a line on an event of it. The only refusal is that memory
/// ran out.
pub(crate) fn print_bad(
    alloc: Global,
    names: Names<'_>,
    run: &SimpleRun,
    note: &str,
    extent: Extent,
) -> Result<String, AllocError>
    ensures { IfOk result (λ text. string_bytes text ≡
        bad_text note.now run.now.fewest (names_of names.entry) (thread_names names.entry.program.now)
        run.now.schedule extent.limit extent.states extent.complete) }
{
    let mut out = String::new(alloc);
    push_run(alloc, &mut out, names, "not linearizable", run)?;
    out.push_str(note)?;
    push_last(&mut out, extent)?;
    Ok(out)
}

/// The text of a run whose history no serial run explains that was found, where these may not be all. The only refusal
/// is that memory ran out.
pub(crate) fn print_doubtful(
    alloc: Global,
    names: Names<'_>,
    doubt: Doubt,
    run: &SimpleRun,
    extent: Extent,
) -> Result<String, AllocError>
    ensures { IfOk result (λ text. string_bytes text ≡
        doubtful_text doubt run.now.fewest (names_of names.entry) (thread_names names.entry.program.now)
        run.now.schedule
        extent.limit extent.states extent.complete) }
{
    let mut out = String::new(alloc);
    push_run(alloc, &mut out, names, doubt_words(doubt), run)?;
    push_last(&mut out, extent)?;
    Ok(out)
}

/// The text of a run after which threads wait for ever. The only refusal is that memory ran out.
pub(crate) fn print_stuck(
    alloc: Global,
    names: Names<'_>,
    run: &SimpleRun,
    extent: Extent,
) -> Result<String, AllocError>
    ensures { IfOk result (λ text. string_bytes text ≡
        stuck_text run.now.fewest (names_of names.entry) (thread_names names.entry.program.now) run.now.schedule
        extent.limit extent.states extent.complete) }
{
    let waiting = waiting_after(alloc, names, &run.schedule)?;
    let mut out = String::new(alloc);
    push_run(alloc, &mut out, names, waiting.as_str(), run)?;
    push_last(&mut out, extent)?;
    Ok(out)
}

/// The text of a run after which threads wait for ever, and of one whose history no serial run explains that was found,
/// where these may not be all. The only refusal is that memory ran out.
pub(crate) fn print_stuck_and_doubtful(
    alloc: Global,
    names: Names<'_>,
    stuck: &SimpleRun,
    doubtful: &SimpleRun,
    doubt: Doubt,
    extent: Extent,
) -> Result<String, AllocError>
    ensures { IfOk result (λ text. string_bytes text ≡
        stuck_and_doubtful_text stuck.now.schedule stuck.now.fewest doubt doubtful.now.fewest (names_of names.entry)
        (thread_names names.entry.program.now) doubtful.now.schedule extent.limit extent.states
        extent.complete) }
{
    let waiting = waiting_after(alloc, names, &stuck.schedule)?;
    let mut out = String::new(alloc);
    push_run(alloc, &mut out, names, waiting.as_str(), stuck)?;
    push_run(alloc, &mut out, names, doubt_words(doubt), doubtful)?;
    push_last(&mut out, extent)?;
    Ok(out)
}

/// The text of a run after which threads turn for ever. The only refusal is that memory ran out.
pub(crate) fn print_turning(
    alloc: Global,
    names: Names<'_>,
    run: &SimpleRun,
    extent: Extent,
) -> Result<String, AllocError>
    ensures { IfOk result (λ text. string_bytes text ≡
        turning_text run.now.fewest (names_of names.entry) (thread_names names.entry.program.now) run.now.schedule
        extent.limit extent.states extent.complete) }
{
    let mut out = String::new(alloc);
    push_run(alloc, &mut out, names, "threads turn for ever", run)?;
    push_last(&mut out, extent)?;
    Ok(out)
}

/// The text that no run is bad, and what is said beside that. The only refusal is that memory ran out.
pub(crate) fn print_free(alloc: Global, beside: &str, extent: Extent) -> Result<String, AllocError>
    ensures { IfOk result (λ text. string_bytes text ≡
        free_text beside.now extent.limit extent.states extent.complete) }
{
    let mut out = String::new(alloc);
    out.push_str("none\n")?;
    out.push_str(beside)?;
    push_last(&mut out, extent)?;
    Ok(out)
}

/// The text that no run is bad, where threads may turn for ever. The only refusal is that memory ran out.
pub(crate) fn print_unsure(alloc: Global, extent: Extent) -> Result<String, AllocError>
    ensures { IfOk result (λ text. string_bytes text ≡ unsure_text extent.limit extent.states extent.complete) }
{
    let mut out = String::new(alloc);
    out.push_str("none, but threads may turn for ever\n")?;
    push_last(&mut out, extent)?;
    Ok(out)
}
