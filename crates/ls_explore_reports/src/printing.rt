// The text of an exploration.

ghost use Rattle.ls_events.specs.Limits.{most_steps};
ghost use Rattle.std.specs.Prelude.{◌≡◌, ◌<◌, ◌≤◌, ◌⊎◌, ◌++◌, ◌∷◌, [], IfErr, IfOk, IsErrOf, OnOk, length};
ghost use Rattle.std.specs.Prelude.{string_bytes};
ghost use Rattle.ls_labels.specs.Names.{names_of};
ghost use Rattle.ls_schedule.specs.Reading.{thread_names};
ghost use Rattle.ls_explore_reports.specs.Printing.{counts_text, cut_text, end_text, ending_text, illegal_text};
ghost use Rattle.ls_explore_reports.specs.Printing.{is_shown, is_wrong, last_text, linear_part, linear_text};
ghost use Rattle.ls_explore_reports.specs.Printing.{beside_part, linearity_part, over_text, row_text, rows_text};
ghost use Rattle.ls_explore_reports.specs.Printing.{set_part};
ghost use Rattle.ls_explore_reports.specs.Printing.{shown, verdict_part};
ghost use Rattle.ls_explore.specs.Tellings.{schedule_of};
ghost use Rattle.ls_explore_reports.specs.Judged.{rows_of};
ghost use Rattle.ls_explore_reports.specs.Long.{HasLong};
ghost use Rattle.ls_translation.specs.declared.fault.TranslationFault.TheVariants.{Memory, ResultTooLong};

use crate::judging::{
    JudgedRow, are_decided, are_known, count_illegal, count_not_linearizable, is_not_linearizable,
};
use crate::waiting::waiting_after;
use ls_events::schedule::{MOST_STEPS, Schedule};
use ls_explore::{Ending, ImageExploration, Row};
use ls_labels::names::Names;
use ls_linearity::Linearity;
use ls_report::print_history;
use ls_schedule::print_schedule;
use ls_translation::fault::TranslationFault;
use ls_verdicts::Verdict;
use std::alloc::{AllocError, Global};
use std::fmt::Write;

/// What is explored, and what of it is printed.
#[derive(Copy)]
pub struct Exploring {
    /// How many cells the machine has; none where the source is explored.
    pub cells: Option<usize>,
    /// How many states are kept at the most.
    pub states: usize,
    /// Whether only the rows are printed that have no legal order, or are not linearizable.
    pub illegal: bool,
    /// Whether the first of the rows is printed alone.
    pub first: bool,
    /// Whether what the command `order` tells of a row's history stands below the row.
    pub order: bool,
}

impl Clone for Exploring {
    fn clone(&self) -> Result<Exploring, AllocError> {
        Ok(*self)
    }
}

/// Adds a step.
fn push_step(schedule: &mut Schedule, thread: u8) -> Result<(), TranslationFault>
    ensures steps { OnOk result (schedule.new ≡ schedule.old ++ thread ∷ []) }
    ensures only { IfErr result (λ e. (e ≡ Memory) ⊎ (e ≡ ResultTooLong)) }
    ensures long { IsErrOf result ResultTooLong → most_steps ≤ length schedule.old }
{
    if schedule.len() >= MOST_STEPS {
        return Err(TranslationFault::ResultTooLong);
    }
    schedule.push(thread)?;
    Ok(())
}

/// The schedule of a row: so many steps of the setup, and then one of each thread of its path.
pub(crate) fn schedule_of(
    alloc: Global,
    setup: usize,
    row: &Row,
) -> Result<Schedule, TranslationFault>
    ensures steps { IfOk result (λ s. s ≡ schedule_of setup row.now) }
    ensures only { IfErr result (λ e. (e ≡ Memory) ⊎ (e ≡ ResultTooLong)) }
    ensures long { IsErrOf result ResultTooLong → most_steps < length (schedule_of setup row.now) }
{
    let mut schedule = Schedule::new(alloc);
    for _ in 0..setup {
        push_step(&mut schedule, 0)?;
    }
    for thread in row.path() {
        push_step(&mut schedule, *thread)?;
    }
    Ok(schedule)
}

/// That all threads have ended or are trapped, or what those wait for that haven't.
fn push_over(out: &mut String, waiting: &str) -> Result<(), AllocError>
    ensures { OnOk result (string_bytes out.new ≡ string_bytes out.old ++ over_text waiting.now) }
{
    if waiting.is_empty() {
        return out.push_str("ended");
    }
    out.push_str(waiting)
}

/// How a row ends.
fn push_ending(out: &mut String, ending: Ending, waiting: &str) -> Result<(), AllocError>
    ensures { OnOk result (string_bytes out.new ≡ string_bytes out.old ++ ending_text ending waiting.now) }
{
    match ending {
        Ending::Over => push_over(out, waiting),
        Ending::OutOfCells => out.push_str("out of cells"),
        Ending::GoesOn => out.push_str("goes on"),
        Ending::NotSeen => out.push_str("not seen"),
    }
}

/// Whether a history is linearizable, where that is known.
fn linearity_part(linearity: Linearity) -> &'static str
    ensures { result.now ≡ linearity_part linearity }
{
    match linearity {
        Linearity::Linearizable => ", linearizable",
        Linearity::NotLinearizable => ", not linearizable",
        Linearity::LongCall | Linearity::ManyStates => "",
    }
}

/// The verdict on set calls.
fn set_part(verdict: Verdict) -> &'static str
    ensures { result.now ≡ set_part verdict }
{
    match verdict {
        Verdict::Legal => ", legal",
        Verdict::Illegal => ", illegal",
        Verdict::TooManyTrapped => ", not judged",
        Verdict::NotOneSet => "",
    }
}

/// What is said beside the verdict on set calls: that they are not linearizable.
fn beside_part(linearity: Linearity) -> &'static str
    ensures { result.now ≡ beside_part linearity }
{
    match linearity {
        Linearity::Linearizable | Linearity::LongCall | Linearity::ManyStates => "",
        Linearity::NotLinearizable => ", not linearizable",
    }
}

/// Whether a history is linearizable: of set calls only that it isn't.
fn linear_part(verdict: Verdict, linearity: Linearity) -> &'static str
    ensures { result.now ≡ linear_part verdict linearity }
{
    match verdict {
        Verdict::NotOneSet => linearity_part(linearity),
        Verdict::Legal | Verdict::Illegal | Verdict::TooManyTrapped => beside_part(linearity),
    }
}

/// The verdict on set calls, and whether the history is linearizable.
fn push_verdict(out: &mut String, verdict: Verdict, linearity: Linearity) -> Result<(), AllocError>
    ensures { OnOk result (string_bytes out.new ≡ string_bytes out.old ++ verdict_part verdict linearity) }
{
    out.push_str(set_part(verdict))?;
    out.push_str(linear_part(verdict, linearity))
}

/// A row: how it ends and the verdict, its schedule, its history's lines, what is to stand below it, an empty line.
pub(crate) fn push_row_with(
    alloc: Global,
    out: &mut String,
    names: Names<'_>,
    setup: usize,
    judged: &JudgedRow<'_>,
    below: &str,
) -> Result<(), TranslationFault>
    ensures text { OnOk result (string_bytes out.new ≡ string_bytes out.old ++
        row_text (names_of names.entry) (thread_names names.entry.program.now) setup
        (record judged.now { below = below.now })) }
    ensures only { IfErr result (λ e. (e ≡ Memory) ⊎ (e ≡ ResultTooLong)) }
    ensures long { IsErrOf result ResultTooLong → most_steps < length (schedule_of setup judged.now.row) }
{
    let row = judged.row();
    let schedule = schedule_of(alloc, setup, row)?;
    let waiting = waiting_after(alloc, names, &schedule)?;
    let steps = print_schedule(alloc, &schedule, names.program)?;
    let history = print_history(alloc, row.history(), names.program)?;
    push_ending(out, row.ending(), waiting.as_str())?;
    push_verdict(&mut *out, judged.verdict(), judged.linearity())?;
    out.push_str("\n")?;
    out.push_str(steps.as_str())?;
    out.push_str(history.as_str())?;
    out.push_str(below)?;
    out.push_str("\n")?;
    Ok(())
}

/// A row, with what stands below it.
fn push_row(
    alloc: Global,
    out: &mut String,
    names: Names<'_>,
    setup: usize,
    judged: &JudgedRow<'_>,
) -> Result<(), TranslationFault>
    ensures text { OnOk result (string_bytes out.new ≡ string_bytes out.old ++
        row_text (names_of names.entry) (thread_names names.entry.program.now) setup judged.now) }
    ensures only { IfErr result (λ e. (e ≡ Memory) ⊎ (e ≡ ResultTooLong)) }
    ensures long { IsErrOf result ResultTooLong → most_steps < length (schedule_of setup judged.now.row) }
{
    push_row_with(alloc, out, names, setup, judged, judged.below())
}

/// Whether a history of a set has no legal order, or a history isn't linearizable.
fn is_wrong(verdict: Verdict, linearity: Linearity) -> bool
    ensures { result ≡ is_wrong verdict linearity }
{
    match verdict {
        Verdict::Illegal => true,
        Verdict::Legal | Verdict::TooManyTrapped | Verdict::NotOneSet => is_not_linearizable(
            linearity,
        ),
    }
}

/// Whether a row is printed.
fn is_shown(illegal: bool, judged: &JudgedRow<'_>) -> bool
    ensures { result ≡ is_shown illegal judged.now }
{
    if illegal {
        is_wrong(judged.verdict(), judged.linearity())
    } else {
        true
    }
}

/// The rows that are printed, one after another.
pub(crate) fn push_rows(
    alloc: Global,
    out: &mut String,
    names: Names<'_>,
    setup: usize,
    judged: &[JudgedRow<'_>],
    exploring: Exploring,
) -> Result<(), TranslationFault>
    ensures text { OnOk result (string_bytes out.new ≡ string_bytes out.old ++
        rows_text (names_of names.entry) (thread_names names.entry.program.now) setup (shown exploring judged.now)) }
    ensures only { IfErr result (λ e. (e ≡ Memory) ⊎ (e ≡ ResultTooLong)) }
    ensures long { IsErrOf result ResultTooLong → HasLong setup (rows_of judged.now) }
{
    for one in judged {
        if !is_shown(exploring.illegal, one) {
            continue;
        }
        push_row(alloc, out, names, setup, one)?;
        if exploring.first {
            return Ok(());
        }
    }
    Ok(())
}

/// How many states were kept, and how many histories there are.
fn push_counts(out: &mut String, states: usize, histories: usize) -> Result<(), AllocError>
    ensures { OnOk result (string_bytes out.new ≡ string_bytes out.old ++ counts_text states histories) }
{
    write!(out, "states {states} histories {histories}")?;
    Ok(())
}

/// How many histories are not linearizable, where that is known of each.
fn push_linear(out: &mut String, known: bool, count: usize) -> Result<(), AllocError>
    ensures { OnOk result (string_bytes out.new ≡ string_bytes out.old ++ linear_text known count) }
{
    if known {
        write!(out, " not linearizable {count}")?;
    }
    Ok(())
}

/// How many histories have no legal order. That none has is said only if each verdict says if there is one.
fn push_illegal(out: &mut String, decided: bool, count: usize) -> Result<(), AllocError>
    ensures { OnOk result (string_bytes out.new ≡ string_bytes out.old ++ illegal_text decided count) }
{
    if count > 0 {
        write!(out, " illegal {count}")?;
        return Ok(());
    }
    if decided {
        out.push_str(" illegal 0")?;
    }
    Ok(())
}

/// That not all states were kept. If fewer were kept than may be, they have too many objects; else they were too many.
pub fn cut_words(limit: usize, states: usize) -> &'static str
    ensures { result.now ≡ cut_text limit states }
{
    if states < limit {
        " cut: too many objects\n"
    } else {
        " cut\n"
    }
}

/// Whether the histories are complete, and whether a schedule runs out of cells.
fn end_words(limit: usize, states: usize, complete: bool, roomy: bool) -> &'static str
    ensures { result.now ≡ end_text limit states complete roomy }
{
    if !complete {
        return cut_words(limit, states);
    }
    if roomy {
        return " complete\n";
    }
    " complete in these cells\n"
}

/// The last line: how many states were kept, how many histories there are, how many of them have no legal order or are
/// not linearizable, and whether they are complete.
pub(crate) fn push_last(
    out: &mut String,
    judged: &[JudgedRow<'_>],
    limit: usize,
    found: &ImageExploration,
) -> Result<(), AllocError>
    ensures { OnOk result (string_bytes out.new ≡ string_bytes out.old ++
        last_text limit found.now.states judged.now found.now.complete found.now.roomy) }
{
    push_counts(out, found.states, judged.len())?;
    push_illegal(out, are_decided(judged), count_illegal(judged))?;
    push_linear(out, are_known(judged), count_not_linearizable(judged))?;
    let words = end_words(limit, found.states, found.complete, found.roomy);
    out.push_str(words)
}
