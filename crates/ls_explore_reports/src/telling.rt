// What is printed of an exploration.

ghost use Rattle.std.specs.Prelude.{◌≡◌, ◌⊎◌, ◌&&◌, ◌++◌, All, IfErr, IfOk, IsErrOf, string_bytes, true};
ghost use Rattle.ls_checked.specs.Plain.{plain_file};
ghost use Rattle.ls_checked.specs.PlainProgram.{plain_program};
ghost use Rattle.ls_labels.specs.Names.{names_of};
ghost use Rattle.ls_schedule.specs.Reading.{thread_names};
ghost use Rattle.ls_verdicts.specs.Cuts.{IsLeast};
ghost use Rattle.ls_explore.specs.Tellings.{TellWhole};
ghost use Rattle.ls_explore_reports.specs.Cuts.{IsExploredText, IsOfLeast, IsPrinted, IsSo, schedules_of};
ghost use Rattle.ls_explore_reports.specs.Judged.{rows_of};
ghost use Rattle.ls_explore_reports.specs.Long.{HasLong};
ghost use Rattle.ls_explore_reports.specs.Printing.{last_text, rows_text, shown};
ghost use Rattle.ls_translation.specs.declared.fault.TranslationFault.TheVariants.{Memory, ResultTooLong};

use crate::cutting::{beginning, first_steps, least_if, whole_row};
use crate::judging::JudgedRow;
use crate::printing::{Exploring, push_last, push_rows, schedule_of};
use crate::shortest::shortest_illegal;
use ls_explore::ImageExploration;
use ls_labels::names::Names;
use ls_translation::fault::TranslationFault;
use ls_verdicts::Cut;
use std::alloc::Global;

/// Whether the row is printed that is cut first.
fn is_cut(exploring: Exploring) -> bool
    ensures { result ≡ (exploring.illegal && exploring.first) }
{
    exploring.illegal && exploring.first
}

/// The text of the rows that are shown.
fn shown_rows(
    alloc: Global,
    names: Names<'_>,
    setup: usize,
    judged: &[JudgedRow<'_>],
    exploring: Exploring,
) -> Result<String, TranslationFault>
    ensures text { IfOk result (λ text. string_bytes text ≡ rows_text (names_of names.entry)
        (thread_names names.entry.program.now) setup (shown exploring judged.now)) }
    ensures only { IfErr result (λ e. (e ≡ Memory) ⊎ (e ≡ ResultTooLong)) }
    ensures long { IsErrOf result ResultTooLong → HasLong setup (rows_of judged.now) }
{
    let mut out = String::new(alloc);
    push_rows(alloc, &mut out, names, setup, judged, exploring)?;
    Ok(out)
}

/// Whether the rows tell of every schedule.
fn is_whole(found: &ImageExploration) -> bool
    ensures { result ≡ (found.now.complete && found.now.roomy) }
{
    found.complete && found.roomy
}

/// What stands in place of the row that is cut first.
fn printed_cut(
    alloc: Global,
    names: Names<'_>,
    found: &ImageExploration,
    judged: &[JudgedRow<'_>],
    exploring: Exploring,
    cut: Cut,
) -> Result<String, TranslationFault>
    requires so { All (IsSo (plain_file names.file.now) (plain_program names.program.now) found.now.setup) judged.now }
    requires whole { found.now.complete ≡ true → found.now.roomy ≡ true →
        TellWhole (plain_file names.file.now) (plain_program names.program.now) (rows_of judged.now) }
    requires cut { IsLeast (plain_file names.file.now) (plain_program names.program.now)
        (schedules_of found.now.setup judged.now) cut }
    ensures text { IfOk result (λ text. IsOfLeast (names_of names.entry) (thread_names names.entry.program.now)
        found.now.setup judged.now exploring cut.steps (string_bytes text)) }
    ensures only { IfErr result (λ e. (e ≡ Memory) ⊎ (e ≡ ResultTooLong)) }
    ensures long { IsErrOf result ResultTooLong → HasLong found.now.setup (rows_of judged.now) }
{
    let row = &judged[cut.place];
    let schedule = schedule_of(alloc, found.setup, row.row())?;
    let first = first_steps(alloc, &schedule, cut.steps)?;
    let run = shortest_illegal(alloc, names, judged, exploring, is_whole(found), first)?;
    if run.schedule.len() < schedule.len() {
        let text = beginning(alloc, names, &run.schedule, exploring.order, run.shortest)?;
        return Ok(text);
    }
    whole_row(alloc, names, found.setup, row, run.shortest)
}

/// What is printed of the rows.
fn printed_rows(
    alloc: Global,
    names: Names<'_>,
    found: &ImageExploration,
    judged: &[JudgedRow<'_>],
    exploring: Exploring,
) -> Result<String, TranslationFault>
    requires so { All (IsSo (plain_file names.file.now) (plain_program names.program.now) found.now.setup) judged.now }
    requires whole { found.now.complete ≡ true → found.now.roomy ≡ true →
        TellWhole (plain_file names.file.now) (plain_program names.program.now) (rows_of judged.now) }
    ensures text { IfOk result (λ text. IsPrinted (names_of names.entry) (thread_names names.entry.program.now)
        found.now.setup judged.now exploring (string_bytes text)) }
    ensures only { IfErr result (λ e. (e ≡ Memory) ⊎ (e ≡ ResultTooLong)) }
    ensures long { IsErrOf result ResultTooLong → HasLong found.now.setup (rows_of judged.now) }
{
    match least_if(alloc, names, found.setup, judged, is_cut(exploring))? {
        Some(cut) => printed_cut(alloc, names, found, judged, exploring, cut),
        None => shown_rows(alloc, names, found.setup, judged, exploring),
    }
}

/// The text of an exploration, each of whose rows has its verdict. With `illegal` and `first`, if a row has no legal
/// order, the shortest beginning of the schedule of such a row that has none stands in place of the row. A shorter
/// schedule stands there, if one is found that has none and after which a thread acts. Below it it is said if it is
/// known that no schedule of the program that has none is shorter.
///
/// Refused where memory runs out, and where a row's schedule has over 1,000,000 steps.
pub fn print_exploration(
    alloc: Global,
    names: Names<'_>,
    found: &ImageExploration,
    judged: &[JudgedRow<'_>],
    exploring: Exploring,
) -> Result<String, TranslationFault>
    requires so { All (IsSo (plain_file names.file.now) (plain_program names.program.now) found.now.setup) judged.now }
    requires whole { found.now.complete ≡ true → found.now.roomy ≡ true →
        TellWhole (plain_file names.file.now) (plain_program names.program.now) (rows_of judged.now) }
    ensures text { IfOk result (λ text. IsExploredText (names_of names.entry) (thread_names names.entry.program.now)
        found.now.setup judged.now found.now.states found.now.complete found.now.roomy exploring (string_bytes text)) }
    ensures only { IfErr result (λ e. (e ≡ Memory) ⊎ (e ≡ ResultTooLong)) }
    ensures long { IsErrOf result ResultTooLong → HasLong found.now.setup (rows_of judged.now) }
{
    let mut out = printed_rows(alloc, names, found, judged, exploring)?;
    push_last(&mut out, judged, exploring.states, found)?;
    Ok(out)
}

/// The text of an exploration, each of whose rows is judged alone. Refused as `print_exploration` is.
pub fn print_rows(
    alloc: Global,
    names: Names<'_>,
    found: &ImageExploration,
    judged: &[JudgedRow<'_>],
    exploring: Exploring,
) -> Result<String, TranslationFault>
    ensures text { IfOk result (λ text. string_bytes text ≡
        rows_text (names_of names.entry) (thread_names names.entry.program.now) found.now.setup
        (shown exploring judged.now) ++
        last_text exploring.states found.now.states judged.now found.now.complete found.now.roomy) }
    ensures only { IfErr result (λ e. (e ≡ Memory) ⊎ (e ≡ ResultTooLong)) }
    ensures long { IsErrOf result ResultTooLong → HasLong found.now.setup (rows_of judged.now) }
{
    let mut out = shown_rows(alloc, names, found.setup, judged, exploring)?;
    push_last(&mut out, judged, exploring.states, found)?;
    Ok(out)
}
