// Of the rows without a legal order, the shortest beginning of a schedule that has none.

ghost use Rattle.ls_events.specs.Limits.{most_steps};
ghost use Rattle.std.specs.Prelude.{◌≡◌, ◌≤◌, ◌<◌, ◌⊎◌, ◌++◌, ◌∷◌, ℕ, [], All, IfErr, IfOk, IsErrOf, List, None, OnOk};
ghost use Rattle.std.specs.Prelude.{Option};
ghost use Rattle.std.specs.Prelude.{false, length, string_bytes, take, true};
ghost use Rattle.ls_checked.specs.Plain.{plain_file};
ghost use Rattle.ls_checked.specs.PlainProgram.{plain_program};
ghost use Rattle.ls_verdicts.specs.Cuts.{IsLeastOf};
ghost use Rattle.ls_labels.specs.Names.{names_of};
ghost use Rattle.ls_meaning.specs.Runs.{source_history};
ghost use Rattle.ls_schedule.specs.Reading.{thread_names};
ghost use Rattle.ls_explore.specs.Tellings.{schedule_of};
ghost use Rattle.ls_explore_reports.specs.Below.{HasNames, IsBelow};
ghost use Rattle.ls_explore_reports.specs.Cuts.{IsSo, beginning_text, known_text, parts_text, schedules_of};
ghost use Rattle.ls_explore_reports.specs.Cuts.{with_known};
ghost use Rattle.ls_explore_reports.specs.Printing.{row_text};
ghost use Rattle.ls_explore_reports.specs.Judged.{rows_of};
ghost use Rattle.ls_explore_reports.specs.Long.{HasLong};
ghost use Rattle.ls_translation.specs.declared.fault.TranslationFault.TheVariants.{Memory, ResultTooLong};

use crate::below::{below, known_if};
use crate::judging::{JudgedRow, is_illegal};
use crate::printing::{push_row_with, schedule_of};
use ls_events::schedule::Schedule;
use ls_labels::names::Names;
use ls_report::print_history;
use ls_schedule::print_schedule;
use ls_source::run::play;
use ls_translation::fault::TranslationFault;
use ls_verdicts::{Cut, least_with};
use std::alloc::{AllocError, Global};

/// The cut with the fewest steps, of those of some rows and of one more, whose place is their number.
fn least_with_row(
    alloc: Global,
    names: Names<'_>,
    setup: usize,
    least: Option<Cut>,
    place: usize,
    judged: &JudgedRow<'_>,
) -> Result<Option<Cut>, TranslationFault>
    requires { IsSo (plain_file names.file.now) (plain_program names.program.now) setup judged.now }
    ensures least { IfOk result (λ cut. (schedules : List (List ℕ)) → length schedules ≡ place →
        IsLeastOf (plain_file names.entry.file.now) (plain_program names.entry.program.now) schedules least →
        IsLeastOf (plain_file names.entry.file.now) (plain_program names.entry.program.now)
        (schedules ++ schedule_of setup judged.now.row ∷ []) cut) }
    ensures only { IfErr result (λ e. (e ≡ Memory) ⊎ (e ≡ ResultTooLong)) }
    ensures long { IsErrOf result ResultTooLong → most_steps < length (schedule_of setup judged.now.row) }
{
    if !is_illegal(judged.verdict()) {
        return Ok(least);
    }
    let schedule = schedule_of(alloc, setup, judged.row())?;
    let cut = least_with(
        alloc,
        names.file,
        names.program,
        least,
        place,
        schedule.steps(),
    )?;
    Ok(cut)
}

/// The cut with the fewest steps, of those of the rows without a legal order.
fn least_of(
    alloc: Global,
    names: Names<'_>,
    setup: usize,
    judged: &[JudgedRow<'_>],
) -> Result<Option<Cut>, TranslationFault>
    requires { All (IsSo (plain_file names.file.now) (plain_program names.program.now) setup) judged.now }
    ensures least { IfOk result (IsLeastOf (plain_file names.entry.file.now) (plain_program names.entry.program.now)
        (schedules_of setup judged.now)) }
    ensures only { IfErr result (λ e. (e ≡ Memory) ⊎ (e ≡ ResultTooLong)) }
    ensures long { IsErrOf result ResultTooLong → HasLong setup (rows_of judged.now) }
{
    let mut least = None;
    for place in 0..judged.len() {
        least = least_with_row(alloc, names, setup, least, place, &judged[place])?;
    }
    Ok(least)
}

/// The same, if it is asked for.
pub(crate) fn least_if(
    alloc: Global,
    names: Names<'_>,
    setup: usize,
    judged: &[JudgedRow<'_>],
    wanted: bool,
) -> Result<Option<Cut>, TranslationFault>
    requires { All (IsSo (plain_file names.file.now) (plain_program names.program.now) setup) judged.now }
    ensures least { wanted ≡ true → IfOk result
        (IsLeastOf (plain_file names.entry.file.now) (plain_program names.entry.program.now)
        (schedules_of setup judged.now)) }
    ensures none { wanted ≡ false → IfOk result (λ cut. cut ≡ None) }
    ensures only { IfErr result (λ e. (e ≡ Memory) ⊎ (e ≡ ResultTooLong)) }
    ensures long { IsErrOf result ResultTooLong → HasLong setup (rows_of judged.now) }
{
    if !wanted {
        return Ok(None);
    }
    least_of(alloc, names, setup, judged)
}

/// Adds what is said, a schedule, a history's lines, what stands below it, an empty line.
fn push_parts(
    out: &mut String,
    head: &str,
    steps: &str,
    lines: &str,
    below: &str,
) -> Result<(), AllocError>
    ensures { OnOk result (string_bytes out.new ≡ string_bytes out.old ++
        parts_text head.now steps.now lines.now below.now) }
{
    out.push_str(head)?;
    out.push_str("\n")?;
    out.push_str(steps)?;
    out.push_str(lines)?;
    out.push_str(below)?;
    out.push_str("\n")
}

/// Adds what is said where it is known that no shorter schedule has a history without a legal order.
fn push_known(out: &mut String, known: bool) -> Result<(), AllocError>
    ensures { OnOk result (string_bytes out.new ≡ string_bytes out.old ++ known_text known) }
{
    if known {
        out.push_str("no shorter schedule is illegal\n")?;
    }
    Ok(())
}

/// The text of a schedule whose history has no legal order, and after which a thread acts. With `orders` what the
/// command `order` tells of the history stands below it. Below that it is said if it is known that none is shorter.
pub(crate) fn beginning(
    alloc: Global,
    names: Names<'_>,
    schedule: &Schedule,
    orders: bool,
    known: bool,
) -> Result<String, AllocError>
    requires { HasNames (plain_program names.program.now)
        (source_history (plain_file names.file.now) (plain_program names.program.now) schedule.now) }
    ensures { IfOk result (λ text. (below : List ℕ) ×
        IsBelow orders (plain_file names.entry.file.now) (plain_program names.entry.program.now)
        (source_history (plain_file names.entry.file.now) (plain_program names.entry.program.now) schedule.now) below
        × (string_bytes text ≡ beginning_text (names_of names.entry) (thread_names names.entry.program.now) schedule.now
        (below ++ known_text known))) }
{
    let history = play(alloc, names.file, names.program, schedule.steps())?;
    let serial = known_if(alloc, names.file, names.program, orders)?;
    let mut below = below(alloc, &serial, history.as_slice())?;
    push_known(&mut below, known)?;
    let steps = print_schedule(alloc, schedule, names.program)?;
    let lines = print_history(alloc, history.as_slice(), names.program)?;
    let mut out = String::new(alloc);
    let head = "goes on, illegal";
    push_parts(
        &mut out,
        head,
        steps.as_str(),
        lines.as_str(),
        below.as_str(),
    )?;
    Ok(out)
}

/// The first steps of a schedule.
pub(crate) fn first_steps(
    alloc: Global,
    schedule: &Schedule,
    count: usize,
) -> Result<Schedule, AllocError>
    requires { count ≤ length schedule.now }
    ensures { IfOk result (λ s. s ≡ take count schedule.now) }
{
    schedule.fits();
    let steps = schedule.steps()[..count].to_vec(alloc)?;
    Ok(Schedule::of(steps))
}

/// The text of a row. Below it it is said if it is known that no shorter schedule has a history without a legal order.
pub(crate) fn whole_row(
    alloc: Global,
    names: Names<'_>,
    setup: usize,
    judged: &JudgedRow<'_>,
    known: bool,
) -> Result<String, TranslationFault>
    ensures text { IfOk result (λ text. string_bytes text ≡ row_text (names_of names.entry)
        (thread_names names.entry.program.now) setup (with_known known judged.now)) }
    ensures only { IfErr result (λ e. (e ≡ Memory) ⊎ (e ≡ ResultTooLong)) }
    ensures long { IsErrOf result ResultTooLong → most_steps < length (schedule_of setup judged.now.row) }
{
    let mut below = String::new(alloc);
    below.push_str(judged.below())?;
    push_known(&mut below, known)?;
    let mut out = String::new(alloc);
    push_row_with(alloc, &mut out, names, setup, judged, below.as_str())?;
    Ok(out)
}
