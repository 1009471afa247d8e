// Whether calls that are pending never end either where calls run one at a time.

ghost use Rattle.std.specs.Prelude.{◌≡◌, ℕ, IfOk, IsTrue, Some, slice_get, true};
ghost use Rattle.std.specs.declared.vec.Vec.{Vec as VecValue};
ghost use Rattle.std.specs.declared.alloc.Global.{Global as GlobalValue};
ghost use Rattle.ls_checked.specs.CheckedTree.{File as FileValue};
ghost use Rattle.ls_checked.specs.CheckedProgram.{Program as ProgramValue};
ghost use Rattle.ls_checked.specs.Plain.{plain_file};
ghost use Rattle.ls_checked.specs.PlainProgram.{plain_program};
ghost use Rattle.ls_events.specs.declared.event.Event.{Event as EventValue};
ghost use Rattle.ls_meaning.specs.Runs.{source_history};
ghost use Rattle.ls_serial_search.specs.Endless.{TellEndlessRuns};
ghost use Rattle.ls_serial_search.specs.Histories.{lists_of};
ghost use Rattle.ls_endless_calls.specs.Laws.{NeverEndsSo};
ghost use Rattle.ls_endless_calls.specs.Waits.{AreExcused, IsPending, IsUnexcused};

use crate::first_unexcused;
use crate::laws::runs_decide;
use ls_checked::program::Program;
use ls_checked::tree::File;
use ls_events::event::Event;
use ls_events::schedule::Schedule;
use ls_serial_search::endless::EndlessRuns;
use ls_source::run::play;
use std::alloc::{AllocError, Global};

/// Whether each call that is pending in a history is the last of one of the runs. True only where it is so.
fn is_excused(runs: &[Vec<Event>], history: &[Event]) -> bool
    ensures { IsTrue result → AreExcused (lists_of runs.now) history.now }
{
    match first_unexcused(runs, history) {
        None => true,
        Some(_) => false,
    }
}

/// Whether a call that is pending in a history isn't the last of one of the runs. True only where one isn't.
fn has_unexcused(runs: &[Vec<Event>], history: &[Event]) -> bool
    ensures { IsTrue result → (place : ℕ) × IsUnexcused (lists_of runs.now) history.now place }
{
    match first_unexcused(runs, history) {
        Some(_) => true,
        None => false,
    }
}

/// Whether each call that is pending in a history is the last of one of the runs, for each of some histories.
pub(crate) fn excused_of(
    alloc: Global,
    runs: &[Vec<Event>],
    histories: &[Vec<Event>],
) -> Result<Vec<bool>, AllocError>
    ensures { IfOk result (λ v. (i : ℕ) (h : VecValue EventValue GlobalValue) →
        slice_get histories.now i ≡ Some h → slice_get v.items i ≡ Some true →
        AreExcused (lists_of runs.now) h.items) }
{
    let mut excused = Vec::new(alloc);
    for at in 0..histories.len() {
        excused.push(is_excused(runs, histories[at].as_slice()))?;
    }
    Ok(excused)
}

/// Whether after a schedule a call is pending that doesn't end never in calls of a specification that run one at a
/// time. True only where one is, and the runs are all of the specification's.
pub(crate) fn is_unexcused(
    alloc: Global,
    file: &File,
    program: &Program,
    endless: &EndlessRuns,
    schedule: &Schedule,
) -> Result<bool, AllocError>
    ensures { IfOk result (λ b. IsTrue b → (sfile : FileValue) (sprogram : ProgramValue) →
        (endless.now.complete ≡ true → TellEndlessRuns sfile sprogram (lists_of endless.now.runs.items)) →
        (c : EventValue)
        × IsPending (source_history (plain_file file.now) (plain_program program.now) schedule.now) c
        × (NeverEndsSo sfile sprogram
        (source_history (plain_file file.now) (plain_program program.now) schedule.now) c → ⊥)) }
{
    runs_decide();
    if !endless.complete {
        return Ok(false);
    }
    let history = play(alloc, file, program, schedule.steps())?;
    Ok(has_unexcused(&endless.runs, history.as_slice()))
}
