// Calls that never end while no other thread goes on, after calls that ran one at a time.

ghost use Rattle.std.specs.Prelude.{◌≡◌, ◌⊎◌, ◌++◌, ◌∷◌, [], List, true, false, Contains, IfOk, OnOk, length};
ghost use Rattle.ls_checked.specs.Plain.{plain_file};
ghost use Rattle.ls_checked.specs.PlainProgram.{plain_program};
ghost use Rattle.ls_events.specs.declared.event.Event.{Event as EventValue};
ghost use Rattle.ls_meaning.specs.Runs.{source_history};
ghost use Rattle.ls_search_laws.specs.Stepping.{ActAll};
ghost use Rattle.ls_serial.specs.Serial.{IsSerial};
ghost use Rattle.ls_serial_search.specs.Following.{called};
ghost use Rattle.ls_serial_search.specs.Histories.{lists_of};
ghost use Rattle.ls_serial_search.specs.Orders.{progress_at};
ghost use Rattle.ls_source.specs.Stands.{StandsFor};
ghost use Rattle.ls_serial_search.specs.Open.{HasLongCall, HasManyOrders};
ghost use Rattle.ls_serial_search.specs.Endless.{AreEndlessRuns, HasTried, HaveTried, TellEndlessRuns};

use crate::following::{Followed, Task, follow};
use crate::playing::played;
use crate::searching::{both, search};
use crate::standing::standing;
use crate::telling::Bounds;
use ls_checked::program::Program;
use ls_checked::tree::File;
use ls_events::event::{Event, Happening};
use ls_events::schedule::Schedule;
use ls_source::playing::Playing;
use std::alloc::{AllocError, Global};

/// The history of a schedule, and then the beginning of a thread's call. The only refusal is that memory ran out.
fn begun_history(
    alloc: Global,
    task: &Task,
    schedule: &Schedule,
    thread: u8,
    call: usize,
) -> Result<Vec<Event>, AllocError>
    ensures { IfOk result (λ v. v.items ≡
        source_history (plain_file task.now.file.now) (plain_program task.now.program.now) schedule.now ++
        called thread call ∷ []) }
{
    let mut history = played(alloc, task.file, task.program, schedule)?.into_history();
    history.push(Event {
        thread: thread as usize,
        call,
        happening: Happening::Called,
    })?;
    Ok(history)
}

/// Adds that history.
fn push_begun(
    alloc: Global,
    task: &Task,
    schedule: &Schedule,
    thread: u8,
    call: usize,
    runs: &mut Vec<Vec<Event>>,
) -> Result<(), AllocError>
    ensures { OnOk result (lists_of runs.new.items ≡ lists_of runs.old.items ++
        (source_history (plain_file task.now.file.now) (plain_program task.now.program.now) schedule.now ++
        called thread call ∷ []) ∷ []) }
{
    let begun = begun_history(alloc, task, schedule, thread, call)?;
    runs.push(begun)?;
    Ok(())
}

/// Adds the history up to a thread's next call after a schedule, if the call never ends. Whether it is known whether it
/// ends. The only refusal is that memory ran out.
fn try_thread(
    alloc: Global,
    task: &Task,
    schedule: &Schedule,
    run: &Playing<'_>,
    thread: u8,
    runs: &mut Vec<Vec<Event>>,
) -> Result<bool, AllocError>
    requires { StandsFor run.now
        (progress_at (plain_file task.now.file.now) (plain_program task.now.program.now) schedule.now) }
    ensures endless { OnOk result (
        IsSerial (source_history (plain_file task.now.file.now) (plain_program task.now.program.now) schedule.now) →
        AreEndlessRuns (plain_file task.now.file.now) (plain_program task.now.program.now) (lists_of runs.old.items) →
        AreEndlessRuns (plain_file task.now.file.now) (plain_program task.now.program.now)
        (lists_of runs.new.items)) }
    ensures kept { OnOk result ((run : List EventValue) → Contains (lists_of runs.old.items) run →
        Contains (lists_of runs.new.items) run) }
    ensures tried { IfOk result (λ known. known ≡ true →
        HasTried (plain_file task.now.file.now) (plain_program task.now.program.now) (lists_of runs.new.items)
        schedule.now thread) }
    ensures why { IfOk result (λ known. known ≡ false →
        IsSerial (source_history (plain_file task.now.file.now) (plain_program task.now.program.now) schedule.now) →
        ActAll (plain_file task.now.file.now) (plain_program task.now.program.now) schedule.now →
        HasLongCall (plain_file task.now.file.now) (plain_program task.now.program.now) task.now.most_steps) }
{
    let further = follow(alloc, task, schedule, run, thread, task.most_steps)?;
    match further.followed {
        Followed::Waits(call, _) => {
            push_begun(alloc, task, schedule, thread, call, runs)?;
            Ok(true)
        }
        Followed::Turns(call) => {
            push_begun(alloc, task, schedule, thread, call, runs)?;
            Ok(true)
        }
        Followed::Stays => Ok(true),
        Followed::Ends(_) => Ok(true),
        Followed::GoesOn => Ok(false),
    }
}

/// The same of each thread.
fn try_threads(
    alloc: Global,
    task: &Task,
    schedule: &Schedule,
    run: &Playing<'_>,
    runs: &mut Vec<Vec<Event>>,
) -> Result<bool, AllocError>
    requires { StandsFor run.now
        (progress_at (plain_file task.now.file.now) (plain_program task.now.program.now) schedule.now) }
    ensures endless { OnOk result (
        IsSerial (source_history (plain_file task.now.file.now) (plain_program task.now.program.now) schedule.now) →
        AreEndlessRuns (plain_file task.now.file.now) (plain_program task.now.program.now) (lists_of runs.old.items) →
        AreEndlessRuns (plain_file task.now.file.now) (plain_program task.now.program.now)
        (lists_of runs.new.items)) }
    ensures kept { OnOk result ((run : List EventValue) → Contains (lists_of runs.old.items) run →
        Contains (lists_of runs.new.items) run) }
    ensures tried { IfOk result (λ known. known ≡ true →
        HaveTried (plain_file task.now.file.now) (plain_program task.now.program.now) (lists_of runs.new.items)
        schedule.now (length task.now.program.now.threads.items)) }
    ensures why { IfOk result (λ known. known ≡ false →
        IsSerial (source_history (plain_file task.now.file.now) (plain_program task.now.program.now) schedule.now) →
        ActAll (plain_file task.now.file.now) (plain_program task.now.program.now) schedule.now →
        HasLongCall (plain_file task.now.file.now) (plain_program task.now.program.now) task.now.most_steps) }
{
    let mut all = true;
    for thread in 0..task.program.threads.len() {
        let known = try_thread(alloc, task, schedule, run, thread as u8, runs)?;
        all = both(all, known);
    }
    Ok(all)
}

/// Histories of calls that run one at a time, up to one that never ends.
#[derive(Drop)]
pub struct EndlessRuns {
    pub runs: Vec<Vec<Event>>,
    /// Whether no bound was met. Then they are all. Else a call alone doesn't end within the most steps, or there are
    /// too many orders.
    pub complete: bool,
}

/// Searches the histories of a program in which calls run one at a time, up to one that never ends while no other
/// thread goes on: its thread waits, or turns for ever. The source alone is run, with no cells. The only refusal is
/// that memory ran out.
pub fn endless_runs(
    alloc: Global,
    file: &File,
    program: &Program,
    bounds: &Bounds,
) -> Result<EndlessRuns, AllocError>
    ensures endless { IfOk result (λ s. AreEndlessRuns (plain_file file.now) (plain_program program.now)
        (lists_of s.runs.items)) }
    ensures all { IfOk result (λ s. s.complete ≡ true →
        TellEndlessRuns (plain_file file.now) (plain_program program.now) (lists_of s.runs.items)) }
    ensures why { IfOk result (λ s. s.complete ≡ false →
        HasManyOrders (plain_file file.now) (plain_program program.now) bounds.now.orders
        ⊎ HasLongCall (plain_file file.now) (plain_program program.now) bounds.now.steps) }
{
    let task = Task {
        file,
        program,
        most_steps: bounds.steps,
    };
    let known = search(alloc, &task, bounds.orders)?;
    let mut runs = Vec::new(alloc);
    let mut complete = known.complete;
    for at in 0..known.orders.schedules.len() {
        let schedule = &known.orders.schedules[at];
        let run = standing(alloc, &task, schedule, &known.orders.runs[at])?;
        let tried = try_threads(alloc, &task, schedule, &run, &mut runs)?;
        complete = both(complete, tried);
    }
    Ok(EndlessRuns { runs, complete })
}
