// Runs that stand after schedules.

ghost use Rattle.std.specs.Prelude.{◌≡◌, IfOk};
ghost use Rattle.ls_checked.specs.Plain.{plain_file};
ghost use Rattle.ls_checked.specs.PlainProgram.{plain_program};
ghost use Rattle.ls_source.specs.Progress.{Progress};
ghost use Rattle.ls_source.specs.Stands.{StandsFor};
ghost use Rattle.ls_serial_search.specs.Orders.{progress_at};
ghost use Rattle.ls_serial_search.specs.Parked.{IsParked};

use crate::following::Task;
use crate::marks::copy_threads;
use crate::playing::played;
use ls_events::event::Event;
use ls_events::schedule::Schedule;
use ls_source::playing::Playing;
use ls_source::store_and_events::StoreAndEvents;
use ls_transitions::stores::copy_store;
use std::alloc::{AllocError, Global};

/// The events once more. The only refusal is that memory ran out.
fn copy_events(alloc: Global, events: &[Event]) -> Result<Vec<Event>, AllocError>
    ensures { IfOk result (λ v. v.items ≡ events.now) }
{
    let mut copies = Vec::new(alloc);
    copies.extend_from_slice(events)?;
    Ok(copies)
}

/// A run that stands where another one does. The only refusal is that memory ran out.
pub(crate) fn copied<'a>(alloc: Global, run: &Playing<'a>) -> Result<Playing<'a>, AllocError>
    ensures { IfOk result (λ r. (p : Progress) → StandsFor run.now p → StandsFor r p) }
{
    let store = copy_store(alloc, &run.store_and_events.store)?;
    let events = copy_events(alloc, &run.store_and_events.events)?;
    let threads = copy_threads(alloc, &run.threads)?;
    Ok(Playing {
        file: run.file,
        program: run.program,
        store_and_events: StoreAndEvents { store, events },
        threads,
    })
}

/// The run after a schedule of a task: a copy of the one that is parked, if one is. The only refusal is that memory ran
/// out.
pub(crate) fn standing<'a>(
    alloc: Global,
    task: &Task<'a>,
    schedule: &Schedule,
    parked: &Option<Playing<'a>>,
) -> Result<Playing<'a>, AllocError>
    requires { IsParked (plain_file task.now.file.now) (plain_program task.now.program.now) schedule.now parked.now }
    ensures { IfOk result (λ r. StandsFor r
        (progress_at (plain_file task.now.file.now) (plain_program task.now.program.now) schedule.now)) }
{
    match parked {
        Some(run) => Ok(copied(alloc, run)?),
        None => played(alloc, task.file, task.program, schedule),
    }
}
