// States of a program between calls that run one at a time, each by steps that lead there.

ghost use Rattle.std.specs.Prelude.{◌≡◌, ◌<◌, [], IfOk, IfSome, length};
ghost use Rattle.ls_checked.specs.Plain.{plain_file};
ghost use Rattle.ls_checked.specs.PlainProgram.{plain_program};
ghost use Rattle.ls_meaning.specs.Runs.{source_history};
ghost use Rattle.ls_search_laws.specs.Stepping.{ActAll};
ghost use Rattle.ls_serial.specs.Serial.{IsSerial};
ghost use Rattle.ls_serial_search.specs.Marks.{IsMarkOf};
ghost use Rattle.ls_serial_search.specs.Orders.{progress_at};
ghost use Rattle.ls_source.specs.Stands.{StandsFor};
ghost use Rattle.ls_automaton.specs.Spots.{AreFirst, AreSpots, IsLastOf, IsMarkedAt, IsNumbered, MayBePushed};

use crate::outcome::Outcome;
use ls_checked::program::Program;
use ls_checked::tree::File;
use ls_events::event::Event;
use ls_observers::hashing::hashed;
use ls_serial_search::following::Task;
use ls_serial_search::marks::Mark;
use ls_serial_search::playing::played_along;
use ls_source::playing::Playing;
use ls_transitions::hash_index::HashIndex;
use ls_transitions::hashing::{hash_of_store, hash_of_thread};
use std::alloc::{AllocError, Global};

/// A state: steps that lead there, and where the run stands after them.
#[derive(Drop)]
pub(crate) struct Spot<'a> {
    pub(crate) steps: Vec<u8>,
    pub(crate) mark: Mark<'a>,
}

/// States by number, and the places of numbers made of them, by which they are found.
#[derive(Drop)]
pub(crate) struct Spots<'a> {
    pub(crate) list: Vec<Spot<'a>>,
    index: HashIndex,
}

/// A number made of where a run stands. Nothing depends on it.
fn hash_of_run(run: &Playing<'_>) -> u64 {
    let mut hash = hash_of_store(&run.store_and_events.store);
    for thread in &run.threads {
        hash = hashed(hash, hash_of_thread(thread));
    }
    hash
}

/// The number of the state in which a run stands, from which this hash is made, if it is one of these.
fn number_of<'a>(spots: &Spots<'a>, hash: u64, run: &Playing<'a>) -> Option<usize>
    ensures { IfSome result (λ n. IsMarkedAt spots.now.list.items n run.now) }
{
    let mut next = spots.index.last(hash);
    for _ in 0..spots.list.len() {
        let n = next?;
        if n < spots.list.len() && spots.list[n].mark.is_at(run) {
            return Some(n);
        }
        next = spots.index.before(n);
    }
    None
}

/// The state after these steps, which the run has made. The only refusal is that memory ran out.
fn spot_of<'a>(alloc: Global, steps: Vec<u8>, run: &Playing<'a>) -> Result<Spot<'a>, AllocError>
    ensures steps { IfOk result (λ s. s.steps ≡ steps) }
    ensures mark { IfOk result (λ s. IsMarkOf s.mark run.now) }
{
    let mark = Mark::of(alloc, run)?;
    Ok(Spot { steps, mark })
}

/// The state in which nothing has run. The only refusal is that memory ran out.
fn first_spot<'a>(alloc: Global, run: &Playing<'a>) -> Result<Spot<'a>, AllocError>
    ensures steps { IfOk result (λ s. s.steps.items ≡ []) }
    ensures mark { IfOk result (λ s. IsMarkOf s.mark run.now) }
{
    let spot = spot_of(alloc, Vec::new(alloc), run)?;
    Ok(spot)
}

/// That state alone. The only refusal is that memory ran out.
pub(crate) fn first_spots<'a>(alloc: Global, task: &Task<'a>) -> Result<Spots<'a>, AllocError>
    ensures { IfOk result (λ s. AreFirst (plain_file task.now.file.now) (plain_program task.now.program.now)
        s.list.items) }
{
    let run = played_along(alloc, task.file, task.program, &[])?;
    let mut list = Vec::new(alloc);
    list.push(first_spot(alloc, &run)?)?;
    let mut index = HashIndex::new(alloc);
    index.add(alloc, hash_of_run(&run))?;
    Ok(Spots { list, index })
}

/// The last of these events.
fn last_of(events: &[Event]) -> Event
    requires { 0 < length events.now }
    ensures { IsLastOf events.now result }
{
    events[events.len() - 1]
}

/// The number of the state after these steps, which the run has made. The only refusal is that memory ran out.
fn numbered<'a>(
    alloc: Global,
    task: &Task<'a>,
    spots: &mut Spots<'a>,
    steps: Vec<u8>,
    run: &Playing<'a>,
) -> Result<usize, AllocError>
    requires spots { AreSpots (plain_file task.now.file.now) (plain_program task.now.program.now) spots.old.list.items }
    requires serial { IsSerial (source_history (plain_file task.now.file.now) (plain_program task.now.program.now)
        steps.items) }
    requires acts { ActAll (plain_file task.now.file.now) (plain_program task.now.program.now) steps.items }
    requires run { StandsFor run.now (progress_at (plain_file task.now.file.now) (plain_program task.now.program.now)
        steps.items) }
    ensures number { IfOk result (λ n. IsNumbered (plain_file task.now.file.now) (plain_program task.now.program.now)
        spots.old.list.items spots.new.list.items steps.items n) }
    ensures pushed { IfOk result (λ n. MayBePushed spots.old.list.items spots.new.list.items steps.items) }
{
    let hash = hash_of_run(run);
    if let Some(number) = number_of(spots, hash, run) {
        return Ok(number);
    }
    let number = spots.list.len();
    let spot = spot_of(alloc, steps, run)?;
    spots.list.push(spot)?;
    spots.index.add(alloc, hash)?;
    Ok(number)
}

/// What the call did with which these steps end, and the state after it. The run has made them. The only refusal is
/// that memory ran out.
pub(crate) fn reached<'a>(
    alloc: Global,
    task: &Task<'a>,
    spots: &mut Spots<'a>,
    steps: Vec<u8>,
    run: Playing<'a>,
) -> Result<Outcome, AllocError>
    requires spots { AreSpots (plain_file task.now.file.now) (plain_program task.now.program.now) spots.old.list.items }
    requires serial { IsSerial (source_history (plain_file task.now.file.now) (plain_program task.now.program.now)
        steps.items) }
    requires acts { ActAll (plain_file task.now.file.now) (plain_program task.now.program.now) steps.items }
    requires some { 0 < length (source_history (plain_file task.now.file.now) (plain_program task.now.program.now)
        steps.items) }
    requires run { StandsFor run (progress_at (plain_file task.now.file.now) (plain_program task.now.program.now)
        steps.items) }
    ensures after { IfOk result (λ o. IsNumbered (plain_file task.now.file.now) (plain_program task.now.program.now)
        spots.old.list.items spots.new.list.items steps.items o.after) }
    ensures end { IfOk result (λ o. IsLastOf (source_history (plain_file task.now.file.now)
        (plain_program task.now.program.now) steps.items) o.end) }
    ensures pushed { IfOk result (λ o. MayBePushed spots.old.list.items spots.new.list.items steps.items) }
{
    let after = numbered(alloc, task, spots, steps, &run)?;
    let history = run.into_history();
    let end = last_of(history.as_slice());
    Ok(Outcome { end, after })
}
