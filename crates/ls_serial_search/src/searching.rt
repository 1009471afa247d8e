// The search: after each order of calls, what comes of each thread's next call.

ghost use Rattle.std.specs.Prelude.{◌≡◌, ◌+◌, ◌++◌, ◌<◌, ◌≤◌, ◌⊎◌, ◌∷◌, [], ℕ, true, false, Contains, IfOk, List, OnOk};
ghost use Rattle.std.specs.Prelude.{Some, length, slice_get};
ghost use Rattle.ls_checked.specs.CheckedProgram.{Program as ProgramValue};
ghost use Rattle.ls_checked.specs.CheckedTree.{File as FileValue};
ghost use Rattle.ls_checked.specs.Plain.{plain_file};
ghost use Rattle.ls_checked.specs.PlainProgram.{plain_program};
ghost use Rattle.ls_meaning.specs.Runs.{source_history};
ghost use Rattle.ls_search_laws.specs.Stepping.{ActAll};
ghost use Rattle.ls_serial.specs.Serial.{IsSerial};
ghost use Rattle.ls_source.specs.Stands.{StandsFor};
ghost use Rattle.ls_serial_search.specs.Following.{IsFollowed};
ghost use Rattle.ls_serial_search.specs.Open.{HasLongCall, IsLongAfter};
ghost use Rattle.ls_serial_search.specs.Orders.{progress_at};
ghost use Rattle.ls_serial_search.specs.Searched.{AreActing, AreSerial, IsSearched};
ghost use Rattle.ls_serial_search.specs.Parked.{AreParked, IsParked};
ghost use Rattle.ls_serial_search.specs.Told.{AreMore};
ghost use Rattle.ls_serial_search.specs.Tree.{AreApart, IsTree};

use crate::following::{Followed, Further, Task, follow};
use crate::playing::{played, with_steps};
use crate::standing::standing;
use ls_events::schedule::{MOST_STEPS, Schedule};
use ls_source::playing::Playing;
use ls_source_store::thing::Thing;
use std::alloc::{AllocError, Global};

/// Schedules of calls that run one at a time.
#[derive(Drop)]
pub(crate) struct Orders<'a> {
    pub(crate) schedules: Vec<Schedule>,
    /// The run after each of them, where it is parked.
    pub(crate) runs: Vec<Option<Playing<'a>>>,
    /// How many values the stores of the runs have.
    values: usize,
}

/// Such schedules, and whether the next call of each thread was followed after each of them.
#[derive(Drop)]
pub(crate) struct Known<'a> {
    pub(crate) orders: Orders<'a>,
    pub(crate) complete: bool,
    /// Whether there were too many of them.
    pub(crate) many: bool,
}

/// The most values that the stores of parked runs have together, but for those of the last of them: some 30 MB.
const MOST_PARKED: usize = 400_000;

/// How many values a thing has, and one for itself.
fn values_of(thing: &Thing) -> usize {
    let values = match thing {
        Thing::Object { monitor: _, fields } => fields.len(),
        Thing::Lock(_) | Thing::Markable(_) => 0,
        Thing::Array { size: _, items } => items.len(),
    };
    values.saturating_add(1)
}

/// How many values the store of a run has, and one for the run.
fn values_in(run: &Playing<'_>) -> usize {
    let mut values: usize = 1;
    for thing in run.store_and_events.store.things.iter() {
        values = values.saturating_add(values_of(thing));
    }
    values
}

/// The run, if the stores of those that are parked have few values.
fn parked_within<'a>(values: usize, run: Playing<'a>) -> Option<Playing<'a>>
    ensures { (file : FileValue) (program : ProgramValue) (schedule : List ℕ) →
        StandsFor run.entry (progress_at file program schedule) → IsParked file program schedule result }
{
    if values < MOST_PARKED {
        return Some(run);
    }
    None
}

/// Adds a schedule and the run after it. The run is parked while those that were added have few values. The only
/// refusal is that memory ran out.
fn add<'a>(orders: &mut Orders<'a>, schedule: Schedule, run: Playing<'a>) -> Result<(), AllocError>
    ensures schedules { OnOk result (orders.new.schedules.items ≡ orders.old.schedules.items ++ schedule ∷ []) }
    ensures parked { OnOk result ((file : FileValue) (program : ProgramValue) →
        StandsFor run.entry (progress_at file program schedule) →
        AreParked file program orders.old.schedules.items orders.old.runs.items →
        AreParked file program orders.new.schedules.items orders.new.runs.items) }
{
    let values = values_in(&run);
    orders.runs.push(parked_within(orders.values, run))?;
    orders.values = orders.values.saturating_add(values);
    orders.schedules.push(schedule)?;
    Ok(())
}

/// The empty schedule, and the run before any step. The only refusal is that memory ran out.
fn first<'a>(alloc: Global, task: &Task<'a>) -> Result<Orders<'a>, AllocError>
    ensures schedules { IfOk result (λ o. o.schedules.items ≡ [] ∷ []) }
    ensures parked { IfOk result (λ o. AreParked (plain_file task.now.file.now) (plain_program task.now.program.now)
        o.schedules.items o.runs.items) }
{
    let mut orders = Orders {
        schedules: Vec::new(alloc),
        runs: Vec::new(alloc),
        values: 0,
    };
    let schedule = Schedule::new(alloc);
    let run = played(alloc, task.file, task.program, &schedule)?;
    add(&mut orders, schedule, run)?;
    Ok(orders)
}

/// Whether both hold.
pub(crate) fn both(one: bool, other: bool) -> bool
    ensures hold { result ≡ true → (one ≡ true) × (other ≡ true) }
    ensures fail { result ≡ false → (one ≡ false) ⊎ (other ≡ false) }
{
    one && other
}

/// The least of two numbers.
pub(crate) fn least(one: usize, other: usize) -> usize
    ensures { (result ≤ one) × (result ≤ other) × ((result ≡ one) ⊎ (result ≡ other)) }
{
    if one < other { one } else { other }
}

/// Follows a thread's next call after a schedule, and adds the schedule with this call if it ends. Whether it was
/// followed to where it ends. The only refusal is that memory ran out.
fn follow_thread<'a>(
    alloc: Global,
    task: &Task<'a>,
    known: &mut Orders<'a>,
    schedule: &Schedule,
    run: &Playing<'a>,
    thread: u8,
) -> Result<bool, AllocError>
    requires { StandsFor run.now
        (progress_at (plain_file task.now.file.now) (plain_program task.now.program.now) schedule.now) }
    ensures more { OnOk result (Contains known.old.schedules.items schedule.now →
        AreMore (plain_file task.now.file.now) (plain_program task.now.program.now) known.old.schedules.items
        known.new.schedules.items) }
    ensures followed { IfOk result (λ b. b ≡ true →
        IsFollowed (plain_file task.now.file.now) (plain_program task.now.program.now) known.new.schedules.items
        schedule.now
        thread) }
    ensures long { IfOk result (λ b. b ≡ false →
        IsSerial (source_history (plain_file task.now.file.now) (plain_program task.now.program.now) schedule.now) →
        ActAll (plain_file task.now.file.now) (plain_program task.now.program.now) schedule.now →
        IsLongAfter (plain_file task.now.file.now) (plain_program task.now.program.now) task.now.most_steps
        schedule.now thread) }
    ensures tree { OnOk result ((place : ℕ) → slice_get known.old.schedules.items place ≡ Some schedule.now →
        IsTree (plain_file task.now.file.now) (plain_program task.now.program.now) known.old.schedules.items place
        thread →
        IsTree (plain_file task.now.file.now) (plain_program task.now.program.now) known.new.schedules.items place
        (thread + 1)) }
    ensures parked { OnOk result (
        AreParked (plain_file task.now.file.now) (plain_program task.now.program.now) known.old.schedules.items
        known.old.runs.items →
        AreParked (plain_file task.now.file.now) (plain_program task.now.program.now) known.new.schedules.items
        known.new.runs.items) }
{
    schedule.fits();
    let most = least(task.most_steps, MOST_STEPS - schedule.len());
    let Further { followed, run } = follow(alloc, task, schedule, run, thread, most)?;
    let steps = match followed {
        Followed::Stays => return Ok(true),
        Followed::Waits(_, _) => return Ok(true),
        Followed::Turns(_) => return Ok(true),
        Followed::Ends(steps) => steps,
        Followed::GoesOn => return Ok(false),
    };
    let longer = with_steps(alloc, schedule, thread, steps)?;
    add(known, longer, run)?;
    Ok(true)
}

/// Follows each thread's next call after a schedule. Whether all were followed to where they end. The only refusal is
/// that memory ran out.
fn follow_threads<'a>(
    alloc: Global,
    task: &Task<'a>,
    known: &mut Orders<'a>,
    schedule: &Schedule,
    run: &Playing<'a>,
) -> Result<bool, AllocError>
    requires { StandsFor run.now
        (progress_at (plain_file task.now.file.now) (plain_program task.now.program.now) schedule.now) }
    ensures more { OnOk result (Contains known.old.schedules.items schedule.now →
        AreMore (plain_file task.now.file.now) (plain_program task.now.program.now) known.old.schedules.items
        known.new.schedules.items) }
    ensures followed { IfOk result (λ b. b ≡ true → Contains known.old.schedules.items schedule.now →
        (t : ℕ) → t < length task.now.program.now.threads.items →
        IsFollowed (plain_file task.now.file.now) (plain_program task.now.program.now) known.new.schedules.items
        schedule.now t) }
    ensures long { IfOk result (λ b. b ≡ false →
        IsSerial (source_history (plain_file task.now.file.now) (plain_program task.now.program.now) schedule.now) →
        ActAll (plain_file task.now.file.now) (plain_program task.now.program.now) schedule.now →
        HasLongCall (plain_file task.now.file.now) (plain_program task.now.program.now) task.now.most_steps) }
    ensures tree { OnOk result ((place : ℕ) → slice_get known.old.schedules.items place ≡ Some schedule.now →
        IsTree (plain_file task.now.file.now) (plain_program task.now.program.now) known.old.schedules.items place 0 →
        IsTree (plain_file task.now.file.now) (plain_program task.now.program.now) known.new.schedules.items
        (place + 1) 0) }
    ensures parked { OnOk result (
        AreParked (plain_file task.now.file.now) (plain_program task.now.program.now) known.old.schedules.items
        known.old.runs.items →
        AreParked (plain_file task.now.file.now) (plain_program task.now.program.now) known.new.schedules.items
        known.new.runs.items) }
{
    let mut all = true;
    for thread in 0..task.program.threads.len() {
        let followed = follow_thread(alloc, task, known, schedule, run, thread as u8)?;
        all = both(all, followed);
    }
    Ok(all)
}

/// Searches the orders of a program's calls, until there are more than so many. The only refusal is that memory ran
/// out.
pub(crate) fn search<'a>(
    alloc: Global,
    task: &Task<'a>,
    most_orders: usize,
) -> Result<Known<'a>, AllocError>
    ensures serial { IfOk result (λ s. AreSerial (plain_file task.now.file.now)
        (plain_program task.now.program.now) s.orders.schedules.items) }
    ensures acts { IfOk result (λ s. AreActing (plain_file task.now.file.now)
        (plain_program task.now.program.now) s.orders.schedules.items) }
    ensures complete { IfOk result (λ s. s.complete ≡ true →
        IsSearched (plain_file task.now.file.now) (plain_program task.now.program.now) s.orders.schedules.items) }
    ensures long { IfOk result (λ s. s.complete ≡ false → s.many ≡ false →
        HasLongCall (plain_file task.now.file.now) (plain_program task.now.program.now) task.now.most_steps) }
    ensures many { IfOk result (λ s. s.many ≡ true → most_orders < length s.orders.schedules.items) }
    ensures apart { IfOk result (λ s. AreApart (plain_file task.now.file.now) (plain_program task.now.program.now)
        s.orders.schedules.items) }
    ensures parked { IfOk result (λ s. AreParked (plain_file task.now.file.now) (plain_program task.now.program.now)
        s.orders.schedules.items s.orders.runs.items) }
{
    let mut orders = first(alloc, task)?;
    let mut complete = true;
    let mut at = 0;
    while at < orders.schedules.len() {
        if orders.schedules.len() > most_orders {
            return Ok(Known {
                orders,
                complete: false,
                many: true,
            });
        }
        let schedule = orders.schedules[at].copied(alloc)?;
        let run = standing(alloc, task, &schedule, &orders.runs[at])?;
        let followed = follow_threads(alloc, task, &mut orders, &schedule, &run)?;
        complete = both(complete, followed);
        at += 1;
    }
    Ok(Known {
        orders,
        complete,
        many: false,
    })
}
