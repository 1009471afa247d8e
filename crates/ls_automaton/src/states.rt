// States of a program between calls that run one at a time, and what comes of each call there.

ghost use Rattle.std.specs.Prelude.{◌≡◌, ◌<◌, ◌≤◌, ◌⊎◌, ◌++◌, ◌+◌, ℕ, true, false, IfOk, Some, length};
ghost use Rattle.std.specs.Prelude.{replicate, slice_get};
ghost use Rattle.ls_checked.specs.Plain.{plain_file};
ghost use Rattle.ls_checked.specs.PlainProgram.{plain_program};
ghost use Rattle.ls_meaning.specs.Runs.{source_history};
ghost use Rattle.ls_search_laws.specs.Stepping.{ActAll};
ghost use Rattle.ls_serial.specs.Serial.{IsSerial};
ghost use Rattle.ls_serial_search.specs.Open.{HasLongCall, HasManyOrders};
ghost use Rattle.ls_serial_search.specs.Orders.{progress_at};
ghost use Rattle.ls_serial_search.specs.Tree.{IsTree};
ghost use Rattle.ls_source.specs.Stands.{StandsFor};
ghost use Rattle.ls_automaton.specs.Fates.{AreFates, HasFate, is_long};
ghost use Rattle.ls_automaton.specs.Spots.{AreSpots, IsAsked, IsFound, schedules_of};
ghost use Rattle.ls_automaton.specs.States.{AreStatesOf, HaveOutcomes};

use crate::fate::{Fate, is_long};
use crate::outcome::Outcome;
use crate::spots::{Spot, Spots, first_spots, reached};
use ls_checked::program::Program;
use ls_checked::tree::File;
use ls_serial_search::following::{Followed, Further, Task, follow_from};
use ls_serial_search::playing::played_along;
use ls_source::playing::Playing;
use std::alloc::{AllocError, Global};

/// The states to which calls lead that run one at a time. The first is that in which nothing has run.
#[derive(Drop)]
pub struct States<'a> {
    pub(crate) spots: Spots<'a>,
    /// What comes in each state of each thread's next call: of the first states, if there are too many.
    pub fates: Vec<Vec<Fate>>,
    /// The ends of these calls, and the states after them.
    pub rows: Vec<Vec<Outcome>>,
    /// Whether a call alone doesn't end within the bound.
    pub goes_on: bool,
    /// Whether there are too many states.
    pub many: bool,
}

impl<'a> States<'a> {
    ghost use Rattle.std.specs.Prelude.{◌≡◌, ◌<◌, Some, length, slice_get};
    ghost use Rattle.ls_automaton.specs.States.{ways_of};

    /// Steps that lead to the state of this number.
    pub fn way(&self, number: usize) -> &[u8]
        requires { number < length (ways_of self.now) }
        ensures { slice_get (ways_of self.now) number ≡ Some result.now }
    {
        self.spots.list[number].steps.as_slice()
    }
}

/// Whether one of both holds.
fn either(one: bool, other: bool) -> bool
    ensures none { result ≡ false → (one ≡ false) × (other ≡ false) }
    ensures one { result ≡ true → (one ≡ true) ⊎ (other ≡ true) }
{
    one || other
}

/// These steps, and so many more of a thread. The only refusal is that memory ran out.
fn more_steps(alloc: Global, steps: &[u8], thread: u8, count: usize) -> Result<Vec<u8>, AllocError>
    ensures { IfOk result (λ v. v.items ≡ steps.now ++ replicate count thread) }
{
    let mut longer = steps.to_vec(alloc)?;
    let more = vec![in alloc; thread; count]?;
    longer.extend_from_slice(more.as_slice())?;
    Ok(longer)
}

/// Steps that lead to a state, and the run after them.
#[derive(Drop)]
struct Stand<'s, 'a> {
    steps: &'s [u8],
    run: Playing<'a>,
}

/// What comes of the calls in a state.
#[derive(Drop)]
struct Row {
    outcomes: Vec<Outcome>,
    fates: Vec<Fate>,
    goes_on: bool,
}

/// What comes of a thread's next call. If it ends, its outcome is added. The only refusal is that memory ran out.
fn ask_thread<'a>(
    alloc: Global,
    task: &Task<'a>,
    spots: &mut Spots<'a>,
    stand: &Stand<'_, 'a>,
    thread: u8,
    row: &mut Vec<Outcome>,
) -> Result<Fate, AllocError>
    requires run { StandsFor stand.now.run (progress_at (plain_file task.now.file.now)
        (plain_program task.now.program.now) stand.now.steps.now) }
    requires spots { AreSpots (plain_file task.now.file.now) (plain_program task.now.program.now) spots.old.list.items }
    requires serial { IsSerial (source_history (plain_file task.now.file.now) (plain_program task.now.program.now)
        stand.now.steps.now) }
    requires acts { ActAll (plain_file task.now.file.now) (plain_program task.now.program.now) stand.now.steps.now }
    ensures fate { IfOk result (HasFate (plain_file task.now.file.now) (plain_program task.now.program.now)
        task.now.most_steps stand.now.steps.now thread) }
    ensures asked { IfOk result (λ f. IsAsked (plain_file task.now.file.now) (plain_program task.now.program.now)
        task.now.most_steps (is_long f) stand.now.steps.now thread spots.old.list.items spots.new.list.items
        row.old.items row.new.items) }
    ensures long { IfOk result (λ f. is_long f ≡ true →
        HasLongCall (plain_file task.now.file.now) (plain_program task.now.program.now) task.now.most_steps) }
    ensures tree { IfOk result (λ f. (place : ℕ) →
        slice_get (schedules_of spots.old.list.items) place ≡ Some stand.now.steps.now →
        IsTree (plain_file task.now.file.now) (plain_program task.now.program.now) (schedules_of spots.old.list.items)
        place thread →
        IsTree (plain_file task.now.file.now) (plain_program task.now.program.now) (schedules_of spots.new.list.items)
        place (thread + 1)) }
{
    let steps = stand.steps;
    let Further { followed, run } = follow_from(
        alloc,
        task,
        steps,
        &stand.run,
        thread,
        task.most_steps,
    )?;
    match followed {
        Followed::Stays => Ok(Fate::Stays),
        Followed::Waits(call, waits) => Ok(Fate::Waits(call, waits)),
        Followed::Turns(call) => Ok(Fate::Turns(call)),
        Followed::GoesOn => Ok(Fate::GoesOn),
        Followed::Ends(count) => {
            let longer = more_steps(alloc, steps, thread, count)?;
            let outcome = reached(alloc, task, spots, longer, run)?;
            let end = outcome.end;
            row.push(outcome)?;
            Ok(Fate::Ends(count, end))
        }
    }
}

/// What comes of each thread's next call in a state, by steps that lead there. The only refusal is that memory ran out.
fn row_of<'a>(
    alloc: Global,
    task: &Task<'a>,
    spots: &mut Spots<'a>,
    steps: &[u8],
) -> Result<Row, AllocError>
    requires spots { AreSpots (plain_file task.now.file.now) (plain_program task.now.program.now) spots.old.list.items }
    requires serial { IsSerial (source_history (plain_file task.now.file.now) (plain_program task.now.program.now)
        steps.now) }
    requires acts { ActAll (plain_file task.now.file.now) (plain_program task.now.program.now) steps.now }
    ensures fates { IfOk result (λ r. AreFates (plain_file task.now.file.now) (plain_program task.now.program.now)
        task.now.most_steps steps.now r.fates.items) }
    ensures row { IfOk result (λ r. IsFound (plain_file task.now.file.now) (plain_program task.now.program.now)
        task.now.most_steps r.goes_on spots.old.list.items spots.new.list.items steps.now r.outcomes.items) }
    ensures long { IfOk result (λ r. r.goes_on ≡ true →
        HasLongCall (plain_file task.now.file.now) (plain_program task.now.program.now) task.now.most_steps) }
    ensures tree { IfOk result (λ r. (place : ℕ) →
        slice_get (schedules_of spots.old.list.items) place ≡ Some steps.now →
        IsTree (plain_file task.now.file.now) (plain_program task.now.program.now) (schedules_of spots.old.list.items)
        place 0 →
        IsTree (plain_file task.now.file.now) (plain_program task.now.program.now) (schedules_of spots.new.list.items)
        (place + 1) 0) }
{
    let run = played_along(alloc, task.file, task.program, steps)?;
    let stand = Stand { steps, run };
    let mut outcomes = Vec::new(alloc);
    let mut fates = Vec::new(alloc);
    let mut goes_on = false;
    for thread in 0..task.program.threads.len() {
        let fate = ask_thread(alloc, task, spots, &stand, thread as u8, &mut outcomes)?;
        goes_on = either(goes_on, is_long(&fate));
        fates.push(fate)?;
    }
    Ok(Row {
        outcomes,
        fates,
        goes_on,
    })
}

/// Steps that lead to the state of this number. The only refusal is that memory ran out.
fn steps_to<'a>(alloc: Global, spots: &[Spot<'a>], number: usize) -> Result<Vec<u8>, AllocError>
    requires { number < length spots.now }
    ensures { IfOk result (λ v. slice_get (schedules_of spots.now) number ≡ Some v.items) }
{
    let steps = spots[number].steps.as_slice().to_vec(alloc)?;
    Ok(steps)
}

/// The states to which calls lead that run one at a time, each for at most so many steps, and what comes of the calls
/// there. If there are more states than so many, no more are looked for: then there are more serial histories than so
/// many, too. The source alone is run, with no cells. The only refusal is that memory ran out.
pub fn states_of<'a>(
    alloc: Global,
    file: &'a File,
    program: &'a Program,
    most_steps: usize,
    most_states: usize,
) -> Result<States<'a>, AllocError>
    ensures states { IfOk result (AreStatesOf (plain_file file.now) (plain_program program.now) most_steps) }
    ensures outcomes { IfOk result (λ s. s.many ≡ false →
        HaveOutcomes (plain_file file.now) (plain_program program.now) most_steps s) }
    ensures long { IfOk result (λ s. s.goes_on ≡ true →
        HasLongCall (plain_file file.now) (plain_program program.now) most_steps) }
    ensures many { IfOk result (λ s. s.many ≡ true →
        HasManyOrders (plain_file file.now) (plain_program program.now) most_states) }
{
    let task = Task {
        file,
        program,
        most_steps,
    };
    let mut spots = first_spots(alloc, &task)?;
    let mut rows = Vec::new(alloc);
    let mut fates = Vec::new(alloc);
    let mut goes_on = false;
    while rows.len() < spots.list.len() {
        if rows.len() >= most_states {
            return Ok(States {
                spots,
                fates,
                rows,
                goes_on,
                many: true,
            });
        }
        let steps = steps_to(alloc, spots.list.as_slice(), rows.len())?;
        let row = row_of(alloc, &task, &mut spots, steps.as_slice())?;
        goes_on = either(goes_on, row.goes_on);
        rows.push(row.outcomes)?;
        fates.push(row.fates)?;
    }
    Ok(States {
        spots,
        fates,
        rows,
        goes_on,
        many: false,
    })
}
