// What is told of calls that run one at a time.

ghost use Rattle.std.specs.Prelude.{◌≡◌, false, true, IfNone, IfOk, IfSome, string_bytes};
ghost use Rattle.ls_alone.specs.Alone.{AreTold, IsFaulty, Tells, unfound};
ghost use Rattle.ls_alone.specs.declared.telling.Fault.TheVariants as faults;
ghost use Rattle.ls_labels.specs.Names.{names_of};
ghost use Rattle.ls_schedule.specs.Reading.{thread_names};
ghost use Rattle.ls_checked.specs.Plain.{plain_file};
ghost use Rattle.ls_checked.specs.PlainProgram.{plain_program};
ghost use Rattle.ls_serial_faults.specs.Faults.{IsThrown, IsTurning, IsWaiting, MeetsBound, NoneThrows, NoneTurns};
ghost use Rattle.ls_serial_faults.specs.Faults.{NoneWaits};
ghost use Rattle.ls_serial_search.specs.Told.{usual};

use crate::words::{pending_words, thrown_words, waits_words};
use ls_events::schedule::Schedule;
use ls_labels::names::Names;
use ls_schedule::print_schedule;
use ls_serial_faults::faults::{Stopped, Thrown};
use ls_serial_faults::finding::serial_faults;
use ls_serial_search::telling::Bounds;
use std::alloc::{AllocError, Global};

/// What may be wrong with a call where calls run one at a time.
#[derive(Copy)]
pub enum Fault {
    /// It ends by an exception.
    Throws,
    /// Its thread waits for ever: for a lock, or a monitor, that another thread keeps.
    Waits,
    /// Its thread turns for ever.
    Turns,
}

impl Clone for Fault {
    fn clone(&self) -> Result<Fault, AllocError> {
        Ok(*self)
    }
}

/// Which faults of calls are looked for.
#[derive(Copy)]
pub enum Wanted {
    /// None.
    Nothing,
    /// That a thread waits for ever.
    Waits,
    /// Each.
    All,
}

impl Clone for Wanted {
    fn clone(&self) -> Result<Wanted, AllocError> {
        Ok(*self)
    }
}

/// A call that has a fault.
#[derive(Drop)]
pub struct Faulty {
    /// The call, and what of it.
    pub words: String,
    /// The text of the schedule up to where it is seen: each of its steps acts.
    pub schedule: String,
}

/// Whether a call has a fault.
#[derive(Drop)]
pub enum Told {
    /// No call has it.
    Never,
    /// One has it.
    So(Faulty),
    /// That isn't known. There are over 10,000 orders of calls, or a call alone goes on for over 10,000 steps.
    Unknown,
}

/// What is told of each fault.
#[derive(Drop)]
pub struct Tellings {
    pub throws: Told,
    pub waits: Told,
    pub turns: Told,
}

impl Tellings {
    ghost use Rattle.std.specs.Prelude.{◌≡◌, option_map};
    ghost use Rattle.ls_alone.specs.Alone.{first_fault, first_of_all, so_of, told_by};

    /// What is told of a fault.
    pub fn by(&self, fault: Fault) -> &Told
        ensures { result.now ≡ told_by fault self.now }
    {
        match fault {
            Fault::Throws => &self.throws,
            Fault::Waits => &self.waits,
            Fault::Turns => &self.turns,
        }
    }

    /// A call whose thread waits for ever.
    fn first_waiting(&self) -> Option<(Fault, &Faulty)>
        ensures { option_map (λ p. (p.0, p.1.now)) result ≡ so_of faults.Waits self.now.waits }
    {
        match &self.waits {
            Told::So(faulty) => Some((Fault::Waits, faulty)),
            Told::Never | Told::Unknown => None,
        }
    }

    /// The first fault that a call has, and that call.
    fn first_of_all(&self) -> Option<(Fault, &Faulty)>
        ensures { option_map (λ p. (p.0, p.1.now)) result ≡ first_of_all self.now }
    {
        if let Told::So(faulty) = &self.throws {
            return Some((Fault::Throws, faulty));
        }
        if let Told::So(faulty) = &self.waits {
            return Some((Fault::Waits, faulty));
        }
        if let Told::So(faulty) = &self.turns {
            return Some((Fault::Turns, faulty));
        }
        None
    }

    /// The first fault of those that are looked for that a call has, and that call.
    pub fn first(&self, wanted: Wanted) -> Option<(Fault, &Faulty)>
        ensures { option_map (λ p. (p.0, p.1.now)) result ≡ first_fault wanted self.now }
    {
        match wanted {
            Wanted::Nothing => None,
            Wanted::Waits => self.first_waiting(),
            Wanted::All => self.first_of_all(),
        }
    }
}

/// What is told of a fault that was found of no call.
fn unfound(complete: bool) -> Told
    ensures { result ≡ unfound complete }
{
    if complete { Told::Never } else { Told::Unknown }
}

/// A call that has a fault, which is seen after a schedule.
fn told_so(
    alloc: Global,
    names: Names<'_>,
    words: String,
    schedule: &Schedule,
) -> Result<Told, AllocError>
    ensures { IfOk result (IsFaulty (string_bytes words) (thread_names names.entry.program.now) schedule.now) }
{
    let schedule = print_schedule(alloc, schedule, names.program)?;
    Ok(Told::So(Faulty { words, schedule }))
}

/// Whether a call ends by an exception.
fn told_throws(
    alloc: Global,
    names: Names<'_>,
    thrown: Option<Thrown>,
    complete: bool,
) -> Result<Told, AllocError>
    requires so { IfSome thrown (IsThrown (plain_file names.file.now) (plain_program names.program.now)) }
    requires all { complete ≡ true → IfNone thrown
        (NoneThrows (plain_file names.file.now) (plain_program names.program.now)) }
    requires bound { complete ≡ false →
        MeetsBound (plain_file names.file.now) (plain_program names.program.now) usual }
    ensures { IfOk result (Tells (names_of names.entry) (thread_names names.entry.program.now) faults.Throws) }
{
    let Some(
        Thrown {
            schedule,
            thread,
            call,
            kind,
        },
    ) = thrown
    else {
        return Ok(unfound(complete));
    };
    let words = thrown_words(alloc, names.program, thread, call, kind)?;
    told_so(alloc, names, words, &schedule)
}

/// Whether a call waits for ever.
fn told_waits(
    alloc: Global,
    names: Names<'_>,
    stopped: Option<Stopped>,
    complete: bool,
) -> Result<Told, AllocError>
    requires so { IfSome stopped (IsWaiting (plain_file names.file.now) (plain_program names.program.now)) }
    requires all { complete ≡ true → IfNone stopped
        (NoneWaits (plain_file names.file.now) (plain_program names.program.now)) }
    requires bound { complete ≡ false →
        MeetsBound (plain_file names.file.now) (plain_program names.program.now) usual }
    ensures { IfOk result (Tells (names_of names.entry) (thread_names names.entry.program.now) faults.Waits) }
{
    let Some(
        Stopped {
            schedule,
            thread,
            call,
        },
    ) = stopped
    else {
        return Ok(unfound(complete));
    };
    let words = waits_words(alloc, names, &schedule, thread, call)?;
    told_so(alloc, names, words, &schedule)
}

/// Whether a call turns for ever.
fn told_turns(
    alloc: Global,
    names: Names<'_>,
    stopped: Option<Stopped>,
    complete: bool,
) -> Result<Told, AllocError>
    requires so { IfSome stopped (IsTurning (plain_file names.file.now) (plain_program names.program.now)) }
    requires all { complete ≡ true → IfNone stopped
        (NoneTurns (plain_file names.file.now) (plain_program names.program.now)) }
    requires bound { complete ≡ false →
        MeetsBound (plain_file names.file.now) (plain_program names.program.now) usual }
    ensures { IfOk result (Tells (names_of names.entry) (thread_names names.entry.program.now) faults.Turns) }
{
    let Some(
        Stopped {
            schedule,
            thread,
            call,
        },
    ) = stopped
    else {
        return Ok(unfound(complete));
    };
    let words = pending_words(alloc, names.program, thread, call)?;
    told_so(alloc, names, words, &schedule)
}

/// What is told of each fault of a program's calls where they run one at a time: calls of the setup, makings too, and
/// of threads. The source alone is run, with no cells. Of each fault the call that is told has the fewest calls before
/// it, which no clause says. The only refusal is that memory ran out.
pub fn tell(alloc: Global, names: Names<'_>) -> Result<Tellings, AllocError>
    ensures { IfOk result (AreTold (names_of names.entry) (thread_names names.entry.program.now)) }
{
    let found = serial_faults(alloc, names.file, names.program, &Bounds::usual())?;
    let complete = found.complete;
    let throws = told_throws(alloc, names, found.throws, complete)?;
    let waits = told_waits(alloc, names, found.waits, complete)?;
    let turns = told_turns(alloc, names, found.turns, complete)?;
    Ok(Tellings {
        throws,
        waits,
        turns,
    })
}
