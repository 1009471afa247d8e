// The book of a live run, which a lock guards. What one step does and answers is exact here.

ghost use Rattle.ls_events.specs.Limits.{most_steps};
ghost use Rattle.ls_code.specs.Machine.{Machine as MachineValue, machine_run, machine_state};
ghost use Rattle.ls_live.specs.Answers.{answer, is_not_started, is_over, recorded_after};
ghost use Rattle.ls_live.specs.Books.{IsKept};
ghost use Rattle.ls_live.specs.BookRecords.{IsRecordFrom};
ghost use Rattle.ls_live.specs.BookSeats.{agrees, seat_of, told_agrees};
ghost use Rattle.ls_schedule.specs.Records.{scheduled};
ghost use Rattle.std.specs.Prelude.{◌≡◌, ◌==◌, ◌≤◌, ◌<◌, ℕ, List, [], false, length, count_by, vec_len, vec_capacity};

use ls_code::step::{Did, ThreadState};
use ls_events::schedule::Schedule;
use ls_machine::Machine;
use ls_schedule::Record;
use std::alloc::AllocError;
use std::marker::{Brand, Model, PhantomData};
use std::sync::ledger::Ledger;

/// What a step is answered.
#[derive(Copy)]
pub enum More {
    /// No step will come of the thread: it has ended or trapped, the setup has trapped, or the machine has stopped.
    Over,
    /// The book has as many steps as it may have.
    Full,
    /// The setup hasn't ended yet, so the thread hasn't started.
    Later,
    /// The step is done, and recorded.
    Did(Did),
}

impl Clone for More {
    fn clone(&self) -> Result<More, AllocError> {
        Ok(*self)
    }
}

/// Which of `Over` and `Full` a seat was told last, if any.
#[derive(Copy, PartialEq, Eq)]
pub enum Told {
    Nothing,
    Over,
    Full,
}

impl Clone for Told {
    fn clone(&self) -> Result<Told, AllocError> {
        Ok(*self)
    }
}

/// The name of a live run: the machine with which it begins, how many steps it may record, and how many seats it has.
pub trait Session: Ledger {
    ghost start: { MachineValue };

    ghost limit: { ℕ };

    ghost seats: { ℕ };
}

impl Session for Brand {
    ghost use Rattle.ls_live.specs.Sessions.{no_machine};

    ghost start = { no_machine };

    ghost limit = { 0 };

    ghost seats = { 0 };
}

/// A machine, and the schedule that it has run since the start of the session. Contracts see the book as the schedule.
#[derive(Drop)]
pub struct Book<L: Session> {
    machine: Machine,
    schedule: Vec<u8>,
    limit: usize,
    session: PhantomData<L>,
}

impl<L: Session> Model for Book<L> {
    ghost Value = { List ℕ };

    ghost view = { λ b. b.schedule.items };

    ghost invariant = { λ b. IsKept L.start L.limit b.machine b.schedule.items b.limit ×
        (vec_len b.schedule ≤ b.limit) × (b.limit ≤ vec_capacity b.schedule) };
}

impl<L: Session> Book<L> {
    /// The book of a machine that has run nothing. It has room for as many steps as it may record.
    pub fn new(machine: Machine, schedule: Vec<u8>, limit: usize) -> Book<L>
        requires start { machine ≡ L.start }
        requires limit { limit ≡ L.limit }
        requires most { limit ≤ most_steps }
        requires empty { schedule.items ≡ [] }
        requires room { limit ≤ vec_capacity schedule }
        ensures { result ≡ [] }
    {
        Book {
            machine,
            schedule,
            limit,
            session: PhantomData,
        }
    }

    /// How many steps are recorded.
    pub fn len(&self) -> usize
        ensures { result ≡ length self.now }
    {
        self.schedule.len()
    }

    // Whether no step will come of the thread.
    #[tactic(auto, unfolding(crate::specs::Answers::is_over))]
    fn is_over(&self, thread: usize) -> bool
        ensures { result ≡ is_over (machine_run L.start self.now) thread }
    {
        let is_final = match self.machine.state_of(thread) {
            ThreadState::Ended | ThreadState::Trapped | ThreadState::Stopped => true,
            ThreadState::NotStarted | ThreadState::Running => false,
        };
        is_final || matches!(self.machine.state_of(0), ThreadState::Trapped)
    }

    // Whether the thread waits for the setup to end.
    fn is_not_started(&self, thread: usize) -> bool
        ensures { result ≡ is_not_started (machine_state (machine_run L.start self.now) thread) }
    {
        matches!(self.machine.state_of(thread), ThreadState::NotStarted)
    }

    // The entry of a thread that isn't over. So it is there.
    #[tactic(auto, using(crate::proofs::Threads::is_there))]
    fn entry_of(&self, thread: usize) -> u8
        requires { is_over (machine_run L.start self.now) thread ≡ false }
        ensures { result ≡ thread }
    {
        self.machine.has_few_threads();
        thread as u8
    }

    /// One step of a thread. Answers `Over` if no step will come of the thread, else `Full` if the book is full, else
    /// `Later` if the thread hasn't started. Else the thread makes a step, which is recorded. It takes no memory.
    #[tactic(auto, using(crate::proofs::Books::kept_on), unfolding(crate::specs::Answers::answer))]
    pub fn step(&mut self, thread: usize) -> More
        ensures answer { result ≡ answer (machine_run L.start self.old) (length self.old) L.limit thread }
        ensures schedule { self.new ≡ recorded_after self.old thread result }
    {
        if self.is_over(thread) {
            return More::Over;
        }
        if self.schedule.len() == self.limit {
            return More::Full;
        }
        if self.is_not_started(thread) {
            return More::Later;
        }
        let entry = self.entry_of(thread);
        let did = self.machine.step(thread);
        self.schedule.push_reserved(entry);
        More::Did(did)
    }

    // How many of the recorded steps are the thread's.
    fn entries_of(&self, thread: usize) -> usize
        ensures { result ≡ count_by (λ t. t == thread) self.now }
    {
        self.schedule
            .iter()
            .filter(|t| **t as usize == thread)
            .count()
    }

    // Whether what a seat was told is so now.
    fn agrees_with_told(&self, thread: usize, told: Told) -> bool
        ensures { result ≡ told_agrees L.start L.limit self.now thread told }
    {
        match told {
            Told::Nothing => true,
            Told::Over => self.is_over(thread),
            Told::Full => self.schedule.len() == self.limit,
        }
    }

    #[tactic(auto, unfolding(crate::specs::BookSeats::agrees))]
    /// Whether a seat agrees with the record: its steps are the entries of its thread, and what it was told last is
    /// so.
    pub fn agrees_with(&self, thread: usize, steps: u64, told: Told) -> bool
        ensures { result ≡ agrees L.start L.limit self.now (seat_of thread steps told) }
    {
        self.entries_of(thread) as u64 == steps && self.agrees_with_told(thread, told)
    }

    /// The record. It takes no memory.
    pub fn into_record(self) -> Record
        ensures schedule { scheduled result ≡ self }
        ensures record { IsRecordFrom L.start L.limit result }
    {
        let Book {
            machine,
            schedule,
            limit: _,
            session: _,
        } = self;
        Record::new(Schedule::of(schedule), machine)
    }
}
