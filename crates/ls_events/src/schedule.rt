// Schedules.

use std::alloc::{AllocError, Global};
use std::marker::Model;

/// The most steps of a schedule.
pub const MOST_STEPS: usize = 1_000_000;

/// Which thread takes each step of a run, by number: 0 is the setup. A number need not be that of a thread. A step
/// takes one byte.
#[derive(Drop)]
pub struct Schedule {
    steps: Vec<u8>,
}

impl Model for Schedule {
    ghost use Rattle.ls_events.specs.Limits.{most_steps};
    ghost use Rattle.std.specs.Prelude.{ℕ, ◌≤◌, List, length};

    ghost Value = { List ℕ };

    ghost view = { λ s. s.steps.items };

    ghost invariant = { λ s. length s.steps.items ≤ most_steps };
}

impl Schedule {
    ghost use Rattle.ls_events.specs.Limits.{most_steps};
    ghost use Rattle.std.specs.Prelude.{◌≡◌, ◌<◌, ◌≤◌, ◌+◌, ◌↔◌, ◌++◌, ◌∷◌, [], length, replicate, IfOk, IsTrue, OnOk};
    ghost use Rattle.std.specs.Prelude.{OnErr};

    /// The empty schedule.
    pub fn new(alloc: Global) -> Schedule
        ensures { result ≡ [] }
    {
        Schedule {
            steps: Vec::new(alloc),
        }
    }

    /// The schedule of these steps.
    pub fn of(steps: Vec<u8>) -> Schedule
        requires { length steps.items ≤ most_steps }
        ensures { result ≡ steps.items }
    {
        Schedule { steps }
    }

    /// The threads of the steps, in order.
    pub fn steps(&self) -> &[u8]
        ensures { result.now ≡ self.now }
    {
        self.steps.as_slice()
    }

    pub fn len(&self) -> usize
        ensures { result ≡ length self.now }
    {
        self.steps.len()
    }

    /// A law: no schedule has more than `MOST_STEPS` steps.
    pub fn fits(&self)
        ensures { length self.now ≤ most_steps }
    {
        let _ = self.steps.as_slice();
    }

    /// A copy of the schedule.
    pub fn copied(&self, alloc: Global) -> Result<Schedule, AllocError>
        ensures { IfOk result (λ copy. copy ≡ self.now) }
    {
        Ok(Schedule {
            steps: self.steps.as_slice().to_vec(alloc)?,
        })
    }

    pub fn is_empty(&self) -> bool
        ensures { IsTrue result ↔ (self.now ≡ []) }
    {
        self.steps.is_empty()
    }

    /// Whether it has as many steps as a schedule can have.
    pub fn is_full(&self) -> bool
        ensures { IsTrue result ↔ (length self.now ≡ most_steps) }
    {
        self.len() == MOST_STEPS
    }

    /// Adds so many steps of one thread.
    pub fn push_run(&mut self, thread: u8, count: usize) -> Result<(), AllocError>
        requires { length self.old + count ≤ most_steps }
        ensures added { OnOk result (self.new ≡ self.old ++ replicate count thread) }
        ensures unchanged { OnErr result (self.new ≡ self.old) }
    {
        self.steps.resize(self.steps.len() + count, thread)?;
        Ok(())
    }

    /// Adds a step.
    #[inline(always)]
    pub fn push(&mut self, thread: u8) -> Result<(), AllocError>
        requires { length self.old < most_steps }
        ensures added { OnOk result (self.new ≡ self.old ++ thread ∷ []) }
        ensures unchanged { OnErr result (self.new ≡ self.old) }
    {
        if self.steps.len() < self.steps.capacity() {
            self.steps.push_reserved(thread);
            return Ok(());
        }
        self.steps.push(thread)?;
        Ok(())
    }
}
