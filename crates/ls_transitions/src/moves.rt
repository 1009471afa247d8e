// What a thread's next step does.

use ls_events::action::{Action, Answer};
use ls_events::value::Value;
use std::alloc::AllocError;

/// A step that acts: its action, the answer, and the numbers of the store and of the thread's work after it.
#[derive(Copy)]
pub struct Step {
    pub action: Action<Value>,
    pub answer: Answer<Value>,
    pub store: usize,
    pub work: usize,
}

impl Clone for Step {
    fn clone(&self) -> Result<Step, AllocError> {
        Ok(*self)
    }
}

/// What a thread's next step does at a store. Whether the thread has started is not part of it.
#[derive(Copy)]
pub enum Move {
    /// Nothing: its last call has returned.
    Ended,
    /// Nothing: it has trapped.
    Trapped,
    /// It asks for a lock that another thread owns.
    Waits,
    Acts(Step),
}

impl Clone for Move {
    fn clone(&self) -> Result<Move, AllocError> {
        Ok(*self)
    }
}
