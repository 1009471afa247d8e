// What a state of a search is.

use std::alloc::AllocError;

/// A state by numbers: of the store, of each thread's work, and of what is noted.
#[derive(Drop)]
pub struct NumberedState {
    pub store: usize,
    pub works: Vec<usize>,
    pub noted: usize,
}

/// A state that was found, and how: after the one at an earlier place by so many steps of a thread. The first state is
/// found after none.
#[derive(Drop)]
pub struct Node {
    pub place: NumberedState,
    pub before: usize,
    pub thread: u8,
    pub steps: usize,
}

/// What is seen of all threads at a state: whether one of them acts, and whether one of them waits.
#[derive(Copy)]
pub struct Seen {
    pub acts: bool,
    pub waits: bool,
}

impl Clone for Seen {
    fn clone(&self) -> Result<Seen, AllocError> {
        Ok(*self)
    }
}

/// What was looked at: what the step of a thread does.
#[derive(Copy)]
pub enum Looked {
    Idle,
    Waits,
    Acts,
}

impl Clone for Looked {
    fn clone(&self) -> Result<Looked, AllocError> {
        Ok(*self)
    }
}
