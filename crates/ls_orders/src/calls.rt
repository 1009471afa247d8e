// The set calls of a history.

use std::alloc::AllocError;

/// What a set call does.
#[derive(Copy)]
pub enum Operation {
    Add,
    Remove,
    Contains,
}

impl Clone for Operation {
    fn clone(&self) -> Result<Operation, AllocError> {
        Ok(*self)
    }
}

/// How a call has ended, with the place of that event. A reply that isn't a boolean is `None`.
#[derive(Copy)]
pub enum End {
    Pending,
    Trapped(usize),
    Returned(usize, Option<bool>),
}

impl Clone for End {
    fn clone(&self) -> Result<End, AllocError> {
        Ok(*self)
    }
}

/// A set call, known by the place of its call event.
#[derive(Copy)]
pub struct SetCall {
    pub called: usize,
    pub operation: Operation,
    pub item: i32,
    pub end: End,
}

impl Clone for SetCall {
    fn clone(&self) -> Result<SetCall, AllocError> {
        Ok(*self)
    }
}
