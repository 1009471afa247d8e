// The events of a history.

use crate::kind::Kind;
use crate::value::Value;
use std::alloc::AllocError;

/// What happened to a call.
#[derive(Copy, PartialEq, Eq)]
pub enum Happening {
    Called,
    /// With the value of a method that answers one.
    Returned(Option<Value>),
    Trapped(Kind),
}

impl Clone for Happening {
    fn clone(&self) -> Result<Happening, AllocError> {
        Ok(*self)
    }
}

/// An event of a thread's call. Thread 0 is the setup; a thread's calls are numbered from 1.
#[derive(Copy, PartialEq, Eq)]
pub struct Event {
    pub thread: usize,
    pub call: usize,
    pub happening: Happening,
}

impl Clone for Event {
    fn clone(&self) -> Result<Event, AllocError> {
        Ok(*self)
    }
}
