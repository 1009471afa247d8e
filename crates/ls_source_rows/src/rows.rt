// Rows: histories, each with a path that leads to it.

use ls_events::event::Event;
use std::alloc::AllocError;

/// How a row ends: what the threads do after its schedule.
#[derive(Copy, PartialEq, Eq)]
pub enum Ending {
    /// No thread acts, and none waits.
    Ended,
    /// No thread acts, and one waits.
    Waiting,
    /// A thread acts.
    GoesOn,
    /// What the threads do wasn't looked at, since no more states may be kept.
    NotSeen,
}

impl Clone for Ending {
    fn clone(&self) -> Result<Ending, AllocError> {
        Ok(*self)
    }
}

/// A history, the threads of the steps that lead to it after those of the setup, and what the threads do after these.
#[derive(Drop)]
pub struct Row {
    pub path: Vec<u8>,
    pub history: Vec<Event>,
    pub ending: Ending,
}
