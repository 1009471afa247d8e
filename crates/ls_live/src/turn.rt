// What a step of a turnstile answers.

use ls_code::step::Did;
use std::alloc::AllocError;

/// What a step of a seat answers. A place is that of an entry of the tape, from 0.
#[derive(Copy)]
pub enum Turn {
    /// The entry at this place is the seat's thread, and its step was done.
    Stepped { place: usize, did: Did },
    /// The entry at this place is another thread's and was still to be done, or it is nobody's, as its thread isn't
    /// there.
    NotYet { place: usize },
    /// No entry is left.
    Over,
}

impl Clone for Turn {
    fn clone(&self) -> Result<Turn, AllocError> {
        Ok(*self)
    }
}
