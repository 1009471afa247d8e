// The exceptions.

use std::alloc::AllocError;

/// An exception, by its class.
#[derive(Copy, PartialEq, Eq)]
pub enum Kind {
    Arithmetic,
    NullPointer,
    ArrayIndexOutOfBounds,
    NegativeArraySize,
    IllegalMonitorState,
    StackOverflow,
    Error,
}

impl Clone for Kind {
    fn clone(&self) -> Result<Kind, AllocError> {
        Ok(*self)
    }
}
