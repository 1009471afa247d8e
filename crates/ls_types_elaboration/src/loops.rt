// What the loops of a checked tree are in the text.

use std::alloc::AllocError;

/// What a loop of the checked tree is in the text: a `while`, a whole `for`, or one turn of a `for`. A `for` is two
/// loops: the whole `for`, and in it the loop of one turn. To `break` out of a `for` is to leave the whole; to
/// `continue` is to leave the turn.
#[derive(Copy, PartialEq, Eq)]
pub enum LoopPart {
    While,
    For,
    Turn,
}

impl Clone for LoopPart {
    fn clone(&self) -> Result<LoopPart, AllocError> {
        Ok(*self)
    }
}
