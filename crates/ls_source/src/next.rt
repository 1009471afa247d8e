// What a thread does next.

use ls_events::action::Action;
use ls_events::value::Value;
use ls_meaning::sort::Sort;
use std::alloc::AllocError;

/// What a thread asks for; or that it has ended, by its last return or by a trap.
#[derive(Copy)]
pub enum Next {
    Goes(Action<Value>, Sort),
    Ended,
    Trapped,
}

impl Clone for Next {
    fn clone(&self) -> Result<Next, AllocError> {
        Ok(*self)
    }
}
