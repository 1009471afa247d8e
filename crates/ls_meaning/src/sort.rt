// What kind of answer an action has.

use ls_events::value::ValueType;
use std::alloc::AllocError;

/// What an action is answered if it throws nothing.
#[derive(Copy)]
pub enum Sort {
    /// Only that it is done.
    NoValue,
    /// A value of a type.
    ValueOf(ValueType),
    /// A reference to a new object of a type: never null.
    NewOf(ValueType),
    /// What a markable holds: a mark, and null or a reference to an object of a class.
    PairOf(usize),
}

impl Clone for Sort {
    fn clone(&self) -> Result<Sort, AllocError> {
        Ok(*self)
    }
}
