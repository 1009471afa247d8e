// Values of the source.

use std::alloc::AllocError;

/// A value of the source. Reference 0 is null, reference i the i-th object that a run made. A pair is what a markable
/// reference holds.
#[derive(Copy, PartialEq, Eq)]
pub enum Value {
    Int(i32),
    Boolean(bool),
    Reference(u64),
    Pair { reference: u64, mark: bool },
}

impl Clone for Value {
    fn clone(&self) -> Result<Value, AllocError> {
        Ok(*self)
    }
}

/// A type of the language: what a local, a parameter, a field or a method's result is declared as.
#[derive(Copy, PartialEq, Eq)]
pub enum ValueType {
    Int,
    Boolean,
    BooleanArray,
    Class(usize),
    Lock,
    Markable(usize),
}

impl Clone for ValueType {
    fn clone(&self) -> Result<ValueType, AllocError> {
        Ok(*self)
    }
}
