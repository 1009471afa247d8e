// What is wanted of an expression or a call, and what is there.

use crate::static_types::Static;
use ls_events::value::ValueType;
use std::alloc::AllocError;
use std::fmt::{Debug, Error, Formatter, Write};

/// Why an expression or a `return` has another type than is wanted there (JLS 5.2, 5.3, 14.17, 15.1).
#[derive(Copy, PartialEq, Eq)]
pub enum Mismatch {
    /// A value of one type is wanted, and the expression has another.
    Type { wanted: ValueType, found: Static },
    /// Any value is wanted, and the call has none.
    NoValue,
    /// `==` or `!=` compares these types, which can't be compared.
    Operands { left: Static, right: Static },
    /// An object of a class of the file is wanted, and the expression has this type.
    NoObject(Static),
    /// The method answers a value of this type, and `return` has none.
    NotReturned(ValueType),
    /// The method is `void`, and `return` has a value.
    Returned,
}

impl Clone for Mismatch {
    fn clone(&self) -> Result<Mismatch, AllocError> {
        Ok(*self)
    }
}

impl Debug for Mismatch {
    fn fmt<W: Write>(&self, f: &mut Formatter<W>) -> Result<(), Error> {
        f.write_str("Mismatch")
    }
}

/// How many arguments a call wants, and how many it has.
#[derive(Copy, Debug, PartialEq, Eq)]
pub struct Counts {
    pub wanted: usize,
    pub found: usize,
}

impl Clone for Counts {
    fn clone(&self) -> Result<Counts, AllocError> {
        Ok(*self)
    }
}
