// Accesses to variables.

use std::alloc::AllocError;

/// Of which kind a variable is.
#[derive(Copy)]
pub enum Kind {
    /// The field of this number, of an object with so many fields.
    Field { fields: usize, field: usize },
    /// An element of an array.
    Element,
}

impl Clone for Kind {
    fn clone(&self) -> Result<Kind, AllocError> {
        Ok(*self)
    }
}

/// An access to a variable of an object.
#[derive(Copy)]
pub struct Access {
    pub kind: Kind,
    /// The object, or the array.
    pub object: u64,
    /// The index of the element; 0 of a field.
    pub index: usize,
    pub writes: bool,
}

impl Clone for Access {
    fn clone(&self) -> Result<Access, AllocError> {
        Ok(*self)
    }
}
