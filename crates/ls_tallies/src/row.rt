// A history with its count and its least seed.

use std::alloc::AllocError;

/// A history's text, how many seeds gave it, and the least of them. Rows are in the order of their seeds, and those of
/// one seed in the order of their texts.
#[derive(Copy, PartialEq, Eq, PartialOrd, Ord)]
pub struct Row<'a> {
    pub seed: u64,
    pub history: &'a str,
    pub count: u64,
}

impl<'a> Clone for Row<'a> {
    fn clone(&self) -> Result<Row<'a>, AllocError> {
        Ok(*self)
    }
}
