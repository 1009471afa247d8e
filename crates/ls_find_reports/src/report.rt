// What is said of a range of numbers.

use crate::Figures;
use std::alloc::AllocError;

/// A program that is found: its number, why, its text, and the line of a schedule, without its line feed.
#[derive(Copy)]
pub(crate) struct Found<'a> {
    pub(crate) number: u64,
    pub(crate) reason: &'a str,
    pub(crate) program: &'a str,
    pub(crate) schedule: &'a str,
}

impl<'a> Clone for Found<'a> {
    fn clone(&self) -> Result<Found<'a>, AllocError> {
        Ok(*self)
    }
}

/// What is counted of a range of numbers, and the program that is found.
#[derive(Copy)]
pub(crate) struct Report<'a> {
    pub(crate) figures: Figures,
    pub(crate) found: Option<Found<'a>>,
}

impl<'a> Clone for Report<'a> {
    fn clone(&self) -> Result<Report<'a>, AllocError> {
        Ok(*self)
    }
}
