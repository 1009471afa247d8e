// Numbers by place. A place that isn't there has none, and what is put there is let go: no answer depends on it.

use std::alloc::{AllocError, Global};

/// No number.
pub(crate) const NONE: u32 = 0xffff_ffff;

/// The number at a place.
pub(crate) fn number_at(numbers: &[u32], place: usize) -> u32 {
    match numbers.get(place) {
        None => NONE,
        Some(number) => *number,
    }
}

/// Puts a number at a place.
pub(crate) fn put(numbers: &mut Vec<u32>, place: usize, number: u32) {
    if place < numbers.len() {
        numbers[place] = number;
    }
}

/// Adds so many times the same number.
pub(crate) fn fill(numbers: &mut Vec<u32>, count: usize, number: u32) -> Result<(), AllocError> {
    for _ in 0..count {
        numbers.push(number)?;
    }
    Ok(())
}

/// So many times the same number.
pub(crate) fn filled(alloc: Global, count: usize, number: u32) -> Result<Vec<u32>, AllocError> {
    let mut numbers = Vec::new(alloc);
    fill(&mut numbers, count, number)?;
    Ok(numbers)
}

/// Whether the place is marked.
pub(crate) fn is_on(marks: &[bool], place: usize) -> bool {
    match marks.get(place) {
        None => false,
        Some(mark) => *mark,
    }
}

/// Puts a mark at a place, on or off.
pub(crate) fn set(marks: &mut Vec<bool>, place: usize, on: bool) {
    if place < marks.len() {
        marks[place] = on;
    }
}

/// So many marks, all on or all off.
pub(crate) fn marks_of(alloc: Global, count: usize, on: bool) -> Result<Vec<bool>, AllocError> {
    let mut marks = Vec::new(alloc);
    for _ in 0..count {
        marks.push(on)?;
    }
    Ok(marks)
}
