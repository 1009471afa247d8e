// The code of a method while it is emitted.

ghost use Rattle.std.specs.Prelude.{◌≡◌, ◌≤◌, drop, take, length, slice_index_or};

use ls_code::code::HandlerRow;
use ls_code::instruction::Instruction;
use std::alloc::{AllocError, Global};

/// The instructions and the handler rows so far, and the sizes of what comes next.
#[derive(Drop)]
pub struct Emission<'a> {
    pub alloc: Global,
    pub sizes: &'a [usize],
    pub instructions: Vec<Instruction>,
    pub rows: Vec<HandlerRow>,
}

impl<'a> Emission<'a> {
    /// Takes the first of the sizes.
    pub fn take_size(&mut self) -> usize
        requires { 1 ≤ length self.old.sizes.now }
        ensures size { result ≡ slice_index_or self.old.sizes.now 0 0 }
        ensures left { self.new.sizes.now ≡ drop 1 self.old.sizes.now }
        ensures instructions { self.new.instructions ≡ self.old.instructions }
        ensures rows { self.new.rows ≡ self.old.rows }
    {
        let size = self.sizes[0];
        self.sizes = self.sizes.split_at(1).1;
        size
    }

    /// Takes so many sizes.
    pub fn take_sizes(&mut self, count: usize) -> &'a [usize]
        requires { count ≤ length self.old.sizes.now }
        ensures sizes { result.now ≡ take count self.old.sizes.now }
        ensures left { self.new.sizes.now ≡ drop count self.old.sizes.now }
        ensures instructions { self.new.instructions ≡ self.old.instructions }
        ensures rows { self.new.rows ≡ self.old.rows }
    {
        let (sizes, left) = self.sizes.split_at(count);
        self.sizes = left;
        sizes
    }
}

/// Where a statement's code is: the place of its first instruction, and the place after its last.
#[derive(Copy)]
pub struct Stretch {
    pub place: usize,
    pub end: usize,
}

impl Clone for Stretch {
    fn clone(&self) -> Result<Stretch, AllocError> {
        Ok(*self)
    }
}

impl Stretch {
    /// From a place up to an end, which is not part of it.
    pub fn new(place: usize, end: usize) -> Stretch
        ensures place { result.place ≡ place }
        ensures end { result.end ≡ end }
    {
        Stretch { place, end }
    }
}
