// Numbers by place, and places for numbers.

use std::alloc::{AllocError, Global};

/// Half of a number, and one more than the place before it in its chain, or 0.
#[derive(Copy)]
struct Hint {
    mark: u32,
    before: u32,
}

impl Clone for Hint {
    fn clone(&self) -> Result<Hint, AllocError> {
        Ok(*self)
    }
}

/// The numbers of places, in order, and for each number the places that may have it. Nothing depends on these.
#[derive(Drop)]
pub struct HashIndex {
    hints: Vec<Hint>,
    /// One more than the last place of each chain, or 0.
    chains: Vec<u32>,
}

/// The fewest chains.
const FEWEST: usize = 64;

/// The most places.
const MOST: usize = 0xFFFF_FFFF;

/// Half of a number, made of both halves.
fn mark_of(number: u64) -> u32 {
    ((number ^ (number >> 32)) & 0xFFFF_FFFF) as u32
}

/// The place of which this is one more.
fn place_of(next: u32) -> Option<usize> {
    (next as usize).checked_sub(1)
}

/// One more than a place.
fn next_of(place: usize) -> u32 {
    (place.wrapping_add(1) & 0xFFFF_FFFF) as u32
}

/// Which of so many chains has the numbers of a half. There are as many as a power of two.
fn chain_of(mark: u32, count: usize) -> usize {
    mark as usize & count.wrapping_sub(1)
}

impl HashIndex {
    /// No numbers.
    pub fn new(alloc: Global) -> HashIndex {
        HashIndex {
            hints: Vec::new(alloc),
            chains: Vec::new(alloc),
        }
    }

    /// How many there are.
    pub fn len(&self) -> usize {
        self.hints.len()
    }

    /// The first place of a chain from there on that may have a number.
    fn seek(&self, next: u32, mark: u32) -> Option<usize> {
        let mut next = next;
        for _ in 0..self.hints.len() {
            let place = place_of(next)?;
            let hint = *self.hints.get(place)?;
            if hint.mark == mark {
                return Some(place);
            }
            next = hint.before;
        }
        None
    }

    /// The last place that may have a number.
    pub fn last(&self, number: u64) -> Option<usize> {
        let mark = mark_of(number);
        let next = *self.chains.get(chain_of(mark, self.chains.len()))?;
        self.seek(next, mark)
    }

    /// The place before another that may have its number.
    pub fn before(&self, place: usize) -> Option<usize> {
        let hint = *self.hints.get(place)?;
        self.seek(hint.before, hint.mark)
    }

    /// Puts a place in its chain.
    fn enchain(&mut self, place: usize) {
        let Some(hint) = self.hints.get_mut(place) else {
            return;
        };
        let chain = chain_of(hint.mark, self.chains.len());
        let Some(last) = self.chains.get_mut(chain) else {
            return;
        };
        hint.before = *last;
        *last = next_of(place);
    }

    /// Puts all places in twice as many chains.
    fn grow(&mut self, alloc: Global) -> Result<(), AllocError> {
        let count = self.chains.len().saturating_mul(2).max(FEWEST);
        self.chains = vec![in alloc; 0; count]?;
        for place in 0..self.hints.len() {
            self.enchain(place);
        }
        Ok(())
    }

    /// Adds the number of the next place. The numbers of places past the most are left out.
    pub fn add(&mut self, alloc: Global, number: u64) -> Result<(), AllocError> {
        let place = self.hints.len();
        if place >= MOST {
            return Ok(());
        }
        self.hints.push(Hint {
            mark: mark_of(number),
            before: 0,
        })?;
        if place >= self.chains.len() {
            return self.grow(alloc);
        }
        self.enchain(place);
        Ok(())
    }
}
