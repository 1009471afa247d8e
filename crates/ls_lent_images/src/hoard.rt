// Takes all memory away from a test, so that the test sees what happens to a call that gets none.

use std::alloc::{AllocError, Global};

/// The most blocks that are held at one time.
const MOST_BLOCKS: usize = 100_000;

/// The largest block that is tried, as a power of two in bytes: half the addresses of a process.
const HIGHEST: u32 = 46;

/// Memory that is taken away. It is given back when this is dropped. Only address space is taken: nothing is written
/// to a block.
#[derive(Drop)]
pub struct Hoard {
    blocks: Vec<Vec<u8>>,
}

impl Hoard {
    /// Holds nothing yet, and has room for all that it may hold. The only refusal is that memory ran out.
    pub fn new(alloc: Global) -> Result<Hoard, AllocError> {
        Ok(Hoard {
            blocks: Vec::with_capacity(alloc, MOST_BLOCKS)?,
        })
    }

    /// Takes all memory that is left, in ever smaller blocks down to 16 bytes. After that, whatever is asked for is
    /// refused.
    pub fn take_all(&mut self, alloc: Global) {
        let mut size = 1usize << HIGHEST;
        for _ in 4..=HIGHEST {
            self.take(alloc, size);
            size /= 2;
        }
    }

    /// Gives back the blocks that were taken last, until these have at least `bytes` bytes together.
    pub fn give(&mut self, bytes: usize) {
        let mut given = 0usize;
        for _ in 0..MOST_BLOCKS {
            if given >= bytes {
                return;
            }
            match self.blocks.pop() {
                Some(block) => given = given.saturating_add(block.capacity()),
                None => return,
            }
        }
    }

    /// Takes blocks of `size` bytes until one is refused.
    fn take(&mut self, alloc: Global, size: usize) {
        for _ in self.blocks.len()..MOST_BLOCKS {
            match Vec::with_capacity(alloc, size) {
                Ok(block) => {
                    let _ = self.blocks.push(block);
                }
                Err(_) => return,
            }
        }
    }
}
