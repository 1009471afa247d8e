// Moves that have been made, by what they were made for.

ghost use Rattle.std.specs.Prelude.{◌≡◌, ℕ, IfSome, Some, slice_get};
ghost use Rattle.ls_transitions.specs.Known.{row_of};

use crate::hash_index::HashIndex;
use crate::moves::Move;
use std::alloc::AllocError;

/// A move, and the numbers of the thread, the store and the work that it was made for.
#[derive(Copy)]
pub struct Row {
    pub thread: usize,
    pub store: usize,
    pub work: usize,
    pub made: Move,
}

impl Clone for Row {
    fn clone(&self) -> Result<Row, AllocError> {
        Ok(*self)
    }
}

/// The move that was made for these numbers.
#[inline(always)]
pub(crate) fn find_move(
    rows: &[Row],
    hints: &HashIndex,
    hash: u64,
    thread: usize,
    store: usize,
    work: usize,
) -> Option<Move>
    ensures { IfSome result (λ m. (i : ℕ) × (slice_get rows.now i ≡ Some (row_of thread store work m))) }
{
    let mut hint = hints.last(hash);
    for _ in 0..rows.len() {
        let place = hint?;
        let row = rows.get(place)?;
        if row.work == work && row.store == store && row.thread == thread {
            return Some(row.made);
        }
        hint = hints.before(place);
    }
    None
}
