//! Copies of the trees over words, of which the lowering of `finally` makes many; and the pieces of a `try` by copies
//! of its `finally` block: the guarded body, and the ways out through a copy of the block.
#![tactic(auto)]

pub mod copy;
pub mod ways;
