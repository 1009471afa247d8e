//! The parallel word machine: it runs code, one instruction of one thread a step. A step takes no memory and always
//! succeeds.
#![tactic(auto)]

mod exchanges;
mod fault;
pub mod laws;
mod machine;
pub mod sameness;
mod staying;
mod steps;

pub use fault::LoadFault;
pub use ls_code::lock_word::{lock_word, unlock_word};
pub use machine::saving::{Interner, Saved};
pub use machine::{MOST_CELLS, Machine, are_bad_cells};
