//! Stores and threads' work by number, and what each thread's next step does by these numbers.
#![tactic(auto)]

pub mod hash_index;
pub mod hashing;
pub mod moves;
mod pools;
pub mod rows;
pub mod stores;
pub mod tables;
pub mod threads;
pub mod transitions;
