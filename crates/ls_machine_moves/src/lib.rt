//! What one instruction does to its frame, or asks of the cells, and what they answer.
#![tactic(auto)]

pub mod acting;
pub mod cells;
pub mod flow;
pub mod frame;
pub mod hashing;
mod overwriting;
pub mod silent;
pub mod words;
