//! The faults of all layers as the program's, and their lines.
#![tactic(auto)]

pub mod fault;
pub mod line;
