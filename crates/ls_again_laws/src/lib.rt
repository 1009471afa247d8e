//! Threads that begin their calls again: their runs are those of the program with its calls written many times.
#![tactic(auto)]

pub mod laws;
