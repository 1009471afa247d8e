//! Checked files, the calls of a thread program of a checked file, and sources.
#![tactic(auto)]

pub mod calls;
pub mod checked;
pub mod fault;
pub mod laws;
pub mod source;
