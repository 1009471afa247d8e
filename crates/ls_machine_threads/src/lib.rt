//! The threads of the machine: their frames, which have their memory from the start, and what a call, a return or a
//! throw does to them.
#![tactic(auto)]

pub mod flow;
pub mod thread;
