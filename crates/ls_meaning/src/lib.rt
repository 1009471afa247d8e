//! The meaning of a checked file and a thread program: values and operators, the store and actions on it, what a
//! thread asks for, and runs. The definitions are in specs/; the code here is a few shared types.
#![tactic(auto)]

pub mod completion;
pub mod laws;
pub mod sort;
pub mod step;
