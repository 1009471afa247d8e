//! Reading of thread programs: what a program text means for a checked file, or why it is refused.
#![tactic(auto)]

mod by_name;
mod methods;
pub mod program;
mod reading;
mod setup_names;
mod steps;
mod together;
