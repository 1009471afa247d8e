//! Calls that throw, wait for ever or turn for ever where calls run one at a time, by the states between calls.
#![tactic(auto)]

pub mod faults;
pub mod finding;
mod noting;
