//! Calls that run one at a time: whether one throws, waits for ever or turns for ever.
#![tactic(auto)]

mod lines;
mod telling;
mod words;

pub use lines::{fault_lines, fault_words, wanted_words};
pub use telling::{Fault, Faulty, Tellings, Told, Wanted, tell};
