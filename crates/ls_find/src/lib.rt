//! What is found of the programs of a class: the first that isn't linearizable or has threads that wait for ever, and
//! its schedule.
#![tactic(auto)]

mod explorer;
pub mod laws;
mod legal;
mod likeness;
mod notes;
mod reasons;
mod simplifying;
mod sought;
mod specified;
mod states;
mod verdict;
mod waiting;

pub use explorer::{Explorer, Why, exchanged_in};
pub use sought::{Sought, sought_verdict};
pub use verdict::{ProgramVerdict, Reason, verdict_on};
