//! The whole code of a file and its threads: the units one after another, and the threads after them.
#![tactic(auto)]

pub mod building;
pub mod compiled;
pub mod count_fault;
mod counting;
pub mod fault;
pub mod files;
pub mod in_range;
pub mod laws;
pub mod lengths;
pub mod link_units;
pub mod quickness;
mod threads;
mod units;
mod ways;

pub use building::build;
