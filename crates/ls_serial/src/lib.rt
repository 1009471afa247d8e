//! Serial histories, in which calls run one at a time, and which histories they explain.
#![tactic(auto)]

pub mod explaining;
mod runs;

pub use runs::SerialRuns;
