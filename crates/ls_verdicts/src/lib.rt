//! The verdict on the history of a run: whether it has a legal order, and with which step it ceases to have one.
#![tactic(auto)]

mod cutting;
mod hopeless;
mod least;
mod naming;
mod verdicts;

pub use cutting::cut_on;
pub use hopeless::hopeless_on;
pub use least::{Cut, least_with};
pub use verdicts::{Verdict, verdict_on};
