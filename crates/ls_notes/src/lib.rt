//! What is told beside a run, in words, by what a command read and what it printed.
#![tactic(auto)]

mod lists;
mod orders;
mod parts;
mod runs;
mod serials;

pub use orders::explained;
pub use parts::has_step;
pub use runs::{pending, undone};
