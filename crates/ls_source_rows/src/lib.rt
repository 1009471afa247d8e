//! The histories of all schedules of a program, each with a schedule, by the states of the source.
#![tactic(auto)]

pub mod observing;
mod rows;
mod sorting;
mod telling;

pub use ls_search::run_listing::Reach;
pub use ls_search::watching::{Nobody, Watch};
pub use rows::{Ending, Row};
pub use telling::{Telling, tell_rows};
