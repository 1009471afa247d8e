//! Pending calls that end in calls that run one at a time, and those that never end where threads turn for ever.
#![tactic(auto)]

mod breaking;
mod excusing;
mod explaining;
mod finding;
pub mod laws;
mod listing;
mod waiting;

pub use finding::{Endless, find_endless};
pub use waiting::first_unexcused;
