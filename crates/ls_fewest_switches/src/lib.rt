//! Schedules with the fewest context switches or steps, of those that have the same history, one of several, or a bad
//! one.
#![tactic(auto)]

mod acting;
mod along;
mod among;
mod anything;
mod checking;
mod fewest;
mod least;
mod shortest;
mod starting;
mod stuck;
mod wording;

pub use acting::{acting_steps, run_along};
pub use fewest::{SimpleRun, Target, simplest, simplest_bad, switches};
pub use shortest::{ShortRun, shortest_among};
pub use stuck::simplest_stuck;
pub use wording::push_switches;
