//! All states of a program from a schedule on, with what each thread's next step does there.
#![tactic(auto)]

mod finding;
pub mod graph;
mod laws;
mod moment;
mod paths;
pub mod points;
pub mod reach;
pub mod rows;
mod space;
mod telling;
mod turns;
mod weights;

pub use laws::walks_are_traced;
