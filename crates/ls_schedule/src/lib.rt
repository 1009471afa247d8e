//! Schedules as text, and replaying them on the machine.
#![tactic(auto)]

pub mod fault;
mod groups;
pub mod laws;
mod pieces;
mod printing;
pub mod reading;
mod repeating;
mod replaying;
mod table;

pub use printing::print_schedule;
pub use reading::{count, read_schedule};
pub use replaying::{Record, replay};
