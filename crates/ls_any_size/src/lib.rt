//! Classes whose calls run alone, under one lock: what `find` says of all their programs, whatever the size.
#![tactic(auto)]

pub mod alone;
mod compiled;
pub mod laws;
mod menu;

pub use alone::{print_whole, whole_of};
