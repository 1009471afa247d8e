//! What each step of a schedule does, a line for each.
#![tactic(auto)]

mod deed;
mod fold;
mod folding;
mod heads;
mod manner;
pub mod teller;
mod telling;
mod tens;

pub use folding::{folded_trace, folds_are_of_the_trace};
pub use telling::trace;
