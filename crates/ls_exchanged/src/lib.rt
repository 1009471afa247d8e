//! Programs with two threads exchanged: their histories are the same with these exchanged, and so are their verdicts.
#![tactic(auto)]

pub mod doubles;
mod exchanges;
pub mod laws;

pub use exchanges::{are_doubles_at, place_of_doubles};
