//! Which order of whole calls of a program explains a history, or else the event from which on none does.
#![tactic(auto)]

mod calls;
mod finding;
pub mod laws;
pub mod layers;
mod naming;
pub mod once_laws;
mod placing;
mod telling;

pub use finding::{Known, SerialAnswer, find, known_of};
pub use naming::{Named, run_of};
pub use telling::{tell, tell_known};
