//! Threads that turn for ever: some thread always acts, and no event comes any more.
#![tactic(auto)]

mod confirming;
mod finding;
mod leading;
pub mod mute;
mod sounding;
pub mod states;

pub use confirming::turns_after;
pub use finding::{Turning, find_turning, states_of, turning_in};
