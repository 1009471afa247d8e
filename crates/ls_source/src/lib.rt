//! The steps of a source run: which thread does what next, and what that does to the store.
#![tactic(auto)]

pub mod next;
pub mod playing;
pub mod run;
pub mod store_and_events;
pub mod thread;
