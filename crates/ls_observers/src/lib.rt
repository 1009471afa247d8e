//! Who notes the events of histories, one after another.
#![tactic(auto)]

pub mod hashing;
pub mod observer;
