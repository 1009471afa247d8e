//! The list with one lock is a set, for programs of any size.
#![tactic(auto)]

pub mod laws;
