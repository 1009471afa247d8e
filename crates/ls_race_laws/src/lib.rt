//! Data races: accesses that conflict, where two threads are about to make them, and happens-before.
#![tactic(auto)]

pub mod access;
pub mod laws;
