//! Calls of a program that run one at a time, by a search in which threads switch only between calls.
#![tactic(auto)]

pub mod endless;
pub mod following;
pub mod laws;
pub mod marks;
pub mod playing;
mod searching;
mod standing;
pub mod telling;
