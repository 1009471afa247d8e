//! Moves of pending work: those of statements, and from one question to the next.
#![tactic(auto)]

mod endings;
mod moves;
pub mod settling;
mod statements;
