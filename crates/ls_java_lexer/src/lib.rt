//! Tokens of Java files, with the gaps before them.
#![tactic(auto)]

pub mod fault;
pub mod gaps;
pub mod laws;
pub mod lexing;
mod numbers;
mod scanning;
mod signs;
pub mod token;
mod words;
