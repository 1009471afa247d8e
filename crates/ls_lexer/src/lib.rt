//! Tokens of a class text or a program text.
#![tactic(auto)]

pub mod characters;
pub mod fault;
pub mod laws;
pub mod lexing;
mod longest_sign;
pub mod names;
mod numbers;
mod reserved;
mod runs;
mod scanning;
pub mod sign;
pub mod token;
pub mod word;
