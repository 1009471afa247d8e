//! Reading the statements of Java files.
#![tactic(auto)]

pub mod joining;
pub mod loops;
pub mod simple;
pub mod statements;
pub mod switches;
