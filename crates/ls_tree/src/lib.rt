//! Trees of class texts: what a parser makes, and which trees the grammar has.
#![tactic(auto)]

pub mod numbers;
pub mod tree;
