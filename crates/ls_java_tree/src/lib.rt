//! Trees of Java files: what a reader of Java SE 8 makes of a text.
#![tactic(auto)]

pub mod declarations;
pub mod expressions;
pub mod names;
pub mod statements;
pub mod types;
