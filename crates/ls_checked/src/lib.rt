//! The checked tree of a class text, and thread programs, as plain data.
#![tactic(auto)]

pub mod program;
pub mod tree;
