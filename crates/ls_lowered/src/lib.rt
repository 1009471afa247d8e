//! The lowered tree: trees over words, for all lowerings between the checked tree and the code. Their meaning is in
//! specs/: what a tree asks for after given answers.
#![tactic(auto)]

pub mod fault;
pub mod tree;
