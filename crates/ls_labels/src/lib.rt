//! What the objects of a run are called, and its actions and threads in words.
#![tactic(auto)]

pub mod label;
pub mod names;
pub mod numbers;
pub mod objects;
pub mod threads;
pub mod words;
