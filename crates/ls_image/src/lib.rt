//! Images: the code of a class text and a program text, with laws of how it runs.
#![tactic(auto)]

pub mod image;
pub mod laws;
