//! Reading Java files: the tree of a text, or the first place that doesn't fit.
#![tactic(auto)]

pub mod heads;
pub mod members;
pub mod reading;
