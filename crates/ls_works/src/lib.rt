//! Pending work: whether it is the same, copies of it, and that it means the same under other names of objects.
#![tactic(auto)]

pub mod actions;
pub mod copies;
pub mod laws;
pub mod statements;
pub mod trees;
pub mod values;
pub mod work;
