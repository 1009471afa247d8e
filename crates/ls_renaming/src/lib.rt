//! Things and what threads still have to do, with other numbers of objects: those of the order in which objects are
//! reached.
#![tactic(auto)]

pub mod actions;
mod arrays;
pub mod constants;
pub mod names;
pub mod phases;
mod references;
pub mod renumbering;
mod stores;
pub mod things;
pub mod trees;
mod walk;
pub mod work;
