//! The store of a source run: the thing that each reference names, the setup names, and what an action does to these.
//! And what operators compute, and what is looked up in a checked file.
#![tactic(auto)]

pub mod lookups;
pub mod store;
pub mod thing;
pub mod value;
