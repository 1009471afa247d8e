//! What the main theorem asks of the meaning: typed files and typed thread programs ask for actions on things and
//! values of the right types. And what the checked form of `synchronized` keeps of its parts.
#![tactic(auto)]

pub mod laws;
pub mod monitors;
