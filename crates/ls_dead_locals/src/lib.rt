//! What a thread still has to do, without the locals that it never reads again.
#![tactic(auto)]

pub mod expressions;
pub mod forgetting;
pub mod frames;
pub mod statements;
