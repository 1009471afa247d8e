//! Java as people write it, restated as a class text that keeps every rule.
#![tactic(auto)]

mod accepting;
pub mod fault;
pub mod remarks;
pub mod restating;
pub mod told;
