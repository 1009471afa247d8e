//! The tokens that are left of a Java file, and what is read of them at once: names, modifiers and types.
#![tactic(auto)]

pub mod ahead;
pub mod modifiers;
pub mod reader;
pub mod signs;
pub mod types;
