//! Typing: what a text declares in tables by name, and what names find there.
#![tactic(auto)]

pub mod known;
pub mod members;
pub mod tables;
pub mod type_names;
