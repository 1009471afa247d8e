//! Typing: its definitions, and how names find what is declared.
#![tactic(auto)]

pub mod elaborated_file;
pub mod known;
pub mod loops;
pub mod members;
pub mod mismatch;
pub mod numbers;
pub mod rule;
pub mod static_types;
pub mod together;
