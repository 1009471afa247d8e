//! Typing of statements: what a statement of a class text's tree means in its scope, or a broken rule and its place.
#![tactic(auto)]

pub mod forms;
pub mod loops;
pub mod scope;
pub mod statements;
