//! Typing of expressions and assignments: the checked expression of a tree, or a broken rule and its place.
#![tactic(auto)]

pub mod assignments;
mod counting;
pub mod expressions;
pub mod operators;
pub mod places;
pub mod simple_values;
pub mod site;
