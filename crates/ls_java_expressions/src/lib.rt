//! Expressions of Java files, restated: statements that come before, and an expression of the class text.
#![tactic(auto)]

pub mod arguments;
pub mod arrays;
pub mod assignments;
pub mod atomics;
pub mod calls;
pub mod choices;
pub mod copying;
pub mod creating;
pub mod creations;
pub mod expressions;
pub mod invoking;
pub mod library;
pub mod members;
pub mod numbers;
pub mod operators;
pub mod parts;
pub mod receivers;
pub mod simple;
pub mod statics;
pub mod targets;
pub mod waiting;
pub mod writing;
