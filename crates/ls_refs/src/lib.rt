//! The first lowering: values become words, each call's temporaries locals, loops leavable statements, and methods and
//! files trees over words.
#![tactic(auto)]

pub mod calls;
mod counts;
pub mod expression_counts;
pub mod expressions;
pub mod laws;
mod loops;
pub mod lower;
mod statements;
