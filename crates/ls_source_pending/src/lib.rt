//! Pending work, which is what is left to do of a statement and of all that is around it, and the moves of
//! expressions. Pending work doesn't look at earlier answers.
#![tactic(auto)]

mod calls;
mod expressions;
mod onward;
mod operands;
pub mod pending;
pub mod stack;
pub mod tables;
pub mod work;
