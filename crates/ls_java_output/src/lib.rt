//! The class text of what was restated, laid out as the Java file, with its comments, and where its words come from.
#![tactic(auto)]

mod comments;
mod gaps;
mod going;
pub mod keeping;
mod kept;
pub mod layout;
mod leaves;
pub mod lines;
mod order;
mod page;
pub mod place;
pub mod placed;
mod spacing;
