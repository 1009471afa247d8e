//! Statements of Java files, restated as statements of the class text.
#![tactic(auto)]

pub mod bodies;
pub mod branches;
pub mod endings;
pub mod fors;
pub mod locals;
pub mod loops;
pub mod monitors;
pub mod statements;
pub mod switches;
pub mod throws;
