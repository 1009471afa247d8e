//! The exits of a statement without `try`, each in place of which stands a leave to its own copy of a finally block.
#![tactic(auto)]

mod counts;
pub mod exits;
pub mod replace;
