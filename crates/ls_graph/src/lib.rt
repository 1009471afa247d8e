//! Graphs that are found node by node: what actors do at each node, and what follows from all of it.
#![tactic(auto)]

pub mod closing;
pub mod costs;
pub mod front;
pub mod least;
pub mod marks;
pub mod nodes;
pub mod space;
pub mod walks;
