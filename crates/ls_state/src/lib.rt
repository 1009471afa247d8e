//! What holds after a schedule: what the objects and the setup names hold, and what the threads ask for next. As
//! lines, and as a graph in the language of Graphviz.
#![tactic(auto)]

pub mod array;
mod asking;
pub mod graphs;
pub mod objects;
mod ranges;
pub mod scene;
pub mod telling;

pub use graphs::drawing;
pub use ranges::{Form, each};
pub use telling::state;
