//! The code of lowered trees, method by method.
#![tactic(auto)]

pub mod ahead;
pub mod code_unit;
pub mod emission;
pub mod emitting;
pub mod expressions;
pub mod fault;
pub mod laws;
pub mod layout;
pub mod lengths;
pub mod locks;
pub mod needs;
pub mod sizes;
pub mod statements;
pub mod targets;

pub use emitting::emit;
