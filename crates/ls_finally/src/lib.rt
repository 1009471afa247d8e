//! `finally` by copied exits: the second lowering. Its definitions and its law are in specs/.
#![tactic(auto)]

pub mod cases;
mod counts;
pub mod files;
mod flatten;
pub mod laws;
mod stays;
