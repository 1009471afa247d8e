//! Programs of classes without loops: their threads never turn for ever, whatever their size.
#![tactic(auto)]

pub mod laws;
pub mod loops;
