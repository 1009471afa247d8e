//! Which calls and which setup names of thread programs are the same.
#![tactic(auto)]

pub mod calls;
