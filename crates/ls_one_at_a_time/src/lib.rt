//! Programs whose calls run one at a time: each method that is called locks the monitor of its object, or one field of
//! it, round its whole body.
#![tactic(auto)]

pub mod laws;
