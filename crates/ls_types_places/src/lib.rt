//! What elaboration answers for the tree of a class text doesn't depend on places.
#![tactic(auto)]

pub mod laws;
