//! What legal serial histories explain is legal, for every class whose calls are set calls.
#![tactic(auto)]

pub mod laws;
