//! The class text of the list with one lock is a set, for programs of any size: by source steps and on the machine.
#![tactic(auto)]

pub mod laws;
