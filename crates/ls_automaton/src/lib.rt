//! The specification as an automaton: its states are those of a program between calls that run one at a time. Who
//! observes a history holds pairs of such a state and of what pending calls have done.
#![tactic(auto)]

mod event_hashing;
pub mod fate;
pub mod laws;
pub mod merging;
pub mod next;
pub mod once_laws;
pub mod outcome;
pub mod pairs;
pub mod pending;
mod spots;
pub mod states;
pub mod table;
