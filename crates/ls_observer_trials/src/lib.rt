//! Trials of the observer of a specification as an automaton.
#![tactic(auto)]

#[cfg(test)]
mod counters;
