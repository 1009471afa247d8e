//! Traces, states, pages and aims that were worked out by hand. The definitions compute exactly these.
#![tactic(auto)]

mod aims;
mod pages;
pub mod states;
mod traces;
