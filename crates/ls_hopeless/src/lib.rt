//! Which event of a history no order of whole calls explains, in words.
#![tactic(auto)]

mod finding;
mod line;
mod words;

pub use line::hopeless_line;
