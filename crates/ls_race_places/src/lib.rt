//! Where the accesses of a race stand in the class text: in which method, and on which line.
#![tactic(auto)]

mod courses;
mod marks;
mod places;
mod scopes;
mod sought;
mod uses;

pub use places::{ClassText, push_last_lines, tokens_in};
