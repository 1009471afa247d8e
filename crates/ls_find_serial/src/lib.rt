//! Calls that throw or never end where calls run one at a time: in how many programs of a class, and in which first.
#![tactic(auto)]

mod lines;
mod programs;

pub use lines::{first_faulty, serial_lines};
pub use programs::tell_numbers;
