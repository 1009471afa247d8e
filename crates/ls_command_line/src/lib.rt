//! The command line: which command the words ask for, and which words name what is read.
#![tactic(auto)]

mod explores;
mod line;
mod options;
mod plain;
mod searches;
mod sorting;
mod words;

pub use sorting::{Awaits, Given, sort_words};
pub use words::{CommandLine, Paging, Request, Seeking, Side, WordsFault, read_words};
