//! The files of an input: how they are one input, which words name them, and where a byte of the input stands in them.
#![tactic(auto)]

mod joining;
mod lines;
mod marks;
mod names;

pub use joining::{joined, with_first};
pub use lines::{FileLine, file_line, part_start};
pub use marks::unmarked;
pub use names::{asking, file_names_in};
