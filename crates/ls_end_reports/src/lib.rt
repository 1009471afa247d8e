//! The text of whether a program's calls end.
#![tactic(auto)]

mod lassos;
mod livelocks;
mod words;
mod writing;

pub use livelocks::livelock_line;
pub use words::print_calls;
pub use writing::{CallText, FairText, FreeText, GoingText, written_calls};
