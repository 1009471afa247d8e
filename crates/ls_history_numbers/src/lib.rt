//! Histories by number, no two of which are the same, and which of them stand in rows.
#![tactic(auto)]

mod choosing;
mod numbering;

pub use choosing::choose;
pub use numbering::{Known, none, number_all, number_of};
