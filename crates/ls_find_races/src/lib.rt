//! The data races of the programs of a class: the judge of a search for the first program that has one.
#![tactic(auto)]

mod explorer;
mod laws;
mod quiet;

pub use explorer::{RaceExplorer, RaceFound, RaceWhy};
pub use laws::race_free_follows;
pub use quiet::{QuietExplorer, Unsettled, with_free};
