//! Tallies by the texts of their histories: how they are read, and their merge.
#![tactic(auto)]

mod blocks;
mod entries;
mod fault;
mod gathering;
mod heads;
pub mod laws;
mod merging;
mod printing;
mod reading;
mod row;
mod totals;

pub use fault::TallyFault;
pub use merging::merged;
pub use printing::print_rows;
pub use reading::read_rows;
pub use row::Row;
pub use totals::total;
