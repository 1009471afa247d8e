//! What is found among the programs of a class, as a text and for a script, and what ranges of numbers add up to.
#![tactic(auto)]

mod adding;
mod fault;
mod figures;
mod printing;
mod program_lines;
mod programs;
mod range_figures;
mod reading;
mod report;
mod statuses;
mod words;

pub use adding::add_up;
pub use fault::RangeFault;
pub use figures::{Figures, figures_of};
pub use printing::{Shown, none_line, print_found, print_none, push_figures, push_number};
pub use statuses::{status_of, statuses_are_so};
