//! A run, or all states of a program from a schedule on, as the data of a page: one JSON text.
#![tactic(auto)]

mod changes;
mod choices_parts;
mod choices_told;
mod data;
mod java;
mod lists;
mod numbers;
mod parts;
mod quoted;
mod setup;
mod states;
mod table;
mod tables;

pub use changes::changes_fill;
pub use choices_told::choices_data;
pub use data::{first_steps, history, page_data, page_data_with_order};
pub use java::java_data;
pub use parts::{Judged, Reference, Texts, Window};
pub use quoted::{push_quoted, quoted_reads_back};
pub use setup::setup_steps;
