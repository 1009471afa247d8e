//! Histories as text: printing the events of a run, and reading a history that is handed in.
#![tactic(auto)]

pub mod cuts;
mod discipline;
mod fault;
mod front;
pub mod history;
mod line_reading;
mod lines;
mod printing;
mod reading;

pub use fault::HistoryFault;
pub use history::{History, NamedEvent, Occurrence};
pub use line_reading::number_in;
pub use lines::kind_name;
pub use printing::{object_name, print_history, push_words};
pub use reading::read_history;
