//! What `--explain` says: after a fault's line the line of the text, with a mark under the fault's place, and what to
//! write there; and after a verdict on an order why the order isn't legal.
#![tactic(auto)]

mod classes;
mod explaining;
mod form_hints;
mod forms;
mod held;
mod lessons;
mod limit;
mod mismatch;
mod named;
mod names;
mod nearby;
mod noting;
mod place;
mod programs;
mod sentences;
mod signs;
mod spot;
mod tokens;
mod types;
mod words;

pub use explaining::explain;
pub use named::explain_named;
pub use noting::order_note;
pub use place::{Part, PartSpan, place_of};
