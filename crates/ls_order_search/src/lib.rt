//! A legal order of a history's set calls, or else the event with which there is none any more.
#![tactic(auto)]

mod choice;
mod closing;
pub mod fault;
pub mod finding;
mod items;
pub mod judging;
mod opening;
mod places;
mod pool;
pub mod printing;
mod searching;
pub mod telling;
mod trapped;
mod trying;

pub use fault::SearchFault;
pub use finding::find_order;
pub use judging::{OrderAnswer, judge};
pub use printing::{order_line, order_reads_back};
pub use telling::tell;
pub use trapped::MOST_TRAPPED;
