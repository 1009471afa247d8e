//! Progress: which calls of a program end whatever other threads do, and which may never end.
#![tactic(auto)]

mod arrays;
mod components;
mod constants;
mod cycles;
mod fairness;
mod judging;
mod kinds;
mod labelled;
mod labels;
mod lassos;
mod livelocks;
mod passing;
mod ranking;
mod ranks;
mod sorts;
mod space;
mod states;

pub use judging::{CallEnds, Ends, Fair, Free, Going, ends_of};
pub use lassos::Lasso;
pub use livelocks::find_livelock;
pub use states::Scope;
