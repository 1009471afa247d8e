//! Whether the histories of all schedules of a program are linearizable, and whether threads wait for ever, by the
//! states of the source. Its observer notes which pairs are left of a state of the specification and of pending calls.
#![tactic(auto)]

mod judging;
pub mod laws;
mod observing;
mod simplifying;
mod tabling;
mod watched;
pub mod watching;
mod wholes;

pub use judging::{Judged, judge_schedules};
pub use simplifying::simplest_unexplained;
pub use tabling::{Noted, Pairs};
pub use watched::PairsObserver;
