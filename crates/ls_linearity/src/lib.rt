//! Whether a history is linearizable to a specification. The states of the specification between its calls are tabled
//! once, and each history is followed through them, event by event.
#![tactic(auto)]

pub mod following;
pub mod judging;
pub mod laws;
pub mod table;

pub use judging::{Linearity, SerialJudge, judge_for, linearity_by, own_judge};
