//! What the Java meaning and the machine share: values, what a thread asks of the store, what it is answered, the
//! events of a history, and schedules.
#![tactic(auto)]

pub mod action;
pub mod event;
pub mod kind;
pub mod same;
pub mod schedule;
pub mod value;
