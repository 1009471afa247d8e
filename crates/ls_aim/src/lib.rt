//! Schedules by what happens: targets that threads go on to, and the steps that they take.
#![tactic(auto)]

mod aiming;
pub mod fault;
mod items;
mod labels;
pub mod laws;
mod reading;
mod runner;
mod texts;

pub use aiming::aim;
