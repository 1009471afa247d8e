//! The search over the states of a source run, by the numbers of a store and of works, and of what is noted. It
//! starts where the setup leads to, and tells what an observer makes of all schedules of a program.
#![tactic(auto)]

pub mod advancing;
pub mod graphs;
pub mod keeping;
pub mod listing;
pub mod moving;
pub mod nameless;
pub mod noting;
pub mod numbering;
pub mod objects;
pub mod observing;
pub mod places;
pub mod roots;
pub mod run_listing;
pub mod running;
pub mod searching;
mod setting_up;
pub mod space;
pub mod steps;
pub mod verdict;
pub mod watching;
