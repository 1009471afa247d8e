//! The command `page` where one chooses who steps next: the data of the page, from the texts of an input.
#![tactic(auto)]

pub mod choosing;
pub mod wanted;
