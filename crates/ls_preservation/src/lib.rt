//! The main theorem: if the threads of code ask what the source asks, the code and the source have the same runs. And
//! the machine's thread acts in time if its source acts next, and it ends in time if its source has ended.
#![tactic(auto)]

pub mod ends;
pub mod laws;
pub mod wrong_codes;
