//! The machine's code and its meaning: instructions and their words, codes, threads, cells, runs, and threads that
//! are fed their answers.
#![tactic(auto)]

pub mod code;
pub mod instruction;
pub mod laws;
pub mod lock_word;
pub mod step;
