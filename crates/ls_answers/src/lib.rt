//! What a function answers that may run out of memory, beside what is said of its answer.
#![tactic(auto)]
