//! Progress: wait-free, lock-free and obstruction-free calls, and what a lasso and what ranks show of a call.
#![tactic(auto)]

pub mod laws;
