//! Samples of schedules by number, their runs in many threads, and the tally of the runs: each distinct history once,
//! with how many seeds gave it, the least of them, and the verdict on it. The merge of tallies is the tally of all
//! seeds.
#![tactic(auto)]

mod batching;
mod counting;
mod fault;
mod gathering;
mod judged_printing;
mod judging;
mod keys;
pub mod laws;
pub mod merge_laws;
mod over;
mod printing;
mod runs;
mod samples;
mod schedules;
mod tally;

pub use batching::batch;
pub use counting::{Counts, joined};
pub use fault::BatchFault;
pub use judged_printing::{print_judged, print_judged_like};
pub use judging::Judgement;
pub use printing::print_tally;
pub use samples::{Sampler, sample};
pub use schedules::sampled;
pub use tally::{Entry, Tally};
