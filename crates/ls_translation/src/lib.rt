//! Schedules of the machine as schedules of the source, and back.
#![tactic(auto)]

pub mod fault;
pub mod laws;
mod machine_run;
mod machine_steps;
mod playing;
mod room;
mod source_steps;

pub use machine_steps::to_machine;
pub use playing::play_source;
pub use source_steps::to_source;
