//! The program, but for the handing over of the real streams.
#![tactic(auto)]

pub mod answer;
mod asked;
mod commands;
mod explained;
mod java;
mod noted;
mod pages;
mod programs;
mod progress;
mod referred;
mod refusal;
mod running;
mod said;
mod streams;
mod views;
mod wanted;

pub use ls_command_line::Request;
pub use ls_faults::fault::ToolFault;
pub use refusal::Refusal;
pub use running::{Exit, run};
pub use said::Said;
