//! Typing of methods and files: the checked file of a class text's tree, or a broken rule and its place.
#![tactic(auto)]

pub mod checking;
pub mod classes;
mod completion;
mod elaboration;
mod methods;
pub mod signs;

pub use checking::check;
