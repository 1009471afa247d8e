//! The tokens that spell a tree, and which file with places a text is.
#![tactic(auto)]

mod classes;
mod declarations;
mod expressions;
mod kinds;
pub mod placing;
mod simples;
pub mod spelling;
mod statements;

pub use crate::spelling::spell;
