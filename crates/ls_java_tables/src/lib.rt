//! What a Java file declares, and what restating it needs: words, ropes, kinds, notes and refusals.
#![tactic(auto)]

pub mod beginning;
pub mod choosing;
pub mod collecting;
pub mod constants;
pub mod declaring;
pub mod finding;
pub mod generics;
pub mod halves;
pub mod kept;
pub mod kinds;
pub mod library;
pub mod needs;
pub mod remarks;
pub mod restater;
pub mod ropes;
pub mod scanning;
pub mod sentences;
pub mod shapes;
pub mod spelling;
pub mod tables;
pub mod types;
pub mod values;
pub mod words;
