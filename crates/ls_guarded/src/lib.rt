//! Which lock guards the calls of a class: the monitor of the object, the lock in one of its fields, or none that can
//! be told from the form of its methods.
#![tactic(auto)]

pub mod clean;
mod forms;
pub mod giving;
pub mod guard;
pub mod laws;
pub mod marks;
pub mod methods;
pub mod plain;
pub mod programs;
pub mod reasons;
pub mod rounds;
pub mod shapes;
