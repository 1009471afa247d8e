//! The specification of a program: another class text, of which the program's text is a program too, whose calls answer
//! values of the same types.
#![tactic(auto)]

mod fault;
mod results;
mod specifying;

pub use fault::SpecificationFault;
pub use specifying::specified;
