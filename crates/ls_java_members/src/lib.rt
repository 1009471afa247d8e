//! Classes of Java files, restated: fields, constructors, methods, and the classes in one another beside one another.
#![tactic(auto)]

pub mod classes;
mod constructors;
mod fields;
mod main_method;
mod methods;
mod places;
pub mod restating;
