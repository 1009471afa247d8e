//! The command `find`: what it says of a class text.
#![tactic(auto)]

mod among;
mod besides;
mod command;
mod entries;
mod faulty;
mod giving;
mod lacking;
pub mod laws;
mod looking;
mod menus;
mod noting;
mod racing;
mod silent;
mod whole;

pub use command::{Range, find, print_program};
pub use ls_class_programs::{Choosing, Integers};
pub use ls_families::Bounds;
pub use ls_find::Sought;
pub use menus::Texts;
