//! The programs of a class: which class is meant, its menu of calls, and the family over the menu. The entries of a
//! menu that is written by hand are checked to be calls of the class.
#![tactic(auto)]

mod arguments;
mod checking;
mod choosing;
mod class_meant;
mod entry_fault;
mod fault;
mod menu_fault;
mod menus;
mod placing;
mod programs;
mod written;

pub use arguments::{Integers, MOST_VALUES};
pub use checking::check_entries;
pub use choosing::Choosing;
pub use class_meant::meant;
pub use entry_fault::EntryFault;
pub use fault::ClassFault;
pub use menu_fault::MenuFault;
pub use menus::{calls_of, makings_of};
pub use placing::place_of_call;
pub use programs::{ClassPrograms, programs_of};
pub use written::{Entry, entries_of};
