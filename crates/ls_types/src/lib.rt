//! Typing: the checked file of a class text's tree, and the thread programs of a checked file.
#![tactic(auto)]

pub use ls_types_checked::checked::{CheckFault, Checked};
pub use ls_types_checked::fault::ProgramFault;
pub use ls_types_checked::source::Source;
pub use ls_types_files::check;
pub use ls_types_reading::program::read_program;
