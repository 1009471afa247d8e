//! Writers that know whether they have failed. All of some bytes is written, or a beginning of them, and the writer has
//! failed.
#![tactic(auto)]

mod framed;
mod outlet;
mod watched;
mod writing;

pub use framed::Framed;
pub use outlet::Outlet;
pub use watched::Watched;
pub use writing::{write_out, write_whole};
