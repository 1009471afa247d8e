//! All schedules of a program at once: what a list of machines shows that is closed under what each thread does until
//! it acts, the search for these machines, and what the search tells of an image.
#![tactic(auto)]

mod exploring;
mod fault;
mod hashing;
mod images;
pub mod laws;
mod links;
mod machine_room;
pub mod room;
mod rows;
mod searching;
mod setting;
mod source;
mod table;
mod walking;

pub use exploring::{Exploration, Extent, explore};
pub use fault::ExploreFault;
pub use images::{ImageExploration, MOST_STATES, explore_image};
pub use ls_source_rows::{Nobody, Watch};
pub use rows::{Ending, Row};
pub use source::explore_source;
