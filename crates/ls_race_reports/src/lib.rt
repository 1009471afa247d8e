//! The data races of an image's program, by the fields that its class text declares volatile, and variables as words.
#![tactic(auto)]

mod beside;
mod declared;
mod finding;
mod verdict;
mod words;

pub use beside::{free_words, raced_words};
pub use declared::{flags_in, has_try_lock};
pub use finding::{first_sure, races_of};
pub use verdict::{RaceVerdict, race_verdict};
pub use words::kind_words;
