//! What tests borrow: images, digests of what steps did, a gate in which threads meet, and a hoard that takes all
//! memory away.
#![tactic(auto)]

mod digests;
mod hoard;
mod images;
mod meeting;

pub use digests::{mixed, with_did};
pub use hoard::Hoard;
pub use images::with_image;
pub use meeting::Meeting;
