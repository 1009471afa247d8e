//! From a class text and a program text to an image that runs as these texts.
#![tactic(auto)]

pub mod compiling;
pub mod fault;

pub use compiling::compile;
pub use ls_image::image::Image;
