//! The classes that are added to those of a Java file: what stands for classes of the library and for arrays.
#![tactic(auto)]

pub mod added;
mod arrays;
mod atomics;
mod patterns;
mod synchronizers;
