//! Reading the expressions of Java files. The blocks of lambdas and the bodies of anonymous classes are left for later.
#![tactic(auto)]

pub mod creations;
pub mod expressions;
pub mod lambdas;
pub mod making;
pub mod operators;
pub mod primaries;
pub mod suffixes;
