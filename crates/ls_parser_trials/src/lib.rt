//! Tests of lexing, parsing and spelling. They are apart from the crates that they test. So the tests are proved
//! without proving those crates again.
#![tactic(auto)]

#[cfg(test)]
mod accepted;
#[cfg(test)]
mod lexing;
#[cfg(test)]
mod parsing;
