//! Reading of tokens: the next tokens, and what is made of them.
#![tactic(auto)]

pub mod tokens;
