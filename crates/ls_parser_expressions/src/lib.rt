//! Reading of expressions: the lower half of the parser. A function that reads is refused with `Syntax` if the tokens
//! don't begin with what it reads. It is refused with `TooDeep` if a tree is higher than its limit, in nodes. It is
//! refused with `BadNumber` if 2147483648 isn't directly after a unary minus. Else the only refusal is that memory ran
//! out.
#![tactic(auto)]

pub mod expressions;
pub mod operators;
pub mod primaries;
mod suffixes;
