//! Trees of class texts: the parser, and the spelling of a tree.
#![tactic(auto)]

mod class_trees;
mod imports;
pub mod parsing;
pub mod spelling;

pub use crate::spelling::spell;
pub use ls_lexer::lexing::lex;
pub use ls_tree::tree::ClassFile;
pub use parsing::parse;
