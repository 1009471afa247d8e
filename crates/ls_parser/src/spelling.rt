//! The tokens that spell a tree.

pub use ls_parser_spelling::spelling::spell;
