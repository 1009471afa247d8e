//! Reading of statements: the middle of the parser. Functions that read are refused as those of
//! `ls_parser_expressions` are.
#![tactic(auto)]

pub mod simple_statements;
pub mod simples;
pub mod statements;
