//! Reading of modifiers, types and declarations. Functions that read are refused as those of `ls_parser_expressions`
//! are.
#![tactic(auto)]

pub mod declarations;
