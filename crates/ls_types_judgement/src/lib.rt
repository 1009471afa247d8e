//! The judgement of checked files and thread programs: what each keeps that `check` and `read_program` answer. And why
//! the rules of normal completion agree with the meaning.
#![tactic(auto)]

pub mod completion;
