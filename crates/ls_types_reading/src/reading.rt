// A thread program as it is read, token by token.

use crate::setup_names::SetupNames;
use ls_checked::program::{ProgramCall, ThreadProgram};
use ls_types_checked::calls::Pending;

/// What comes next.
#[derive(Drop)]
pub enum Stage<'a> {
    AtSetup,
    AtBlock,
    AtCall,
    AfterName(&'a str, usize),
    AfterAssign(&'a str),
    AfterNew(&'a str),
    AfterDot(usize),
    AtArguments(Pending<'a>),
    AtFirst(Pending<'a>),
    AtArgument(Pending<'a>),
    /// The place of the minus comes second.
    AfterMinus(Pending<'a>, usize),
    AfterArgument(Pending<'a>),
    AtSemicolon(Pending<'a>),
    AtThread,
    AtThreadName,
}

/// What is read so far: the setup names, the threads that are read whole, and the name and calls of the next thread.
#[derive(Drop)]
pub struct Parts {
    pub names: SetupNames,
    pub threads: Vec<ThreadProgram>,
    pub name: String,
    pub calls: Vec<ProgramCall>,
}
