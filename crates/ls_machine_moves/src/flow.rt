// How a frame and the cells say what they did.

use ls_code::instruction::{Resume, ThreadInstruction};
use ls_events::action::{Action, Answer};
use ls_events::kind::Kind;
use std::alloc::AllocError;

/// How a frame goes on after a silent instruction; the other instructions are left to `acting`. It fits into two bytes.
#[derive(Copy)]
pub enum Quick {
    Next,
    Throws(Kind),
    Stuck,
    Other,
}

impl Clone for Quick {
    fn clone(&self) -> Result<Quick, AllocError> {
        Ok(*self)
    }
}

/// How a frame goes on at an instruction that isn't silent.
#[derive(Copy)]
pub enum Flow {
    Throws(Kind),
    Stuck,
    Asks(Action<u64>, Resume),
    Beyond(ThreadInstruction),
}

impl Clone for Flow {
    fn clone(&self) -> Result<Flow, AllocError> {
        Ok(*self)
    }
}

/// How the cells answer an action: with an answer, or the thread waits, or the machine stops, or there is no such cell.
#[derive(Copy)]
pub enum Reply {
    Answered(Answer<u64>),
    Waits,
    Stops,
    Unfit,
}

impl Clone for Reply {
    fn clone(&self) -> Result<Reply, AllocError> {
        Ok(*self)
    }
}
