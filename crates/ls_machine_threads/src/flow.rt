// What a thread says of its next step, and of what became of a call.

use ls_events::kind::Kind;
use std::alloc::AllocError;

/// What became of a call of a method: it was entered, it throws, or the thread is stuck.
#[derive(Copy)]
pub enum Entered {
    Entered,
    Throws(Kind),
    Stuck,
}

impl Clone for Entered {
    fn clone(&self) -> Result<Entered, AllocError> {
        Ok(*self)
    }
}

/// An instruction that neither stops the machine nor is an event, and that most code has.
#[derive(Copy)]
pub enum Acting {
    Turn(u32),
    GetField(u32),
    PutField(u32),
    Enter(u32),
    Leave,
    LeaveWith,
    See(u32),
    Take(u32),
    DropLock(u32),
}

impl Clone for Acting {
    fn clone(&self) -> Result<Acting, AllocError> {
        Ok(*self)
    }
}
