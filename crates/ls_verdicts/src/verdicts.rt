// Verdicts on the histories of runs.

ghost use Rattle.std.specs.Prelude.{◌≡◌, IfOk};
ghost use Rattle.ls_checked.specs.PlainProgram.{plain_program};
ghost use Rattle.ls_verdicts.specs.Outcomes.{verdict_of};
ghost use Rattle.ls_verdicts.specs.Verdicts.{IsHistoryOf, IsVerdict};

use crate::naming::named_events;
use ls_checked::program::Program;
use ls_events::event::Event;
use ls_order_search::judging::{OrderAnswer, judge};
use std::alloc::{AllocError, Global};

/// The verdict on a history.
#[derive(Copy, PartialEq, Eq)]
pub enum Verdict {
    /// All calls are set calls on one object, and they have a legal order.
    Legal,
    /// All calls are set calls on one object, and no order of them is legal.
    Illegal,
    /// A call isn't a set call on the same object as the first set call.
    NotOneSet,
    /// All calls are set calls on one object, and an item has more than 12 trapped calls.
    TooManyTrapped,
}

impl Clone for Verdict {
    fn clone(&self) -> Result<Verdict, AllocError> {
        Ok(*self)
    }
}

/// The verdict of an outcome.
fn verdict_of(outcome: &OrderAnswer) -> Verdict
    ensures { result ≡ verdict_of outcome.now }
{
    match outcome {
        OrderAnswer::NotOneSet(_) => Verdict::NotOneSet,
        OrderAnswer::TooManyTrapped => Verdict::TooManyTrapped,
        OrderAnswer::Legal(_) => Verdict::Legal,
        OrderAnswer::Hopeless { .. } => Verdict::Illegal,
    }
}

/// The verdict on a history of a run of the program, by the names that the program gives to the calls. The only
/// refusal is that memory ran out.
pub fn verdict_on(
    alloc: Global,
    history: &[Event],
    program: &Program,
) -> Result<Verdict, AllocError>
    requires { IsHistoryOf (plain_program program.now) history.now }
    ensures { IfOk result (IsVerdict (plain_program program.now) history.now) }
{
    let events = named_events(alloc, history, program)?;
    let outcome = judge(alloc, events.as_slice())?;
    Ok(verdict_of(&outcome))
}
