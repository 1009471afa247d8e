// The event with which a run ceases to have a legal order.

ghost use Rattle.std.specs.Prelude.{◌≡◌, IfNone, IfOk, IfSome};
ghost use Rattle.ls_checked.specs.PlainProgram.{plain_program};
ghost use Rattle.ls_verdicts.specs.Hopeless.{IsHopelessRun, IsIllegal, hopeless_at};
ghost use Rattle.ls_verdicts.specs.Verdicts.{IsHistoryOf};

use crate::naming::named_events;
use ls_checked::program::Program;
use ls_events::event::Event;
use ls_order_search::judging::{OrderAnswer, judge};
use std::alloc::{AllocError, Global};

fn hopeless_at(outcome: &OrderAnswer) -> Option<usize>
    ensures { result ≡ hopeless_at outcome.now }
{
    match outcome {
        OrderAnswer::NotOneSet(_) | OrderAnswer::TooManyTrapped | OrderAnswer::Legal(_) => None,
        OrderAnswer::Hopeless { at, .. } => Some(*at),
    }
}

/// The place, from 0, of the event with which the history of a run ceases to have a legal order. None where the verdict
/// on it isn't that it has none. The only refusal is that memory ran out.
pub fn hopeless_on(
    alloc: Global,
    history: &[Event],
    program: &Program,
) -> Result<Option<usize>, AllocError>
    requires { IsHistoryOf (plain_program program.now) history.now }
    ensures some { IfOk result (λ at. IfSome at (IsHopelessRun (plain_program program.now) history.now)) }
    ensures none { IfOk result (λ at. IfNone at (¬ IsIllegal (plain_program program.now) history.now)) }
{
    let events = named_events(alloc, history, program)?;
    let outcome = judge(alloc, events.as_slice())?;
    Ok(hopeless_at(&outcome))
}
