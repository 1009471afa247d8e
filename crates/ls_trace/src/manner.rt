// What may be told of neighbouring steps in one line.

ghost use Rattle.std.specs.Prelude.{◌≡◌};
ghost use Rattle.ls_trace.specs.Manners.{action_manner, attempt_manner, look_manner, manner_of};

use ls_events::action::{Action, Answer};
use ls_events::value::Value;
use ls_meaning::step::Did;
use std::alloc::AllocError;

/// How a step is told: alone, or in one line with neighbours of the same manner.
#[derive(Copy)]
pub enum Manner {
    /// It changes the store, it is an event, or it is answered by an exception.
    Alone,
    /// It reads, asks, enters a method or goes round a loop.
    Look,
    /// It attempts to take a lock or to set a markable, and fails.
    Attempt,
    /// It waits.
    Wait,
    /// Its thread hasn't started or has ended.
    Rest,
}

impl Clone for Manner {
    fn clone(&self) -> Result<Manner, AllocError> {
        Ok(*self)
    }
}

// An attempt that is answered `false` fails.
fn attempt_manner(answer: Answer<Value>) -> Manner
    ensures { result ≡ attempt_manner answer }
{
    match answer {
        Answer::Gives(Value::Boolean(false)) => Manner::Attempt,
        _ => Manner::Alone,
    }
}

// A look that is answered by an exception is told alone.
fn look_manner(answer: Answer<Value>) -> Manner
    ensures { result ≡ look_manner answer }
{
    match answer {
        Answer::Fails(_) => Manner::Alone,
        _ => Manner::Look,
    }
}

fn action_manner(action: Action<Value>, answer: Answer<Value>) -> Manner
    ensures { result ≡ action_manner action answer }
{
    match action {
        Action::ReadField { .. }
        | Action::ReadItem { .. }
        | Action::ReadName(_)
        | Action::ReadPair(_)
        | Action::IsHeld(_)
        | Action::Turn
        | Action::Enter(_) => look_manner(answer),
        Action::TryLock(_) | Action::SwapPair { .. } | Action::AttemptMark { .. } => {
            attempt_manner(answer)
        }
        _ => Manner::Alone,
    }
}

/// How a step is told, by what it did.
pub(crate) fn manner_of(did: Did) -> Manner
    ensures { result ≡ manner_of did }
{
    match did {
        Did::Acted(action, answer) => action_manner(action, answer),
        Did::Waits => Manner::Wait,
        Did::Idle => Manner::Rest,
    }
}
