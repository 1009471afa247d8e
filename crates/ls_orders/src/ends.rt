// How calls end, from the last event to the first.

ghost use Rattle.std.specs.Prelude.{◌≡◌, ◌==◌, ◌&&◌, ℕ, IfOk, OnOk, if◌then◌else◌};
ghost use Rattle.ls_orders.specs.declared.calls.End.TheVariants.{Pending};
ghost use Rattle.std.specs.Str.{bytes_eq};
ghost use Rattle.ls_report.specs.Events.{Text};
ghost use Rattle.ls_report.specs.Plain.{plain_occurrence};
ghost use Rattle.ls_orders.specs.Ends.{ended};
ghost use Rattle.ls_orders.specs.SetCalls.{end_at, reply_of};

use crate::calls::End;
use ls_events::value::Value;
use ls_report::history::{NamedEvent, Occurrence};
use std::alloc::AllocError;
use std::collections::HashMap;

fn reply_of(value: Option<Value>) -> Option<bool>
    ensures { result ≡ reply_of value }
{
    match value {
        Some(Value::Boolean(b)) => Some(b),
        _ => None,
    }
}

fn end_at(at: usize, occurrence: &Occurrence<'_>) -> End
    ensures { result ≡ end_at at (plain_occurrence occurrence.now) }
{
    match occurrence {
        Occurrence::Returned(value) => End::Returned(at, reply_of(*value)),
        Occurrence::Trapped(_) => End::Trapped(at),
        _ => End::Pending,
    }
}

/// How the call ends, which is open from here on.
fn take_end<'a>(ends: &mut HashMap<(usize, &'a str), End>, call: (usize, &'a str)) -> End
    ensures behind { result ≡ ended ends.old call.entry.1.now call.entry.0 }
    ensures put { (thread : Text) (number : ℕ) → ended ends.new thread number
        ≡ (if bytes_eq call.entry.1.now thread && call.entry.0 == number then Pending else ended ends.old
        thread number) }
{
    ends.remove(&call).unwrap_or(End::Pending)
}

/// Puts how the call ends, and answers what was there.
fn put_end<'a>(
    ends: &mut HashMap<(usize, &'a str), End>,
    call: (usize, &'a str),
    end: End,
) -> Result<End, AllocError>
    ensures behind { IfOk result (λ behind. behind ≡ ended ends.old call.entry.1.now call.entry.0) }
    ensures put { OnOk result ((thread : Text) (number : ℕ) → ended ends.new thread number
        ≡ (if bytes_eq call.entry.1.now thread && call.entry.0 == number then end else ended ends.old thread number)) }
{
    let behind = ends.insert(call, end)?;
    Ok(behind.unwrap_or(End::Pending))
}

/// Puts an event before those that the map knows, and answers how its call ends after it. The map has the calls that
/// have ended and haven't begun yet. They are found by their numbers and the names of their threads. Of a history the
/// map has at most one call of each thread.
pub(crate) fn put_event<'a>(
    ends: &mut HashMap<(usize, &'a str), End>,
    at: usize,
    event: &NamedEvent<'a>,
) -> Result<End, AllocError>
    ensures behind { IfOk result (λ end. end ≡ ended ends.old event.now.thread.now event.now.call) }
    ensures put { OnOk result ((thread : Text) (number : ℕ) → ended ends.new thread number
        ≡ (if bytes_eq event.now.thread.now thread && event.now.call == number
        then end_at at (plain_occurrence event.now.occurrence) else ended ends.old thread number)) }
{
    let call = (event.call, event.thread);
    match end_at(at, &event.occurrence) {
        End::Pending => Ok(take_end(ends, call)),
        end => put_end(ends, call, end),
    }
}
