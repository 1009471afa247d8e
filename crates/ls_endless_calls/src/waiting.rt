// Which pending calls of a history are the last of no run of calls one at a time.

ghost use Rattle.std.specs.Prelude.{◌<◌, Decides, IfNone, IfSome, MatchBool, length};
ghost use Rattle.ls_serial.specs.Serial.{IsEndOf};
ghost use Rattle.ls_serial_search.specs.Histories.{lists_of};
ghost use Rattle.ls_endless_calls.specs.Waits.{AreExcused, IsExcusedAt, IsPendingAt, IsRunAmong, IsRunTo, IsUnexcused};

use crate::explaining::explains_alone;
use ls_events::event::Event;
use ls_events::same::is_event;
use ls_serial::explaining::is_called;

/// Whether an event is the end of a call.
fn is_end_of(call: &Event, end: &Event) -> bool
    ensures { Decides result (IsEndOf call.now end.now) }
{
    !is_called(end.happening) && end.thread == call.thread && end.call == call.call
}

/// Whether the event at a place of a history is a call that hasn't ended.
fn is_pending(history: &[Event], at: usize) -> bool
    requires { at < length history.now }
    ensures { Decides result (IsPendingAt history.now at) }
{
    if !is_called(history[at].happening) {
        return false;
    }
    for place in 0..history.len() {
        if is_end_of(&history[at], &history[place]) {
            return false;
        }
    }
    true
}

/// Whether a run is calls that explain a history, one after another, and then this call.
fn is_run_to(run: &[Event], history: &[Event], call: &Event) -> bool
    ensures { Decides result (IsRunTo run.now history.now call.now) }
{
    if run.is_empty() {
        return false;
    }
    let last = run.len() - 1;
    is_event(&run[last], call) && explains_alone(&run[..last], history)
}

/// Whether one of the runs is.
fn is_run_among(runs: &[Vec<Event>], history: &[Event], call: &Event) -> bool
    ensures { Decides result (IsRunAmong (lists_of runs.now) history.now call.now) }
{
    for at in 0..runs.len() {
        if is_run_to(runs[at].as_slice(), history, call) {
            return true;
        }
    }
    false
}

/// Whether the event at a place of a history is a call that is pending, and isn't the last of one of the runs.
fn is_unexcused(runs: &[Vec<Event>], history: &[Event], at: usize) -> bool
    requires { at < length history.now }
    ensures { MatchBool result (IsUnexcused (lists_of runs.now) history.now at)
        (IsExcusedAt (lists_of runs.now) history.now at) }
{
    if !is_pending(history, at) {
        return false;
    }
    !is_run_among(runs, history, &history[at])
}

/// The place of the first call of a history that is pending, and isn't the last of one of the runs. None if there is no
/// such call.
pub fn first_unexcused(runs: &[Vec<Event>], history: &[Event]) -> Option<usize>
    ensures some { IfSome result (IsUnexcused (lists_of runs.now) history.now) }
    ensures none { IfNone result (AreExcused (lists_of runs.now) history.now) }
{
    for at in 0..history.len() {
        if is_unexcused(runs, history, at) {
            return Some(at);
        }
    }
    None
}
