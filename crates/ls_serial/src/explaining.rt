// Whether a run's beginning explains a history.

ghost use Rattle.std.specs.Prelude.{◌≡◌, ◌+◌, ◌<◌, ◌≤◌, Contains, Decides, IfNone, IfSome, MatchBool, length, take};
ghost use Rattle.ls_serial.specs.Serial.{AreEnded, IsCall, IsEnd, IsEndOf, IsExplained, is_called};
ghost use Rattle.ls_serial.specs.Walks.{GoesOn, IsExplainedAt, IsMissing, MayCome};

use ls_events::event::{Event, Happening};
use ls_events::same::is_event;

/// Whether a call happened.
pub fn is_called(happening: Happening) -> bool
    ensures { result ≡ is_called happening }
{
    match happening {
        Happening::Called => true,
        Happening::Returned(_) | Happening::Trapped(_) => false,
    }
}

/// Whether the event is one of these.
pub fn has(events: &[Event], event: &Event) -> bool
    ensures { Decides result (Contains events.now event.now) }
{
    for i in 0..events.len() {
        if is_event(&events[i], event) {
            return true;
        }
    }
    false
}

/// Whether the first event is a call, and the second its end.
pub(crate) fn is_pair(call: &Event, end: &Event) -> bool
    ensures { Decides result (IsCall call.now × IsEndOf call.now end.now) }
{
    is_called(call.happening)
        && !is_called(end.happening)
        && end.thread == call.thread
        && end.call == call.call
}

/// Whether the event is an end, and isn't one of these.
fn is_missing(events: &[Event], event: &Event) -> bool
    ensures { MatchBool result (IsEnd event.now × (Contains events.now event.now → ⊥))
        (IsEnd event.now → Contains events.now event.now) }
{
    !is_called(event.happening) && !has(events, event)
}

/// The first place in the history of an end that isn't one of these events; and the history's length if there is none.
/// The ends before the place `from` are known to be there.
fn first_missing(history: &[Event], events: &[Event], from: usize) -> usize
    requires within { from ≤ length history.now }
    requires known { AreEnded (take from history.now) events.now }
    ensures within { result ≤ length history.now }
    ensures ended { AreEnded (take result history.now) events.now }
    ensures missing { result < length history.now → IsMissing history.now events.now result }
{
    for place in from..history.len() {
        if is_missing(events, &history[place]) {
            return place;
        }
    }
    history.len()
}

/// Whether the call stands before the place, and not from it on.
fn may_come(history: &[Event], place: usize, call: &Event) -> bool
    requires { place ≤ length history.now }
    ensures { Decides result (MayCome history.now place call.now) }
{
    has(&history[..place], call) && !has(&history[place..], call)
}

/// Whether the run goes on with a call and its end, and the call stands in the history before the place.
fn goes_on(run: &[Event], count: usize, history: &[Event], place: usize) -> bool
    requires within { count ≤ length run.now }
    requires inside { place ≤ length history.now }
    ensures { Decides result (GoesOn run.now count history.now place) }
{
    if run.len() - count < 2 {
        return false;
    }
    is_pair(&run[count], &run[count + 1]) && may_come(history, place, &run[count])
}

/// How many of the first events of a run are serial and explain a history; none if no beginning of the run is and does.
///
/// It goes along the run call by call, while each is directly followed by its end. It stops as soon as each end of the
/// history is there. A call may come only if each end that comes before it in the history is there.
pub(crate) fn explaining_count(run: &[Event], history: &[Event]) -> Option<usize>
    ensures some { IfSome result (λ count. (count ≤ length run.now) × IsExplainedAt run.now history.now count) }
    ensures none { IfNone result (IsExplained run.now history.now → ⊥) }
{
    let mut count = 0;
    let mut place = first_missing(history, &run[..count], 0);
    while place < history.len() {
        if !goes_on(run, count, history, place) {
            return None;
        }
        count += 2;
        place = first_missing(history, &run[..count], place);
    }
    Some(count)
}
