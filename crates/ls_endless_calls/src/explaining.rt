// Whether calls, one after another, explain a history.

ghost use Rattle.std.specs.Prelude.{◌<◌, Contains, Decides, MatchBool, length};
ghost use Rattle.ls_serial.specs.Serial.{AreCalled, AreEnded, IsCall, IsEnd, KeepsOrder, is_called};
ghost use Rattle.ls_endless_calls.specs.Waits.{ExplainsAlone, KeepsAt, KeepsPair};

use ls_events::event::Event;
use ls_events::same::is_event;
use ls_serial::explaining::{has, is_called};

/// Whether the event is an end, and isn't one of these.
fn is_missing(events: &[Event], event: &Event) -> bool
    ensures { MatchBool result (IsEnd event.now × (Contains events.now event.now → ⊥))
        (IsEnd event.now → Contains events.now event.now) }
{
    !is_called(event.happening) && !has(events, event)
}

/// Whether each end of a history is one of these events.
fn are_ended(history: &[Event], events: &[Event]) -> bool
    ensures { Decides result (AreEnded history.now events.now) }
{
    for place in 0..history.len() {
        if is_missing(events, &history[place]) {
            return false;
        }
    }
    true
}

/// Whether the event is a call, and isn't one of these.
fn is_uncalled(history: &[Event], event: &Event) -> bool
    ensures { MatchBool result (IsCall event.now × (Contains history.now event.now → ⊥))
        (IsCall event.now → Contains history.now event.now) }
{
    is_called(event.happening) && !has(history, event)
}

/// Whether each call of these events is one of a history.
fn are_called(events: &[Event], history: &[Event]) -> bool
    ensures { Decides result (AreCalled events.now history.now) }
{
    for place in 0..events.len() {
        if is_uncalled(history, &events[place]) {
            return false;
        }
    }
    true
}

/// Whether what ended before a call at one place of a history ended before it at another place of these events, if it
/// is the same call.
fn keeps_pair(events: &[Event], place: usize, history: &[Event], at: usize) -> bool
    requires inside { place < length events.now }
    requires within { at < length history.now }
    ensures { Decides result (KeepsPair events.now place history.now at) }
{
    !is_event(&events[place], &history[at]) || are_ended(&history[..at], &events[..place])
}

/// Whether what ended before the call at a place of a history ended before it in these events.
fn keeps_at(events: &[Event], history: &[Event], at: usize) -> bool
    requires { at < length history.now }
    ensures { Decides result (KeepsAt events.now history.now at) }
{
    if !is_called(history[at].happening) {
        return true;
    }
    for place in 0..events.len() {
        if !keeps_pair(events, place, history, at) {
            return false;
        }
    }
    true
}

/// Whether these events keep the order of a history.
fn keeps_order(events: &[Event], history: &[Event]) -> bool
    ensures { Decides result (KeepsOrder events.now history.now) }
{
    for at in 0..history.len() {
        if !keeps_at(events, history, at) {
            return false;
        }
    }
    true
}

/// Whether calls, one after another, explain what has ended in a history, and no other call of it has ended in them.
pub(crate) fn explains_alone(before: &[Event], history: &[Event]) -> bool
    ensures { Decides result (ExplainsAlone before.now history.now) }
{
    are_ended(history, before)
        && are_called(before, history)
        && keeps_order(before, history)
        && are_ended(before, history)
}
