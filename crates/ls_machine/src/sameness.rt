// Whether events are the same.

ghost use Rattle.std.specs.Prelude.{◌≡◌, IsTrue};

use ls_events::event::{Event, Happening};
use ls_events::same::is_same_value;

/// Whether what happened is the other. True only where it is.
fn is_same_happening(happening: Happening, other: Happening) -> bool
    ensures { IsTrue result → happening ≡ other }
{
    match (happening, other) {
        (Happening::Called, Happening::Called) => true,
        (Happening::Returned(None), Happening::Returned(None)) => true,
        (Happening::Returned(Some(a)), Happening::Returned(Some(b))) => is_same_value(a, b),
        (Happening::Trapped(a), Happening::Trapped(b)) => a == b,
        _ => false,
    }
}

/// Whether an event is the other. True only where it is.
fn is_same_event(event: &Event, other: &Event) -> bool
    ensures { IsTrue result → event.now ≡ other.now }
{
    event.thread == other.thread
        && event.call == other.call
        && is_same_happening(event.happening, other.happening)
}

/// Whether events are the same, one by one. True only where they are.
pub fn are_same_events(events: &[Event], others: &[Event]) -> bool
    ensures { IsTrue result → events.now ≡ others.now }
{
    if events.len() != others.len() {
        return false;
    }
    for i in 0..events.len() {
        if !is_same_event(&events[i], &others[i]) {
            return false;
        }
    }
    true
}
