// Calls of a history, placed one behind another.

ghost use Rattle.std.specs.Prelude.{◌≡◌, ◌++◌, ◌∷◌, ◌<◌, Contains, Decides, IfOk, IsTrue, MatchBool, OnOk};
ghost use Rattle.std.specs.Prelude.{Some, [], length, slice_get, take};
ghost use Rattle.ls_events.specs.declared.event.Event.{Event as EventValue};
ghost use Rattle.ls_serial.specs.Serial.{AreEnded, IsEnd, IsEndOf};
ghost use Rattle.ls_serial_search.specs.Following.{called};
ghost use Rattle.ls_automaton.specs.Held.{row_of};
ghost use Rattle.ls_serial_orders.specs.Placing.{Agrees, HasLike, HasNoOther, IsAdded, IsDue, IsLike, IsRowAdded};
ghost use Rattle.ls_serial_orders.specs.Placing.{MayCome};

use ls_automaton::outcome::Outcome;
use ls_automaton::pairs::row_at;
use ls_events::event::{Event, Happening};
use ls_events::same::is_event;
use ls_serial::explaining::{has, is_called};
use std::alloc::{AllocError, Global};

/// Calls that are placed one behind another, by their ends, and the number of the state that they leave.
#[derive(Drop)]
pub(crate) struct Placed {
    pub(crate) state: usize,
    pub(crate) ends: Vec<Event>,
}

/// Where nothing is placed.
pub(crate) fn nothing_placed(alloc: Global) -> Placed
    ensures state { result.state ≡ 0 }
    ensures ends { result.ends.items ≡ [] }
{
    Placed {
        state: 0,
        ends: Vec::new(alloc),
    }
}

/// The call of an end.
pub(crate) fn own_call(end: &Event) -> Event
    ensures { result ≡ called end.now.thread end.now.call }
{
    Event {
        thread: end.thread,
        call: end.call,
        happening: Happening::Called,
    }
}

/// Whether an event is an end, and isn't one of these.
fn is_missing(event: &Event, ends: &[Event]) -> bool
    ensures { MatchBool result (IsEnd event.now × (Contains ends.now event.now → ⊥))
        (IsEnd event.now → Contains ends.now event.now) }
{
    !is_called(event.happening) && !has(ends, event)
}

/// Whether each end among some events is one of these.
pub(crate) fn are_ended(events: &[Event], ends: &[Event]) -> bool
    ensures { Decides result (AreEnded events.now ends.now) }
{
    for i in 0..events.len() {
        if is_missing(&events[i], ends) {
            return false;
        }
    }
    true
}

/// Whether an event of a history isn't this call, or each end that stands before it is one of these.
fn is_due_at(history: &[Event], i: usize, ends: &[Event], call: &Event) -> bool
    requires { i < length history.now }
    ensures { Decides result (slice_get history.now i ≡ Some call.now → AreEnded (take i history.now) ends.now) }
{
    if !is_event(&history[i], call) {
        return true;
    }
    are_ended(&history[..i], ends)
}

/// Whether each end that stands before a call in a history is one of these.
fn is_due(history: &[Event], ends: &[Event], call: &Event) -> bool
    ensures { Decides result (IsDue history.now ends.now call.now) }
{
    for i in 0..history.len() {
        if !is_due_at(history, i, ends, call) {
            return false;
        }
    }
    true
}

/// Whether an event is an end of the call of another end.
fn is_end_of(event: &Event, end: &Event) -> bool
    ensures { Decides result (IsEndOf (called end.now.thread end.now.call) event.now) }
{
    !is_called(event.happening) && event.thread == end.thread && event.call == end.call
}

/// Whether an event is this end, if it is an end of its call.
fn agrees(event: &Event, end: &Event) -> bool
    ensures { Decides result (Agrees end.now event.now) }
{
    if is_end_of(event, end) {
        return is_event(end, event);
    }
    true
}

/// Whether the call of an end has no other end in a history.
fn has_no_other(history: &[Event], end: &Event) -> bool
    ensures { Decides result (HasNoOther history.now end.now) }
{
    for i in 0..history.len() {
        if !agrees(&history[i], end) {
            return false;
        }
    }
    true
}

/// Whether the call of an end may be placed behind those of others.
fn may_come(history: &[Event], ends: &[Event], end: &Event) -> bool
    ensures { Decides result (MayCome history.now ends.now end.now) }
{
    let call = own_call(end);
    !is_called(end.happening)
        && has(history, &call)
        && has_no_other(history, end)
        && is_due(history, ends, &call)
}

/// Whether each of some ends is one of the others. True only where it is so.
fn are_among(ends: &[Event], others: &[Event]) -> bool
    ensures { IsTrue result → (e : EventValue) → Contains ends.now e → Contains others.now e }
{
    for i in 0..ends.len() {
        if !has(others, &ends[i]) {
            return false;
        }
    }
    true
}

/// Whether calls leave the same state as others, and these are among them. True only where it is so.
fn is_like(placed: &Placed, other: &Placed) -> bool
    ensures { IsTrue result → IsLike placed.now other.now.state other.now.ends.items }
{
    if placed.state != other.state {
        return false;
    }
    are_among(other.ends.as_slice(), placed.ends.as_slice())
}

/// Whether some of these calls are like others. True only where they are.
fn has_like(layer: &[Placed], other: &Placed) -> bool
    ensures { IsTrue result → HasLike layer.now other.now.state other.now.ends.items }
{
    for i in 0..layer.len() {
        if is_like(&layer[i], other) {
            return true;
        }
    }
    false
}

/// These ends and one more. The only refusal is that memory ran out.
fn with_end(alloc: Global, ends: &[Event], end: Event) -> Result<Vec<Event>, AllocError>
    ensures { IfOk result (λ v. v.items ≡ ends.now ++ end ∷ []) }
{
    let mut more = Vec::with_capacity(alloc, ends.len())?;
    for i in 0..ends.len() {
        more.push(ends[i])?;
    }
    more.push(end)?;
    Ok(more)
}

/// One call more. The only refusal is that memory ran out.
fn with_call(alloc: Global, placed: &Placed, outcome: &Outcome) -> Result<Placed, AllocError>
    ensures state { IfOk result (λ q. q.state ≡ outcome.now.after) }
    ensures ends { IfOk result (λ q. q.ends.items ≡ placed.now.ends.items ++ outcome.now.end ∷ []) }
{
    let ends = with_end(alloc, placed.ends.as_slice(), outcome.end)?;
    Ok(Placed {
        state: outcome.after,
        ends,
    })
}

/// Adds what comes of a call that may be placed behind others, if nothing like it is there. The only refusal is that
/// memory ran out.
fn add_next(
    alloc: Global,
    history: &[Event],
    placed: &Placed,
    outcome: &Outcome,
    next: &mut Vec<Placed>,
) -> Result<(), AllocError>
    ensures { OnOk result (IsAdded history.now placed.now outcome.now next.old.items next.new.items) }
{
    let ends = placed.ends.as_slice();
    if !may_come(history, ends, &outcome.end) {
        return Ok(());
    }
    let more = with_call(alloc, placed, outcome)?;
    let known = next.as_slice();
    if has_like(known, &more) {
        return Ok(());
    }
    next.push(more)?;
    Ok(())
}

/// Adds what comes of each call that may be placed behind others in the state that they leave. The only refusal is that
/// memory ran out.
pub(crate) fn add_row(
    alloc: Global,
    rows: &[Vec<Outcome>],
    history: &[Event],
    placed: &Placed,
    next: &mut Vec<Placed>,
) -> Result<(), AllocError>
    ensures { OnOk result (IsRowAdded history.now placed.now (row_of (slice_get rows.now placed.now.state))
        next.old.items next.new.items) }
{
    let row = row_at(rows, placed.state);
    for i in 0..row.len() {
        add_next(alloc, history, placed, &row[i], next)?;
    }
    Ok(())
}
