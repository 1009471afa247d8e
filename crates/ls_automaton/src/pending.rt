// Which calls are pending, and which of them have taken effect.

ghost use Rattle.std.specs.Prelude.{◌≡◌, Decides, IfOk, nat_eq, nat_lt, ◌&&◌, if◌then◌else◌};
ghost use Rattle.ls_serial.specs.Serial.{is_called};
ghost use Rattle.ls_automaton.specs.Held.{begun, ended, entry_at, has_taken, is_at, is_noted, is_open, taken};

use ls_events::event::{Event, Happening};
use ls_events::same::is_event;
use std::alloc::{AllocError, Global};

/// Whether an event is a call.
pub fn is_call(event: &Event) -> bool
    ensures { result ≡ is_called event.now.happening }
{
    match event.happening {
        Happening::Called => true,
        Happening::Returned(_) | Happening::Trapped(_) => false,
    }
}

/// Whether events are of the same call.
fn is_same_call(event: &Event, other: &Event) -> bool
    ensures { result ≡ is_at event.now.thread event.now.call other.now }
{
    event.thread == other.thread && event.call == other.call
}

/// Whether the thread of an event comes before that of the other.
fn is_before(event: &Event, other: &Event) -> bool
    ensures { result ≡ nat_lt event.now.thread other.now.thread }
{
    event.thread < other.thread
}

/// What is noted of the call of an event.
pub(crate) fn entry(pending: &[Event], event: &Event) -> Option<Event>
    ensures { result ≡ entry_at pending.now event.now.thread event.now.call }
{
    for i in 0..pending.len() {
        if is_same_call(event, &pending[i]) {
            return Some(pending[i]);
        }
    }
    None
}

/// Whether the call is pending and hasn't taken effect.
pub(crate) fn is_open(entry: Option<Event>) -> bool
    ensures { result ≡ is_open entry }
{
    match entry {
        None => false,
        Some(event) => is_call(&event),
    }
}

/// Whether the call has taken effect.
pub(crate) fn has_taken(entry: Option<Event>) -> bool
    ensures { result ≡ has_taken entry }
{
    match entry {
        None => false,
        Some(event) => !is_call(&event),
    }
}

/// Whether this end is what is noted.
pub(crate) fn is_noted(end: &Event, entry: Option<Event>) -> bool
    ensures { result ≡ is_noted end.now entry }
{
    match entry {
        None => false,
        Some(event) => is_event(end, &event),
    }
}

/// What is noted where a call has begun. The only refusal is that memory ran out.
pub(crate) fn with_call(
    alloc: Global,
    pending: &[Event],
    call: &Event,
) -> Result<Vec<Event>, AllocError>
    ensures { IfOk result (λ v. v.items ≡ begun call.now pending.now) }
{
    let mut noted = Vec::with_capacity(alloc, pending.len())?;
    for i in 0..pending.len() {
        if is_before(&pending[i], call) {
            noted.push(pending[i])?;
        }
    }
    noted.push(*call)?;
    for i in 0..pending.len() {
        if !is_before(&pending[i], call) {
            noted.push(pending[i])?;
        }
    }
    Ok(noted)
}

/// What is noted in place of an event where a call has taken effect with this end.
fn noted_then(end: &Event, event: &Event) -> Event
    ensures { result ≡ (if is_at end.now.thread end.now.call event.now then end.now else event.now) }
{
    if is_same_call(end, event) {
        *end
    } else {
        *event
    }
}

/// What is noted where a call has taken effect with this end. The only refusal is that memory ran out.
pub(crate) fn with_effect(
    alloc: Global,
    pending: &[Event],
    end: &Event,
) -> Result<Vec<Event>, AllocError>
    ensures { IfOk result (λ v. v.items ≡ taken end.now pending.now) }
{
    let mut noted = Vec::with_capacity(alloc, pending.len())?;
    for i in 0..pending.len() {
        noted.push(noted_then(end, &pending[i]))?;
    }
    Ok(noted)
}

/// Whether the others are what is noted where a call has taken effect with this end.
pub(crate) fn is_with_effect(pending: &[Event], end: &Event, others: &[Event]) -> bool
    ensures { Decides result (taken end.now pending.now ≡ others.now) }
{
    if pending.len() != others.len() {
        return false;
    }
    for i in 0..pending.len() {
        if !is_event(&noted_then(end, &pending[i]), &others[i]) {
            return false;
        }
    }
    true
}

/// What is noted where a call has ended. The only refusal is that memory ran out.
pub(crate) fn without_call(
    alloc: Global,
    pending: &[Event],
    end: &Event,
) -> Result<Vec<Event>, AllocError>
    ensures { IfOk result (λ v. v.items ≡ ended end.now pending.now) }
{
    let mut noted = Vec::with_capacity(alloc, pending.len())?;
    for i in 0..pending.len() {
        if !is_same_call(end, &pending[i]) {
            noted.push(pending[i])?;
        }
    }
    Ok(noted)
}
