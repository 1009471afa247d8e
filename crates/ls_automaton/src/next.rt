// Which events may come next. Nothing depends on it but for which of them what is left is tabled.

use crate::outcome::Outcome;
use crate::pairs::{Pair, may_take, row_at, taking_pair};
use crate::pending::{entry, is_call};
use ls_events::event::{Event, Happening};
use ls_events::same::is_event;
use std::alloc::{AllocError, Global};

/// Adds an event that isn't there. The only refusal is that memory ran out.
fn add_event(events: &mut Vec<Event>, event: Event) -> Result<(), AllocError> {
    for i in 0..events.len() {
        if is_event(&events[i], &event) {
            return Ok(());
        }
    }
    events.push(event)?;
    Ok(())
}

/// Adds the calls that end from a pair's state, and aren't pending. The only refusal is that memory ran out.
fn add_calls(rows: &[Vec<Outcome>], pair: &Pair, next: &mut Vec<Event>) -> Result<(), AllocError> {
    let row = row_at(rows, pair.state);
    for i in 0..row.len() {
        let end = row[i].end;
        if entry(pair.pending.as_slice(), &end).is_none() {
            add_event(
                next,
                Event {
                    thread: end.thread,
                    call: end.call,
                    happening: Happening::Called,
                },
            )?;
        }
    }
    Ok(())
}

/// Adds the ends with which pending calls may end from a pair, if at most so many take effect before. The only refusal
/// is that memory ran out.
fn add_ends(
    alloc: Global,
    rows: &[Vec<Outcome>],
    pair: &Pair,
    left: usize,
    next: &mut Vec<Event>,
) -> Result<(), AllocError> {
    for i in 0..pair.pending.len() {
        if !is_call(&pair.pending[i]) {
            add_event(next, pair.pending[i])?;
        }
    }
    if left == 0 {
        return Ok(());
    }
    let row = row_at(rows, pair.state);
    for i in 0..row.len() {
        if may_take(pair, &row[i]) {
            let after = taking_pair(alloc, pair, &row[i])?;
            add_ends(alloc, rows, &after, left - 1, next)?;
        }
    }
    Ok(())
}

/// The events that may come next of some pairs. The only refusal is that memory ran out.
pub fn next_events(
    alloc: Global,
    rows: &[Vec<Outcome>],
    pairs: &[Pair],
) -> Result<Vec<Event>, AllocError> {
    let mut next = Vec::new(alloc);
    for i in 0..pairs.len() {
        add_calls(rows, &pairs[i], &mut next)?;
        add_ends(alloc, rows, &pairs[i], pairs[i].pending.len(), &mut next)?;
    }
    Ok(next)
}
