// A serial run of a table that explains a history, sought call by call.

ghost use Rattle.std.specs.Prelude.{◌≡◌, IfNone, IfOk, IfSome};
ghost use Rattle.ls_automaton.specs.Automaton.{IsExplainedFrom};
ghost use Rattle.ls_automaton.specs.Laws.{RunsAreOnce};
ghost use Rattle.ls_automaton.specs.Tables.{Goes};
ghost use Rattle.ls_serial_orders.specs.Placing.{ExplainsBy, HasRun, IsFirstLayer, IsNext, NoneFinished, run_of};

use crate::placing::{Placed, add_row, are_ended, nothing_placed, own_call};
use ls_automaton::outcome::Outcome;
use ls_events::event::Event;
use std::alloc::{AllocError, Global};

/// The layer in which nothing is placed. The only refusal is that memory ran out.
fn first_layer(alloc: Global) -> Result<Vec<Placed>, AllocError>
    ensures { IfOk result (λ v. IsFirstLayer v.items) }
{
    let mut layer = Vec::new(alloc);
    layer.push(nothing_placed(alloc))?;
    Ok(layer)
}

/// What comes of each call that may be placed behind those of a layer. The only refusal is that memory ran out.
fn next_layer(
    alloc: Global,
    rows: &[Vec<Outcome>],
    history: &[Event],
    layer: &[Placed],
) -> Result<Vec<Placed>, AllocError>
    ensures { IfOk result (λ v. IsNext rows.now history.now layer.now v.items) }
{
    let mut next = Vec::new(alloc);
    for i in 0..layer.len() {
        add_row(alloc, rows, history, &layer[i], &mut next)?;
    }
    Ok(next)
}

/// The run of calls with these ends. The only refusal is that memory ran out.
fn run_from(alloc: Global, ends: &[Event]) -> Result<Vec<Event>, AllocError>
    ensures { IfOk result (λ v. v.items ≡ run_of ends.now) }
{
    let mut run = Vec::new(alloc);
    for i in 0..ends.len() {
        run.push(own_call(&ends[i]))?;
        run.push(ends[i])?;
    }
    Ok(run)
}

/// The run of calls of a layer among which each is that has ended in a history. The only refusal is that memory ran
/// out.
fn finished_run(
    alloc: Global,
    history: &[Event],
    layer: &[Placed],
) -> Result<Option<Vec<Event>>, AllocError>
    ensures some { IfOk result (λ found. IfSome found (λ run. HasRun history.now layer.now run.items)) }
    ensures none { IfOk result (λ found. IfNone found (NoneFinished history.now layer.now)) }
{
    for i in 0..layer.len() {
        let ends = layer[i].ends.as_slice();
        if are_ended(history, ends) {
            let run = run_from(alloc, ends)?;
            return Ok(Some(run));
        }
    }
    Ok(None)
}

/// A serial run of a table that explains a history. None if none does. It is sought call by call: calls that leave the
/// same state as the same calls in another order are not placed twice. The only refusal is that memory ran out.
pub fn serial_run(
    alloc: Global,
    rows: &[Vec<Outcome>],
    history: &[Event],
) -> Result<Option<Vec<Event>>, AllocError>
    ensures some { IfOk result (λ found. IfSome found (λ run. ExplainsBy rows.now history.now run.items)) }
    ensures none { IfOk result (λ found. IfNone found (RunsAreOnce (Goes rows.now) 0 →
        IsExplainedFrom (Goes rows.now) 0 history.now → ⊥)) }
{
    let mut layer = first_layer(alloc)?;
    for count in 0..history.len() {
        let placed = layer.as_slice();
        let found = finished_run(alloc, history, placed)?;
        match found {
            Some(run) => return Ok(Some(run)),
            None => {}
        }
        layer = next_layer(alloc, rows, history, placed)?;
    }
    let rest = layer.as_slice();
    let last = finished_run(alloc, history, rest)?;
    match last {
        Some(run) => Ok(Some(run)),
        None => Ok(None),
    }
}
