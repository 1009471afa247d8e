// At which states events come.

ghost use Rattle.std.specs.Prelude.{◌≡◌, ◌⊎◌, ◌<◌, ℕ, IfOk, OnOk, Some, length, slice_get, true};
ghost use Rattle.ls_meaning.specs.Runs.{event_of};
ghost use Rattle.ls_search_laws.specs.Configuration.{stride};
ghost use Rattle.ls_search_laws.specs.Stepping.{events_in, events_of};
ghost use Rattle.ls_graph.specs.declared.closing.Edge.{Edge as EdgeValue};
ghost use Rattle.ls_transitions.specs.Seen.{table_of};
ghost use Rattle.ls_transitions.specs.Tables.{Grows};
ghost use Rattle.ls_search.specs.Places.{IsThere, configuration_of};
ghost use Rattle.ls_search.specs.declared.space.Kept.{Kept as KeptValue};
ghost use Rattle.ls_spinning.specs.Moves.{AreAny, events_by};
ghost use Rattle.ls_spinning.specs.States.{AreLoud, AreThere, IsLoud, IsSilent, place_of, places_of};

use ls_events::action::Action;
use ls_events::value::Value;
use ls_graph::closing::{Edge, Graph};
use ls_graph::marks::mark;
use ls_search::moving::has_setup_ended;
use ls_search::noting::event_of;
use ls_search::places::NumberedState;
use ls_search::searching::step_from;
use ls_search::space::Kept;
use ls_transitions::moves::Move;
use ls_transitions::transitions::Transitions;
use std::alloc::{AllocError, Global};

/// Whether an action of a thread is an event.
fn is_event(thread: usize, action: &Action<Value>) -> bool
    ensures { AreAny result (events_in (event_of thread action.now)) }
{
    match event_of(thread, action) {
        None => false,
        Some(_event) => true,
    }
}

/// Whether a move of a thread has an event.
fn has_event(thread: usize, made: &Move) -> bool
    ensures { AreAny result (events_by thread made.now) }
{
    match made {
        Move::Acts(step) => is_event(thread, &step.action),
        Move::Ended | Move::Trapped | Move::Waits => false,
    }
}

/// Whether the step of a thread at a state has an event.
fn is_loud<'a>(
    alloc: Global,
    transitions: &mut Transitions<'a>,
    place: &NumberedState,
    thread: u8,
) -> Result<bool, AllocError>
    requires { IsThere (table_of transitions.old) place.now }
    ensures loud { IfOk result (λ b. AreAny b (events_of thread
        (stride (table_of transitions.old).file (configuration_of (table_of transitions.old) place.now) thread).did)) }
    ensures grows { Grows (table_of transitions.old) (table_of transitions.new) }
{
    let ended = has_setup_ended(alloc, transitions, place)?;
    let made = step_from(alloc, transitions, place, thread as usize, ended)?;
    Ok(has_event(thread as usize, &made))
}

/// The state at a place.
fn place_at(nodes: &[Kept], at: usize) -> &NumberedState
    requires { at < length nodes.now }
    ensures { (n : KeptValue) × (slice_get nodes.now at ≡ Some n) × (result.now ≡ n.place) }
{
    &nodes[at].place
}

/// Marks the state that an edge leads from, if the edge's step has an event.
fn mark_loud<'a>(
    alloc: Global,
    transitions: &mut Transitions<'a>,
    nodes: &[Kept],
    edge: Edge,
    marks: &mut Vec<bool>,
) -> Result<(), AllocError>
    requires there { AreThere (table_of transitions.old) nodes.now }
    requires within { edge.from < length nodes.now }
    ensures grows { Grows (table_of transitions.old) (table_of transitions.new) }
    ensures only { OnOk result ((at : ℕ) → slice_get marks.new.items at ≡ Some true →
        (slice_get marks.old.items at ≡ Some true) ⊎ ((at ≡ edge.from) × ((n : KeptValue) →
        slice_get nodes.now at ≡ Some n → IsLoud (table_of transitions.old).file (place_of (table_of transitions.old) n)
        edge.actor))) }
    ensures stays { OnOk result ((at : ℕ) → slice_get marks.old.items at ≡ Some true →
        slice_get marks.new.items at ≡ Some true) }
    ensures here { OnOk result ((n : KeptValue) → slice_get nodes.now edge.from ≡ Some n →
        (slice_get marks.new.items edge.from ≡ Some true) ⊎
        IsSilent (table_of transitions.old).file (place_of (table_of transitions.old) n) edge.actor) }
{
    let place = place_at(nodes, edge.from as usize);
    if is_loud(alloc, transitions, place, edge.actor)? {
        mark(marks, edge.from as usize)?;
    }
    Ok(())
}

/// Marks the states from which an edge leads whose step has an event.
pub(crate) fn loud_of<'a>(
    alloc: Global,
    transitions: &mut Transitions<'a>,
    graph: &Graph<Kept>,
) -> Result<Vec<bool>, AllocError>
    requires there { AreThere (table_of transitions.old) graph.now.found.nodes.items }
    requires within { (i : ℕ) (e : EdgeValue) → slice_get graph.now.edges.items i ≡ Some e →
        e.from < length graph.now.found.nodes.items }
    ensures loud { IfOk result (λ marks. AreLoud (table_of transitions.old).file
        (places_of (table_of transitions.old) graph.now.found.nodes.items) graph.now.edges.items
        (length graph.now.edges.items) marks.items) }
    ensures grows { OnOk result (Grows (table_of transitions.old) (table_of transitions.new)) }
{
    let mut marks = Vec::new(alloc);
    for edge in &graph.edges {
        mark_loud(alloc, transitions, &graph.found.nodes, *edge, &mut marks)?;
    }
    Ok(marks)
}
