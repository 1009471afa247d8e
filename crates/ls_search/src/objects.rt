// How many objects states have.

ghost use Rattle.std.specs.Prelude.{◌≡◌, ◌<◌, ◌≤◌, IfOk, IsTrue};
ghost use Rattle.ls_transitions.specs.Seen.{table_of};
ghost use Rattle.ls_search.specs.Listed.{AreAllThere, objects_of};
ghost use Rattle.ls_search.specs.Objects.{most_objects, weight_of};
ghost use Rattle.ls_search.specs.Places.{IsThere, configuration_of};

use crate::places::{Node, NumberedState};
use ls_graph::marks::{is_marked, mark};
use ls_transitions::transitions::Transitions;
use std::alloc::AllocError;

/// The most objects that the states that are kept have together, but for the last of them.
pub const MOST_OBJECTS: usize = 0x40_0000;

/// How many objects a state has.
fn objects_at(transitions: &Transitions<'_>, place: &NumberedState) -> usize
    requires { IsThere (table_of transitions.now) place.now }
    ensures { result ≡ weight_of (configuration_of (table_of transitions.now) place.now) }
{
    transitions.store_at(place.store).things.len()
}

/// How many objects are counted for a state: those of its store, or none where they are counted for another state.
pub(crate) fn weigh(
    transitions: &Transitions<'_>,
    counted: &mut Vec<bool>,
    place: &NumberedState,
) -> Result<usize, AllocError>
    requires { IsThere (table_of transitions.now) place.now }
    ensures { IfOk result (λ w. w ≤ weight_of (configuration_of (table_of transitions.now) place.now)) }
{
    if is_marked(counted, place.store) {
        return Ok(0);
    }
    mark(counted, place.store)?;
    Ok(objects_at(transitions, place))
}

/// Whether states have more objects together than may be. True only where they have.
pub(crate) fn have_many(transitions: &Transitions<'_>, nodes: &[Node]) -> bool
    requires { AreAllThere (table_of transitions.now) nodes.now }
    ensures { IsTrue result → most_objects < objects_of (table_of transitions.now) nodes.now }
{
    let mut objects = 0usize;
    for at in 0..nodes.len() {
        objects = objects.saturating_add(objects_at(transitions, &nodes[at].place));
    }
    objects > MOST_OBJECTS
}
