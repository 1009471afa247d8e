// Walks along edges from a state to itself.

ghost use Rattle.std.specs.Prelude.{◌≡◌, ◌||◌, ◌<◌, ◌⊎◌, Contains, IfOk, IfSome, IsTrue, false, true};
ghost use Rattle.ls_graph.specs.Found.{HasNoneBy};
ghost use Rattle.ls_graph.specs.Walks.{IsOne};
ghost use Rattle.ls_progress.specs.Cycles.{AllGo, IsAlong};
ghost use Rattle.ls_progress.specs.Kinds.{is_kept, is_own, kind_of};

use crate::kinds::{is_kept, is_own};
use crate::ranks::Wanted;
use ls_graph::closing::Edge;
use std::alloc::{AllocError, Global};

/// A place in the graph, and edges by their places that may lead from there to there.
#[derive(Drop)]
pub(crate) struct Round {
    pub(crate) at: usize,
    pub(crate) places: Vec<u32>,
}

/// The edge at a place, if there is one.
fn edge_at(edges: &[Edge], place: usize) -> Option<Edge>
    ensures { IfSome result (IsOne edges.now) }
{
    match edges.get(place) {
        None => None,
        Some(edge) => Some(*edge),
    }
}

/// The edge at a place, if it leads from this node and no call begins or ends with it that mustn't.
fn edge_from(edges: &[Edge], place: usize, at: usize, wanted: Wanted) -> Option<Edge>
    ensures one { IfSome result (IsOne edges.now) }
    ensures from { IfSome result (λ e. e.from ≡ at) }
    ensures kept { IfSome result (λ e. is_kept (kind_of wanted.kind wanted.thread) e ≡ true) }
{
    let edge = edge_at(edges, place)?;
    if edge.from as usize != at {
        return None;
    }
    if !is_kept(wanted.kind, wanted.thread, edge) {
        return None;
    }
    Some(edge)
}

/// Whether one of the steps so far is the thread's own, with one step more.
fn joins(own: bool, thread: u8, edge: Edge) -> bool
    ensures { result ≡ (own || is_own thread edge) }
{
    own || is_own(thread, edge)
}

/// The edges at these places, if they lead from a state to itself, one after another, with a step of the thread that
/// has the call, and with none with which a call begins or ends that mustn't.
pub(crate) fn cycle_along(
    alloc: Global,
    edges: &[Edge],
    start: usize,
    places: &[u32],
    wanted: Wanted,
) -> Result<Option<Vec<Edge>>, AllocError>
    ensures { IfOk result (λ o. IfSome o (λ path.
        IsAlong (kind_of wanted.kind wanted.thread) edges.now start start path.items true)) }
{
    let mut at = start;
    let mut own = false;
    let mut path = Vec::new(alloc);
    for place in places {
        let Some(edge) = edge_from(edges, *place as usize, at, wanted) else {
            return Ok(None);
        };
        path.push(edge)?;
        own = joins(own, wanted.thread, edge);
        at = edge.to as usize;
    }
    if at != start {
        return Ok(None);
    }
    if !own {
        return Ok(None);
    }
    Ok(Some(path))
}

/// Whether a thread takes one of these steps. True only where it does.
fn has_step(steps: &[u8], thread: u8) -> bool
    ensures { IsTrue result → Contains steps.now thread }
{
    for step in steps {
        if *step == thread {
            return true;
        }
    }
    false
}

/// Whether an edge of a thread leads from a node.
fn is_edge_of(edge: Edge, at: usize, thread: u8) -> bool
    ensures { result ≡ false → edge.from ≡ at → edge.actor ≡ thread → ⊥ }
{
    edge.from as usize == at && edge.actor == thread
}

/// Whether an edge of a thread leads from a node. False only where none does.
fn has_edge(edges: &[Edge], at: usize, thread: u8) -> bool
    ensures { result ≡ false → HasNoneBy edges.now at thread }
{
    for edge in edges {
        if is_edge_of(*edge, at, thread) {
            return true;
        }
    }
    false
}

/// Whether a thread takes one of these steps, or no edge of it leads from a node. True only where it is so.
fn goes(edges: &[Edge], at: usize, thread: u8, cycle: &[u8]) -> bool
    ensures { IsTrue result → Contains cycle.now thread ⊎ HasNoneBy edges.now at thread }
{
    if has_step(cycle, thread) {
        return true;
    }
    !has_edge(edges, at, thread)
}

/// Whether each thread but the setup takes one of these steps, unless it does nothing at the node. True only where it
/// is so.
pub(crate) fn all_go(edges: &[Edge], at: usize, threads: u8, cycle: &[u8]) -> bool
    ensures { IsTrue result → AllGo edges.now at threads cycle.now }
{
    for thread in 1..threads {
        if !goes(edges, at, thread, cycle) {
            return false;
        }
    }
    true
}
