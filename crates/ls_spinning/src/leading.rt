// From which states an event can come.

ghost use Rattle.std.specs.Prelude.{◌≡◌, ◌<◌, ◌⊎◌, IfNone, IfOk, IfSome, IsTrue, List, OnOk, Some, ℕ, Bool, length};
ghost use Rattle.std.specs.Prelude.{slice_get, true};
ghost use Rattle.ls_graph.specs.Found.{AreFound, HasAny};
ghost use Rattle.ls_graph.specs.declared.closing.Edge.{Edge as EdgeValue};
ghost use Rattle.ls_spinning.specs.Heard.{AreHeard, EachIsHeard};

use ls_graph::closing::{Edge, Graph};
use ls_graph::marks::{is_marked, mark};
use ls_graph::walks::edges_to;
use ls_search::space::Kept;
use std::alloc::{AllocError, Global};

/// Whether an edge leads from a state that isn't marked to one that is.
fn leads_on(marks: &[bool], edge: Edge) -> bool
    ensures { IsTrue result → slice_get marks.now edge.to ≡ Some true }
{
    !is_marked(marks, edge.from as usize) && is_marked(marks, edge.to as usize)
}

/// Marks the state that an edge leads from, if it isn't marked and the one that it leads to is. Answers whether it was
/// so.
fn mark_back(marks: &mut Vec<bool>, edge: Edge) -> Result<bool, AllocError>
    ensures { OnOk result ((i : ℕ) → slice_get marks.new.items i ≡ Some true →
        (slice_get marks.old.items i ≡ Some true) ⊎
        ((i ≡ edge.from) × (slice_get marks.old.items edge.to ≡ Some true))) }
{
    if !leads_on(marks, edge) {
        return Ok(false);
    }
    mark(marks, edge.from as usize)?;
    Ok(true)
}

/// The edge that so many come after.
fn edge_before(edges: &[Edge], after: usize) -> Edge
    requires { after < length edges.now }
    ensures { (i : ℕ) × (slice_get edges.now i ≡ Some result) }
{
    edges[edges.len() - (after + 1)]
}

/// Marks each state from which an edge leads to one that is marked, from the last edge to the first. Answers whether
/// one was marked.
fn spread(edges: &[Edge], marks: &mut Vec<bool>) -> Result<bool, AllocError>
    ensures { OnOk result ((loud : List Bool) → AreHeard loud edges.now marks.old.items →
        AreHeard loud edges.now marks.new.items) }
{
    let mut changed = false;
    for after in 0..edges.len() {
        let edge = edge_before(edges, after);
        let marked = mark_back(marks, edge)?;
        changed = marked || changed;
    }
    Ok(changed)
}

/// Marks each state from which edges lead to one that is marked, in at most so many rounds.
fn spread_all(edges: &[Edge], marks: &mut Vec<bool>, most: usize) -> Result<(), AllocError>
    ensures { OnOk result ((loud : List Bool) → AreHeard loud edges.now marks.old.items →
        AreHeard loud edges.now marks.new.items) }
{
    for _ in 0..most {
        if !spread(edges, marks)? {
            return Ok(());
        }
    }
    Ok(())
}

/// The first state from which an edge leads and that isn't marked.
fn first_left(edges: &[Edge], marks: &[bool]) -> Option<usize>
    ensures none { IfNone result ((i : ℕ) (e : EdgeValue) → slice_get edges.now i ≡ Some e →
        slice_get marks.now e.from ≡ Some true) }
    ensures some { IfSome result (HasAny edges.now) }
{
    for edge in edges {
        if !is_marked(marks, edge.from as usize) {
            return Some(edge.from as usize);
        }
    }
    None
}

/// The first state from which an edge leads, and from which none of these that are marked can be reached. Where there
/// is none, one of them can be reached from each state from which an edge leads.
pub(crate) fn first_turning(
    graph: &Graph<Kept>,
    loud: Vec<bool>,
) -> Result<Option<usize>, AllocError>
    ensures none { IfOk result (λ o. IfNone o (EachIsHeard loud.items graph.now.edges.items)) }
    ensures some { IfOk result (λ o. IfSome o (HasAny graph.now.edges.items)) }
{
    let mut marks = loud;
    spread_all(&graph.edges, &mut marks, graph.found.nodes.len())?;
    Ok(first_left(&graph.edges, &marks))
}

/// Adds a thread so many times.
fn push_times(steps: &mut Vec<u8>, thread: u8, count: u32) -> Result<(), AllocError> {
    for _ in 0..count {
        steps.push(thread)?;
    }
    Ok(())
}

/// The threads whose steps lead from the first state to the one at a place.
pub(crate) fn path_to(alloc: Global, graph: &Graph<Kept>, at: usize) -> Result<Vec<u8>, AllocError>
    requires within { at < length graph.now.found.nodes.items }
    requires found { AreFound graph.now.edges.items (length graph.now.found.nodes.items) graph.now.by.items }
{
    let path = edges_to(alloc, graph, at)?;
    let mut steps = Vec::new(alloc);
    for edge in &path {
        steps.push(edge.actor)?;
        push_times(&mut steps, edge.actor, edge.mark)?;
    }
    Ok(steps)
}
