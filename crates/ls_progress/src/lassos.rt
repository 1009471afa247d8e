// Lassos: a way to a state where a call is pending, and a cycle from there to there.

ghost use Rattle.std.specs.Prelude.{◌≡◌, ◌≤◌, ◌+◌, ◌*◌, IfOk, IfSome, false, length, true};
ghost use Rattle.ls_events.specs.Limits.{most_steps};
ghost use Rattle.ls_graph.specs.Found.{IsGrown};
ghost use Rattle.ls_graph.specs.Walks.{actors_of};
ghost use Rattle.ls_progress.specs.Cycles.{IsAlong, IsLed};
ghost use Rattle.ls_progress.specs.Ends.{IsShort};
ghost use Rattle.ls_progress.specs.Kinds.{kind_of};

use crate::ranks::{Wanted, is_in_call};
use ls_events::schedule::MOST_STEPS;
use ls_graph::closing::{Edge, Graph};
use ls_graph::walks::edges_to;
use ls_search::space::Kept;
use std::alloc::{AllocError, Global};

/// The way from before the first step to a state, and a cycle of steps that lead from there to the same state, but for
/// names of objects.
#[derive(Drop)]
pub struct Lasso {
    pub way: Vec<u8>,
    pub cycle: Vec<u8>,
}

/// The threads whose steps these edges are.
fn steps_of(alloc: Global, path: &[Edge]) -> Result<Vec<u8>, AllocError>
    ensures { IfOk result (λ v. v.items ≡ actors_of path.now) }
{
    let mut steps = Vec::new(alloc);
    for edge in path {
        steps.push(edge.actor)?;
    }
    Ok(steps)
}

/// Whether ten rounds after the way are longer than a schedule may be. False only where they aren't.
fn is_long(way: &[u8], cycle: &[u8]) -> bool
    ensures { result ≡ false → length way.now + 10 * length cycle.now ≤ most_steps }
{
    let most = MOST_STEPS / 20;
    way.len() > most || cycle.len() > most
}

/// The lasso with this cycle, if the call is pending where it begins. Ten rounds of it must be no
/// longer than a schedule may be.
pub(crate) fn lasso_of(
    alloc: Global,
    graph: &Graph<Kept>,
    labels: &[Option<u32>],
    wanted: Wanted,
    at: usize,
    cycle: &[Edge],
) -> Result<Option<Lasso>, AllocError>
    requires grown { IsGrown graph.now }
    requires along { IsAlong (kind_of wanted.kind wanted.thread) graph.now.edges.items at at cycle.now true }
    ensures led { IfOk result (λ o. IfSome o (IsLed (kind_of wanted.kind wanted.thread) graph.now.edges.items
        labels.now wanted.call at cycle.now)) }
    ensures short { IfOk result (λ o. IfSome o IsShort) }
{
    if at >= graph.found.nodes.len() || !is_in_call(labels, at, wanted.call) {
        return Ok(None);
    }
    let path = edges_to(alloc, graph, at)?;
    let way = steps_of(alloc, &path)?;
    let cycle = steps_of(alloc, cycle)?;
    if is_long(&way, &cycle) {
        return Ok(None);
    }
    Ok(Some(Lasso { way, cycle }))
}
