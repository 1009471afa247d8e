// Walks to nodes.

ghost use Rattle.std.specs.Prelude.{◌≡◌, ◌<◌, IfNone, IfOk, IfSome, length};
ghost use Rattle.ls_graph.specs.Found.{AreFound, HaveAny};
ghost use Rattle.ls_graph.specs.Walks.{IsOne, Walks};

use crate::closing::{Closing, Edge, Graph};
use crate::front::known_at;
use crate::marks::mark;
use std::alloc::{AllocError, Global};

/// The edges of the cheapest walk to the node that was to be looked at when no more were. Nothing depends on it.
pub fn edges_to_last<N>(alloc: Global, closing: &Closing<N>) -> Result<Vec<Edge>, AllocError> {
    let mut edges = Vec::new(alloc);
    let mut pair = closing.last;
    for _ in 0..usize::MAX {
        let place = known_at(&closing.front.by, pair.last, pair.at);
        let Some(edge) = closing.graph.edges.get(place) else {
            break;
        };
        edges.push(*edge)?;
        let before = known_at(&closing.front.before, pair.last, pair.at);
        pair.at = edge.from;
        pair.last = (before & 0xff) as u8;
    }
    edges.reverse();
    Ok(edges)
}

/// The edge by which a node was found, if it isn't the first.
fn found_by<N>(graph: &Graph<N>, at: usize) -> Option<Edge>
    requires within { at < length graph.now.found.nodes.items }
    requires found { AreFound graph.now.edges.items (length graph.now.found.nodes.items) graph.now.by.items }
    ensures one { IfSome result (IsOne graph.now.edges.items) }
    ensures to { IfSome result (λ e. e.to ≡ at) }
    ensures earlier { IfSome result (λ e. e.from < at) }
    ensures none { IfNone result (at ≡ 0) }
{
    if at == 0 {
        return None;
    }
    let place = graph.by[at - 1];
    Some(graph.edges[place as usize])
}

/// The edges by which a node was found: they lead there from the first node, one after another.
pub fn edges_to<N>(alloc: Global, graph: &Graph<N>, at: usize) -> Result<Vec<Edge>, AllocError>
    requires within { at < length graph.now.found.nodes.items }
    requires found { AreFound graph.now.edges.items (length graph.now.found.nodes.items) graph.now.by.items }
    ensures { IfOk result (λ path. Walks graph.now.edges.items 0 path.items at) }
{
    let mut place = at;
    let mut edges = Vec::new(alloc);
    while let Some(edge) = found_by(graph, place) {
        edges.push(edge)?;
        place = edge.from as usize;
    }
    edges.reverse();
    Ok(edges)
}

/// Marks nodes from which an edge leads.
pub fn left_by<N>(alloc: Global, graph: &Graph<N>) -> Result<Vec<bool>, AllocError>
    ensures { IfOk result (λ marks. HaveAny graph.now.edges.items marks.items) }
{
    let mut marks = Vec::new(alloc);
    for edge in &graph.edges {
        mark(&mut marks, edge.from as usize)?;
    }
    Ok(marks)
}
