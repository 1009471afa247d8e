// Nodes that were found, each once.

ghost use Rattle.std.specs.Prelude.{◌≡◌, ◌≤◌, ◌<◌, ◌⊎◌, ◌∷◌, [], IfOk, IfSome, IfNone, IsTrue, OnOk, length};
ghost use Rattle.ls_graph.specs.Grown.{IsNodeAt, Pushed, Stands};
ghost use Rattle.ls_graph.specs.Graph.{IsBounded};
ghost use Rattle.ls_graph.specs.Weights.{total};

use crate::space::Space;
use ls_transitions::hash_index::HashIndex;
use std::alloc::{AllocError, Global};

/// How far a graph is found.
#[derive(Copy)]
pub struct Bounds {
    /// The most nodes.
    pub limit: usize,
    /// The most that nodes may weigh together, before the last of them.
    pub weight: usize,
}

impl Clone for Bounds {
    fn clone(&self) -> Result<Bounds, AllocError> {
        Ok(*self)
    }
}

/// Nodes that were found, and what they weigh together, or less where that is no number of 64 bits.
#[derive(Drop)]
pub struct Nodes<N> {
    pub nodes: Vec<N>,
    pub weight: usize,
    hints: HashIndex,
}

/// This node alone.
pub(crate) fn alone<P: Space>(
    space: &P,
    alloc: Global,
    node: P::Node,
) -> Result<Nodes<P::Node>, AllocError>
    ensures alone { IfOk result (λ n. n.nodes.items ≡ node ∷ []) }
    ensures weight { IfOk result (λ n. n.weight ≤ total P.weighs n.nodes.items) }
{
    let hash = space.hash(&node);
    let weight = space.weight(&node);
    let mut nodes = Vec::new(alloc);
    nodes.push(node)?;
    let mut hints = HashIndex::new(alloc);
    hints.add(alloc, hash)?;
    Ok(Nodes {
        nodes,
        weight,
        hints,
    })
}

/// Whether the node at a place is this one. True only where it is.
fn is_at<P: Space>(space: &P, nodes: &[P::Node], at: usize, node: &P::Node) -> bool
    ensures { IsTrue result → IsNodeAt (P.stands space.now) nodes.now node.now at }
{
    match nodes.get(at) {
        None => false,
        Some(one) => space.is_same(one, node),
    }
}

/// Where a node is, if it was found.
fn find<P: Space>(space: &P, found: &Nodes<P::Node>, hash: u64, node: &P::Node) -> Option<usize>
    ensures { IfSome result (IsNodeAt (P.stands space.now) found.now.nodes.items node.now) }
{
    let mut hint = found.hints.last(hash);
    for _ in 0..found.nodes.len() {
        let at = hint?;
        if is_at(space, &found.nodes, at, node) {
            return Some(at);
        }
        hint = found.hints.before(at);
    }
    None
}

/// Keeps a node if it is new, and answers where it is. Answers nothing where there are as many as there may be, or
/// where they weigh more than they may.
pub(crate) fn keep<P: Space>(
    space: &P,
    alloc: Global,
    found: &mut Nodes<P::Node>,
    bounds: Bounds,
    node: P::Node,
) -> Result<Option<usize>, AllocError>
    requires { found.old.weight ≤ total P.weighs found.old.nodes.items }
    ensures there { IfOk result (λ o. IfSome o (IsNodeAt (P.stands space.now) found.new.nodes.items node)) }
    ensures place { IfOk result (λ o. IfSome o (Stands found.old.nodes.items found.new.nodes.items node)) }
    ensures same { IfOk result (λ o. IfNone o (found.new.nodes.items ≡ found.old.nodes.items)) }
    ensures bounded { OnOk result (IsBounded P.weighs bounds found.old → IsBounded P.weighs bounds found.new) }
    ensures pushed { OnOk result (Pushed found.old.nodes.items found.new.nodes.items node) }
    ensures weight { OnOk result (found.new.weight ≤ total P.weighs found.new.nodes.items) }
    ensures full { IfOk result (λ o. IfNone o ((bounds.limit ≤ length found.new.nodes.items) ⊎
        (bounds.weight < total P.weighs found.new.nodes.items))) }
{
    let hash = space.hash(&node);
    if let Some(at) = find(space, found, hash, &node) {
        return Ok(Some(at));
    }
    let at = found.nodes.len();
    if at >= bounds.limit || found.weight > bounds.weight {
        return Ok(None);
    }
    found.hints.add(alloc, hash)?;
    found.weight = found.weight.saturating_add(space.weight(&node));
    found.nodes.push(node)?;
    Ok(Some(at))
}
