// Whether steps go round in a graph. No contract depends on it: it says where it is worth while to look for a livelock.

use ls_graph::closing::Edge;
use std::alloc::{AllocError, Global};

/// The edges of a graph, by its nodes. Those that lead from one node stand side by side, in the order of the nodes.
#[derive(Drop)]
struct Nodes {
    /// The place of the first edge that leads from a node, and the place after the last.
    first: Vec<usize>,
    end: Vec<usize>,
    /// How many edges lead to a node, of those that aren't taken away.
    led: Vec<usize>,
}

/// The number at a place. There is none at a place that isn't there.
fn at(numbers: &[usize], place: usize) -> usize {
    match numbers.get(place) {
        None => 0,
        Some(number) => *number,
    }
}

/// Puts a number at a place, if it is there.
fn put(numbers: &mut Vec<usize>, place: usize, number: usize) {
    if place < numbers.len() {
        numbers[place] = number;
    }
}

/// The edges by so many nodes.
fn nodes_of(alloc: Global, edges: &[Edge], count: usize) -> Result<Nodes, AllocError> {
    let mut nodes = Nodes {
        first: Vec::new(alloc),
        end: Vec::new(alloc),
        led: Vec::new(alloc),
    };
    for _ in 0..count {
        nodes.first.push(0)?;
        nodes.end.push(0)?;
        nodes.led.push(0)?;
    }
    for place in 0..edges.len() {
        let from = edges[place].from as usize;
        let to = edges[place].to as usize;
        if at(&nodes.end, from) == 0 {
            put(&mut nodes.first, from, place);
        }
        put(&mut nodes.end, from, place.saturating_add(1));
        let led = at(&nodes.led, to).saturating_add(1);
        put(&mut nodes.led, to, led);
    }
    Ok(nodes)
}

/// Takes the edges of a node away. The nodes to which none leads any more are added.
fn take_away(
    nodes: &mut Nodes,
    edges: &[Edge],
    node: usize,
    left: &mut Vec<usize>,
) -> Result<(), AllocError> {
    for place in at(&nodes.first, node)..at(&nodes.end, node) {
        let Some(edge) = edges.get(place) else {
            continue;
        };
        let to = edge.to as usize;
        let led = at(&nodes.led, to).saturating_sub(1);
        put(&mut nodes.led, to, led);
        if led == 0 {
            left.push(to)?;
        }
    }
    Ok(())
}

/// Whether edges lead from one of so many nodes back to it.
pub(crate) fn go_round(alloc: Global, edges: &[Edge], count: usize) -> Result<bool, AllocError> {
    let mut nodes = nodes_of(alloc, edges, count)?;
    let mut left = Vec::new(alloc);
    for node in 0..count {
        if at(&nodes.led, node) == 0 {
            left.push(node)?;
        }
    }
    let mut taken: usize = 0;
    for _ in 0..count {
        let Some(node) = left.pop() else {
            break;
        };
        take_away(&mut nodes, edges, node, &mut left)?;
        taken = taken.saturating_add(1);
    }
    Ok(taken < count)
}
