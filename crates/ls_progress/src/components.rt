// The strongly connected components of the edges that are kept. No contract depends on them: what is found by them is
// looked at once more.

use crate::arrays::{NONE, fill, is_on, number_at, put};
use crate::kinds::{Kind, is_kept};
use ls_graph::closing::{Edge, number_of};
use std::alloc::{AllocError, Global};

/// Where the edges stand that lead from each node: from a place on, and up to a place.
#[derive(Drop)]
pub(crate) struct Outgoing {
    pub(crate) first: Vec<u32>,
    pub(crate) end: Vec<u32>,
}

/// Edges, of which those are looked at that are kept for a thread's calls.
#[derive(Copy)]
pub(crate) struct View<'a> {
    pub(crate) alloc: Global,
    pub(crate) edges: &'a [Edge],
    pub(crate) outgoing: &'a Outgoing,
    pub(crate) count: usize,
    pub(crate) kind: Kind,
    pub(crate) thread: u8,
}

impl<'a> Clone for View<'a> {
    fn clone(&self) -> Result<View<'a>, AllocError> {
        Ok(*self)
    }
}

/// The component of each node, by numbers: no edge that is kept leads to one with a higher number. And the nodes:
/// those of the component with the lowest number are first.
#[derive(Drop)]
pub(crate) struct Components {
    pub(crate) of: Vec<u32>,
    pub(crate) order: Vec<u32>,
}

/// Where the edges of so many nodes stand.
pub(crate) fn outgoing_of(
    alloc: Global,
    edges: &[Edge],
    count: usize,
) -> Result<Outgoing, AllocError> {
    let mut outgoing = Outgoing {
        first: Vec::new(alloc),
        end: Vec::new(alloc),
    };
    fill(&mut outgoing.first, count, 0)?;
    fill(&mut outgoing.end, count, 0)?;
    for place in 0..edges.len() {
        let from = edges[place].from as usize;
        let number = number_of(place)?;
        if number_at(&outgoing.end, from) == 0 {
            put(&mut outgoing.first, from, number);
        }
        put(&mut outgoing.end, from, number.saturating_add(1));
    }
    Ok(outgoing)
}

/// The edge at a place, if it is one that is kept.
pub(crate) fn kept_at(view: View<'_>, place: usize) -> Option<Edge> {
    let edge = view.edges.get(place)?;
    if !is_kept(view.kind, view.thread, *edge) {
        return None;
    }
    Some(*edge)
}

/// A search in depth that isn't done.
#[derive(Drop)]
struct Walk {
    index: Vec<u32>,
    low: Vec<u32>,
    open: Vec<u32>,
    way: Vec<u32>,
    next: Vec<u32>,
    found: u32,
    parts: u32,
    components: Components,
}

/// A node is come to.
fn enter(walk: &mut Walk, view: View<'_>, at: usize) -> Result<(), AllocError> {
    put(&mut walk.index, at, walk.found);
    put(&mut walk.low, at, walk.found);
    walk.found = walk.found.saturating_add(1);
    let node = number_of(at)?;
    walk.open.push(node)?;
    walk.way.push(node)?;
    let first = number_at(&view.outgoing.first, at);
    walk.next.push(first)?;
    Ok(())
}

/// The lower of two numbers is kept for a node.
fn lower(walk: &mut Walk, at: usize, number: u32) {
    if number < number_at(&walk.low, at) {
        put(&mut walk.low, at, number);
    }
}

/// The open nodes down to this one are a component.
fn close(walk: &mut Walk, at: usize) -> Result<(), AllocError> {
    for _ in 0..usize::MAX {
        let Some(node) = walk.open.pop() else {
            break;
        };
        put(&mut walk.components.of, node as usize, walk.parts);
        walk.components.order.push(node)?;
        if node as usize == at {
            break;
        }
    }
    walk.parts = walk.parts.saturating_add(1);
    Ok(())
}

/// All edges of the last node of the way were looked at.
fn leave(walk: &mut Walk, at: usize) -> Result<(), AllocError> {
    let _ = walk.way.pop();
    let _ = walk.next.pop();
    let low = number_at(&walk.low, at);
    if let Some(up) = walk.way.last() {
        let up = *up as usize;
        lower(walk, up, low);
    }
    if low == number_at(&walk.index, at) {
        close(walk, at)?;
    }
    Ok(())
}

/// An edge of a node is looked at.
fn look(walk: &mut Walk, view: View<'_>, on: &[bool], place: usize) -> Result<(), AllocError> {
    let Some(edge) = kept_at(view, place) else {
        return Ok(());
    };
    let to = edge.to as usize;
    if !is_on(on, to) {
        return Ok(());
    }
    if number_at(&walk.index, to) == NONE {
        return enter(walk, view, to);
    }
    if number_at(&walk.components.of, to) == NONE {
        let number = number_at(&walk.index, to);
        lower(walk, edge.from as usize, number);
    }
    Ok(())
}

/// All that a node leads to is looked at.
fn walk_from(walk: &mut Walk, view: View<'_>, on: &[bool], root: usize) -> Result<(), AllocError> {
    enter(walk, view, root)?;
    for _ in 0..usize::MAX {
        let Some(at) = walk.way.last() else {
            break;
        };
        let at = *at as usize;
        let Some(place) = walk.next.pop() else {
            break;
        };
        walk.next.push(place.saturating_add(1))?;
        if place < number_at(&view.outgoing.end, at) {
            look(walk, view, on, place as usize)?;
        } else {
            leave(walk, at)?;
        }
    }
    Ok(())
}

/// A search that hasn't begun.
fn walk_of(alloc: Global) -> Walk {
    Walk {
        index: Vec::new(alloc),
        low: Vec::new(alloc),
        open: Vec::new(alloc),
        way: Vec::new(alloc),
        next: Vec::new(alloc),
        found: 0,
        parts: 0,
        components: Components {
            of: Vec::new(alloc),
            order: Vec::new(alloc),
        },
    }
}

/// The components of the nodes that are on, by the edges that are kept between them.
pub(crate) fn components_of(view: View<'_>, on: &[bool]) -> Result<Components, AllocError> {
    let mut walk = walk_of(view.alloc);
    fill(&mut walk.index, view.count, NONE)?;
    fill(&mut walk.low, view.count, NONE)?;
    fill(&mut walk.components.of, view.count, NONE)?;
    for root in 0..view.count {
        if is_on(on, root) && number_at(&walk.index, root) == NONE {
            walk_from(&mut walk, view, on, root)?;
        }
    }
    Ok(walk.components)
}

/// Whether an edge stays in a component.
pub(crate) fn is_inner(of: &[u32], edge: Edge) -> bool {
    let from = number_at(of, edge.from as usize);
    from != NONE && from == number_at(of, edge.to as usize)
}
