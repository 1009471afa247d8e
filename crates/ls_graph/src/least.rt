// What walks to nodes that weren't looked at cost at least. It is tested on what was found, so no proof rests on the
// order.

ghost use Rattle.std.specs.Prelude.{◌≡◌, ◌⊎◌, ◌≤◌, ◌<◌, ◌+◌, ℕ, IsTrue, Some, length, map, slice_get, true};
ghost use Rattle.ls_graph.specs.Walks.{AreCosts, CostAtLeast, IsCost, IsLeast, cost_along, cost_at};

use crate::closing::{Closing, Edge};
use crate::costs::{Counted, cost, kept_last};
use crate::front::known_at;
use crate::marks::is_marked;

/// What it is told to cost to reach a node by a last step of this actor.
fn cost_at(counted: Counted, costs: &[Vec<u32>], last: u8, at: u32) -> usize
    ensures { result ≡ cost_at counted (map (λ v. v.items) costs.now) last at }
{
    known_at(costs, kept_last(counted, last), at)
}

/// Whether an edge makes no node cheaper after a step of this actor, or costs so much at least.
fn is_no_cheaper(counted: Counted, costs: &[Vec<u32>], before: u8, edge: Edge, least: usize) -> bool
    ensures { IsTrue result →
        (cost_at counted (map (λ v. v.items) costs.now) edge.actor edge.to ≤
        cost_along counted (map (λ v. v.items) costs.now) before edge) ⊎
        (least ≤ cost_along counted (map (λ v. v.items) costs.now) before edge) }
{
    let step = cost(counted, before, edge.actor);
    let spent = cost_at(counted, costs, before, edge.from).saturating_add(step);
    least <= spent || cost_at(counted, costs, edge.actor, edge.to) <= spent
}

/// Whether an edge makes no node cheaper, or costs so much at least.
fn is_cost(counted: Counted, costs: &[Vec<u32>], actors: u8, edge: Edge, least: usize) -> bool
    ensures { IsTrue result → IsCost counted (map (λ v. v.items) costs.now) actors least edge }
{
    for before in 0..actors {
        if !is_no_cheaper(counted, costs, before, edge, least) {
            return false;
        }
    }
    edge.actor < actors
}

/// Whether so it is of all edges.
fn are_costs(counted: Counted, costs: &[Vec<u32>], actors: u8, edges: &[Edge], least: usize) -> bool
    ensures { IsTrue result → AreCosts counted (map (λ v. v.items) costs.now) actors least edges.now }
{
    for edge in edges {
        if !is_cost(counted, costs, actors, *edge, least) {
            return false;
        }
    }
    true
}

/// Whether it is told to cost at least so much to reach a node.
fn costs_so_much(counted: Counted, costs: &[Vec<u32>], actors: u8, at: u32, least: usize) -> bool
    ensures { IsTrue result → (last : ℕ) → last < actors →
        least ≤ cost_at counted (map (λ v. v.items) costs.now) last at }
{
    for last in 0..actors {
        if cost_at(counted, costs, last, at) < least {
            return false;
        }
    }
    true
}

/// Whether it is told to cost at least so much to reach each of the first so many nodes that isn't marked.
fn cost_at_least(
    counted: Counted,
    costs: &[Vec<u32>],
    actors: u8,
    count: u32,
    marks: &[bool],
    least: usize,
) -> bool
    ensures { IsTrue result →
        CostAtLeast counted (map (λ v. v.items) costs.now) actors count marks.now least }
{
    for at in 0..count {
        if !is_marked(marks, at as usize) && !costs_so_much(counted, costs, actors, at, least) {
            return false;
        }
    }
    true
}

/// Whether each walk to a node that wasn't looked at costs so much at least. True only where it is so.
pub fn is_least<N>(counted: Counted, actors: u8, closing: &Closing<N>, least: usize) -> bool
    ensures { IsTrue result → IsLeast counted closing.now.graph.edges.items
        (length closing.now.graph.found.nodes.items) closing.now.looked.items least }
{
    let costs = closing.front.costs.as_slice();
    let count = closing.graph.found.nodes.len();
    if actors == 0 || count > 0xffff_ffff || cost_at(counted, costs, 0, 0) > 0 {
        return false;
    }
    if !are_costs(counted, costs, actors, &closing.graph.edges, least) {
        return false;
    }
    cost_at_least(counted, costs, actors, count as u32, &closing.looked, least)
}
