// The nodes to which actors lead, one after another, and all that they do there.

ghost use Rattle.std.specs.Prelude.{◌≡◌, ◌<◌, ◌≤◌, ◌++◌, ◌∷◌, [], ℕ, IfNone, IfOk, IfSome, IsTrue, OnOk, Some, false};
ghost use Rattle.std.specs.Prelude.{length};
ghost use Rattle.std.specs.Prelude.{slice_get};
ghost use Rattle.ls_graph.specs.Found.{AreFound, AreFromLooked, HasNone, HasNoneBy, IsGrown, LeavesMore, LeavesMoreBy};
ghost use Rattle.ls_graph.specs.Grown.{Grows, Keeps};
ghost use Rattle.ls_graph.specs.Graph.{AreEdges, AreKnown, AreLooked, Goes, IsFull, IsGraph, IsLooked, IsTold};
ghost use Rattle.ls_graph.specs.Graph.{IsWeighed};
ghost use Rattle.ls_graph.specs.Graph.{IsBounded, IsWhole, states_in};
ghost use Rattle.ls_graph.specs.declared.closing.Halt.TheVariants.{Full};

use crate::costs::Counted;
use crate::front::{Front, Pair};
use crate::marks::{are_marked, is_marked, mark};
use crate::nodes::{Bounds, Nodes, alone, keep};
use crate::space::Space;
use std::alloc::{AllocError, Global};

/// An actor leads from the node at one place to the node at another.
#[derive(Copy)]
pub struct Edge {
    pub from: u32,
    pub to: u32,
    pub mark: u32,
    pub actor: u8,
}

impl Clone for Edge {
    fn clone(&self) -> Result<Edge, AllocError> {
        Ok(*self)
    }
}

/// Nodes, and where actors lead from them.
#[derive(Drop)]
pub struct Graph<N> {
    pub found: Nodes<N>,
    pub edges: Vec<Edge>,
    /// By which edge each node was found, but the first: that at place `i + 1` by the edge whose place stands at `i`.
    pub by: Vec<u32>,
}

/// By what a graph is found.
#[derive(Copy)]
pub struct Plan {
    pub alloc: Global,
    /// How many actors there are.
    pub actors: u8,
    pub bounds: Bounds,
    /// What is counted. Nodes that cost less to reach are looked at first.
    pub counted: Counted,
    /// No node is looked at that costs so much to reach.
    pub far: usize,
}

impl Clone for Plan {
    fn clone(&self) -> Result<Plan, AllocError> {
        Ok(*self)
    }
}

/// Why no more nodes are looked at.
#[derive(Copy)]
pub enum Halt {
    /// None is left.
    Closed,
    /// The next one is an end.
    End,
    /// There are as many as there may be, or they weigh more than they may.
    Full,
    /// The next one costs too much to reach.
    Far,
}

impl Clone for Halt {
    fn clone(&self) -> Result<Halt, AllocError> {
        Ok(*self)
    }
}

/// A number of 32 bits. It is refused where there is none.
pub fn number_of(at: usize) -> Result<u32, AllocError>
    ensures { IfOk result (λ n. n ≡ at) }
{
    if at > 0xffff_ffff {
        return Err(AllocError);
    }
    Ok(at as u32)
}

/// The node at a place.
fn node_at<N>(nodes: &[N], at: usize) -> &N
    requires { at < length nodes.now }
    ensures { slice_get nodes.now at ≡ Some result.now }
{
    &nodes[at]
}

/// Adds an edge. Where it leads to a node that stands after the first so many, it found that node.
fn join<N>(graph: &mut Graph<N>, edge: Edge, count: usize) -> Result<(), AllocError>
    ensures nodes { graph.new.found ≡ graph.old.found }
    ensures edges { OnOk result (graph.new.edges.items ≡ graph.old.edges.items ++ edge ∷ []) }
    ensures known { OnOk result (edge.to < count → graph.new.by.items ≡ graph.old.by.items) }
    ensures new { OnOk result (count ≤ edge.to →
        graph.new.by.items ≡ graph.old.by.items ++ length graph.old.edges.items ∷ []) }
{
    if edge.to as usize >= count {
        let place = number_of(graph.edges.len())?;
        graph.by.push(place)?;
    }
    graph.edges.push(edge)?;
    Ok(())
}

/// Looks at where an actor leads from the node at a place. Answers false where no more nodes may be kept.
fn look<P: Space>(
    space: &P,
    plan: Plan,
    tables: &mut P::Tables,
    graph: &mut Graph<P::Node>,
    at: usize,
    actor: u8,
) -> Result<bool, AllocError>
    requires at { at < length graph.old.found.nodes.items }
    requires weighed { IsWeighed P.weighs graph.old }
    requires known { AreKnown (P.IsKnown space.now) tables.old graph.old.found.nodes.items }
    requires led { AreEdges (P.Leads space.now) (states_in (P.stands space.now) tables.old graph.old)
        graph.old.edges.items }
    requires grown { IsGrown graph.old }
    requires new { HasNoneBy graph.old.edges.items at actor }
    ensures grows { Grows (P.IsKnown space.now) (P.stands space.now) tables.old tables.new }
    ensures goes { OnOk result (Goes (P.IsKnown space.now) (P.stands space.now) (P.Leads space.now) P.weighs tables.old
        graph.old tables.new graph.new) }
    ensures told { IfOk result (λ done. IsTrue done → (s : P.State) →
        slice_get (states_in (P.stands space.now) tables.old graph.old) at ≡ Some s →
        IsTold (P.Rests space.now) (P.Ends space.now) graph.new.edges.items at s actor) }
    ensures full { IfOk result (λ done. done ≡ false → IsFull P.weighs plan.bounds graph.new) }
    ensures bounded { OnOk result (IsBounded P.weighs plan.bounds graph.old.found →
        IsBounded P.weighs plan.bounds graph.new.found) }
    ensures grown { OnOk result (IsGrown graph.new) }
    ensures more { OnOk result (LeavesMoreBy graph.old.edges.items graph.new.edges.items at actor) }
{
    let node = node_at(&graph.found.nodes, at);
    match space.next(plan.alloc, tables, node, actor)? {
        None => Ok(true),
        Some(step) => {
            let mark = step.mark;
            let count = graph.found.nodes.len();
            match keep(space, plan.alloc, &mut graph.found, plan.bounds, step.node)? {
                None => Ok(false),
                Some(to) => {
                    let from = number_of(at)?;
                    let to = number_of(to)?;
                    let edge = Edge {
                        from,
                        to,
                        mark,
                        actor,
                    };
                    join(graph, edge, count)?;
                    Ok(true)
                }
            }
        }
    }
}

/// Looks at where each actor leads from the node at a place. Answers false where no more nodes may be kept.
fn expand<P: Space>(
    space: &P,
    plan: Plan,
    tables: &mut P::Tables,
    graph: &mut Graph<P::Node>,
    at: usize,
) -> Result<bool, AllocError>
    requires at { at < length graph.old.found.nodes.items }
    requires weighed { IsWeighed P.weighs graph.old }
    requires known { AreKnown (P.IsKnown space.now) tables.old graph.old.found.nodes.items }
    requires led { AreEdges (P.Leads space.now) (states_in (P.stands space.now) tables.old graph.old)
        graph.old.edges.items }
    requires grown { IsGrown graph.old }
    requires none { HasNone graph.old.edges.items at }
    ensures goes { OnOk result (Goes (P.IsKnown space.now) (P.stands space.now) (P.Leads space.now) P.weighs tables.old
        graph.old tables.new graph.new) }
    ensures told { IfOk result (λ done. IsTrue done → (s : P.State) →
        slice_get (states_in (P.stands space.now) tables.old graph.old) at ≡ Some s →
        (u : ℕ) → u < plan.actors → IsTold (P.Rests space.now) (P.Ends space.now) graph.new.edges.items at s u) }
    ensures full { IfOk result (λ done. done ≡ false → IsFull P.weighs plan.bounds graph.new) }
    ensures bounded { OnOk result (IsBounded P.weighs plan.bounds graph.old.found →
        IsBounded P.weighs plan.bounds graph.new.found) }
    ensures grown { OnOk result (IsGrown graph.new) }
    ensures more { OnOk result (LeavesMore graph.old.edges.items graph.new.edges.items at) }
{
    for actor in 0..plan.actors {
        if !look(space, plan, tables, graph, at, actor)? {
            return Ok(false);
        }
    }
    Ok(true)
}

/// A graph, at which of its nodes actors were looked at, what it costs to reach nodes, and why no more were looked at.
#[derive(Drop)]
pub struct Closing<N> {
    pub graph: Graph<N>,
    pub looked: Vec<bool>,
    pub front: Front,
    pub halt: Halt,
    /// The node that was to be looked at when no more were.
    pub last: Pair,
}

/// Whether the node at a place is an end. False only where it isn't.
fn is_end_at<P: Space>(
    space: &P,
    alloc: Global,
    tables: &mut P::Tables,
    graph: &Graph<P::Node>,
    at: usize,
) -> Result<bool, AllocError>
    requires at { at < length graph.now.found.nodes.items }
    requires weighed { IsWeighed P.weighs graph.now }
    requires known { AreKnown (P.IsKnown space.now) tables.old graph.now.found.nodes.items }
    requires led { AreEdges (P.Leads space.now) (states_in (P.stands space.now) tables.old graph.now)
        graph.now.edges.items }
    ensures goes { Goes (P.IsKnown space.now) (P.stands space.now) (P.Leads space.now) P.weighs tables.old graph.now
        tables.new graph.now }
    ensures none { IfOk result (λ b. b ≡ false → (n : P.Node) → slice_get graph.now.found.nodes.items at ≡ Some n →
        P.Ends space.now (P.stands space.now tables.old n) → ⊥) }
{
    let end = space.is_end(alloc, tables, node_at(&graph.found.nodes, at))?;
    Ok(end)
}

/// Looks at a node, if it was not looked at. Answers why no more nodes are looked at, where that is so.
fn look_at<P: Space>(
    space: &P,
    plan: Plan,
    tables: &mut P::Tables,
    closing: &mut Closing<P::Node>,
    at: usize,
) -> Result<Option<Halt>, AllocError>
    requires weighed { IsWeighed P.weighs closing.old.graph }
    requires known { AreKnown (P.IsKnown space.now) tables.old closing.old.graph.found.nodes.items }
    requires led { AreEdges (P.Leads space.now) (states_in (P.stands space.now) tables.old closing.old.graph)
        closing.old.graph.edges.items }
    requires looked { AreLooked (P.Rests space.now) (P.Ends space.now)
        (states_in (P.stands space.now) tables.old closing.old.graph)
        closing.old.graph.edges.items plan.actors closing.old.looked.items }
    requires grown { IsGrown closing.old.graph }
    requires from { AreFromLooked closing.old.graph.edges.items closing.old.looked.items }
    ensures goes { OnOk result (Goes (P.IsKnown space.now) (P.stands space.now) (P.Leads space.now) P.weighs tables.old
        closing.old.graph tables.new closing.new.graph) }
    ensures looked { OnOk result (AreLooked (P.Rests space.now) (P.Ends space.now)
        (states_in (P.stands space.now) tables.new closing.new.graph)
        closing.new.graph.edges.items plan.actors closing.new.looked.items) }
    ensures full { IfOk result (λ o. IfSome o (λ h. h ≡ Full → IsFull P.weighs plan.bounds closing.new.graph)) }
    ensures bounded { OnOk result (IsBounded P.weighs plan.bounds closing.old.graph.found →
        IsBounded P.weighs plan.bounds closing.new.graph.found) }
    ensures grown { OnOk result (IsGrown closing.new.graph) }
    ensures from { IfOk result (λ o. IfNone o
        (AreFromLooked closing.new.graph.edges.items closing.new.looked.items)) }
{
    if is_marked(&closing.looked, at) || at >= closing.graph.found.nodes.len() {
        return Ok(None);
    }
    if is_end_at(space, plan.alloc, tables, &closing.graph, at)? {
        return Ok(Some(Halt::End));
    }
    let first = closing.graph.edges.len();
    if !expand(space, plan, tables, &mut closing.graph, at)? {
        return Ok(Some(Halt::Full));
    }
    closing.front.note(at, first, closing.graph.edges.len())?;
    mark(&mut closing.looked, at)?;
    Ok(None)
}

/// Looks at nodes by what it costs to reach them, until each was looked at, or one is an end, or no more may be kept.
fn close_all<P: Space>(
    space: &P,
    plan: Plan,
    tables: &mut P::Tables,
    closing: &mut Closing<P::Node>,
) -> Result<Halt, AllocError>
    requires weighed { IsWeighed P.weighs closing.old.graph }
    requires known { AreKnown (P.IsKnown space.now) tables.old closing.old.graph.found.nodes.items }
    requires led { AreEdges (P.Leads space.now) (states_in (P.stands space.now) tables.old closing.old.graph)
        closing.old.graph.edges.items }
    requires looked { AreLooked (P.Rests space.now) (P.Ends space.now)
        (states_in (P.stands space.now) tables.old closing.old.graph)
        closing.old.graph.edges.items plan.actors closing.old.looked.items }
    requires grown { IsGrown closing.old.graph }
    requires from { AreFromLooked closing.old.graph.edges.items closing.old.looked.items }
    ensures goes { OnOk result (Goes (P.IsKnown space.now) (P.stands space.now) (P.Leads space.now) P.weighs tables.old
        closing.old.graph tables.new closing.new.graph) }
    ensures looked { OnOk result (AreLooked (P.Rests space.now) (P.Ends space.now)
        (states_in (P.stands space.now) tables.new closing.new.graph)
        closing.new.graph.edges.items plan.actors closing.new.looked.items) }
    ensures full { IfOk result (λ h. h ≡ Full → IsFull P.weighs plan.bounds closing.new.graph) }
    ensures bounded { OnOk result (IsBounded P.weighs plan.bounds closing.old.graph.found →
        IsBounded P.weighs plan.bounds closing.new.graph.found) }
    ensures grown { OnOk result (IsGrown closing.new.graph) }
{
    for _ in 0..usize::MAX {
        let Some(pair) = closing.front.next() else {
            return Ok(Halt::Closed);
        };
        closing.last = pair;
        if closing.front.cost >= plan.far {
            return Ok(Halt::Far);
        }
        if let Some(halt) = look_at(space, plan, tables, closing, pair.at as usize)? {
            return Ok(halt);
        }
        closing
            .front
            .follow(plan.counted, &closing.graph.edges, pair)?;
    }
    Ok(Halt::Far)
}

/// The graph that begins with this node, as far as its plan says, or until an end is next.
pub fn close<P: Space>(
    space: &P,
    plan: Plan,
    tables: &mut P::Tables,
    root: P::Node,
) -> Result<Closing<P::Node>, AllocError>
    requires { P.IsKnown space.now tables.old root }
    ensures graph { IfOk result (λ c. IsGraph (P.Rests space.now) (P.Leads space.now) (P.Ends space.now) plan.actors
        (P.stands space.now tables.old root) (states_in (P.stands space.now) tables.new c.graph)
        c.graph.edges.items c.looked.items) }
    ensures full { IfOk result (λ c. c.halt ≡ Full → IsFull P.weighs plan.bounds c.graph) }
    ensures bounded { IfOk result (λ c. 1 ≤ plan.bounds.limit → IsBounded P.weighs plan.bounds c.graph.found) }
    ensures found { IfOk result (λ c. IsGrown c.graph) }
    ensures known { IfOk result (λ c. AreKnown (P.IsKnown space.now) tables.new c.graph.found.nodes.items) }
{
    let found = alone(space, plan.alloc, root)?;
    let mut closing = Closing {
        graph: Graph {
            found,
            edges: Vec::new(plan.alloc),
            by: Vec::new(plan.alloc),
        },
        looked: Vec::new(plan.alloc),
        front: Front::new(plan.alloc, plan.actors)?,
        halt: Halt::Closed,
        last: Pair {
            at: 0,
            last: 0,
            steps: 0,
        },
    };
    let halt = close_all(space, plan, tables, &mut closing)?;
    closing.halt = halt;
    Ok(closing)
}

/// Whether all nodes were looked at. True only where they were.
pub fn is_whole<N>(closing: &Closing<N>) -> bool
    ensures { IsTrue result → IsWhole (length closing.now.graph.found.nodes.items) closing.now.looked.items }
{
    are_marked(&closing.looked, closing.graph.found.nodes.len())
}
