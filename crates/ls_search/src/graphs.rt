// What the graph of a program's states tells: whether these are all, and walks to those that are bad or stuck.

ghost use Rattle.std.specs.Prelude.{◌≡◌, ◌⊎◌, ℕ, ◌<◌, ◌≤◌, ◌++◌, IfNone, IfOk, IfSome, IsTrue, OnOk, None, Some, true};
ghost use Rattle.std.specs.Prelude.{false, length, map};
ghost use Rattle.std.specs.Prelude.{replicate, slice_get, slice_index_or};
ghost use Rattle.std.specs.List.{fold};
ghost use Rattle.ls_checked.specs.Plain.{plain_file};
ghost use Rattle.ls_checked.specs.PlainProgram.{plain_program};
ghost use Rattle.ls_graph.specs.Found.{AreFound, HasAny, IsGrown};
ghost use Rattle.ls_graph.specs.Graph.{IsGraph};
ghost use Rattle.ls_graph.specs.Weights.{total};
ghost use Rattle.ls_graph.specs.declared.closing.Halt.TheVariants.{Full};
ghost use Rattle.ls_search_laws.specs.Noticing.{noticed_after};
ghost use Rattle.ls_transitions.specs.Seen.{table_of};
ghost use Rattle.ls_transitions.specs.Tables.{Grows};
ghost use Rattle.ls_search.specs.declared.space.Kept.{Kept as KeptValue};
ghost use Rattle.ls_search.specs.Answers.{ClosesAll, IsStuck, root_of};
ghost use Rattle.ls_search.specs.Closed.{HasClosed};
ghost use Rattle.ls_search.specs.declared.space.Wanted.TheVariants.{Nothing};
ghost use Rattle.ls_search.specs.Graphs.{ActsAlong, AreNoted, ArePlaced, AreWide, HaveObjects, LeadsAlong, LeadsTo};
ghost use Rattle.ls_search.specs.Graphs.{most_objects, states_at, steps_along};
ghost use Rattle.ls_search.specs.Space.{GoesTo, IsEnd, Rests};
ghost use Rattle.ls_search.specs.Places.{AreThere, IsThere, configuration_of};
ghost use Rattle.ls_search.specs.Searched.{HidesNames};
ghost use Rattle.ls_search.specs.Tried.{HasTried};

use crate::noting::Pool;
use crate::objects::MOST_OBJECTS;
use crate::places::NumberedState;
use crate::roots::{Root, is_bad_at};
use crate::searching::Ground;
use crate::space::{Beginning, Kept, StateSpace, Tables, Wanted, begin, is_stuck_at};
use ls_graph::closing::{Closing, Edge, Graph, Halt, Plan, close, is_whole};
use ls_graph::costs::Counted;
use ls_graph::marks::is_marked;
use ls_graph::nodes::Bounds;
use ls_graph::walks::{edges_to, left_by};
use ls_observers::observer::Observer;
use ls_transitions::transitions::Transitions;
use std::alloc::{AllocError, Global};

/// What a search tells: whether all was looked at, and how many states were found. Then the path to the first bad
/// state, and that to the first in which no thread acts and one waits.
#[derive(Drop)]
pub struct Found {
    pub complete: bool,
    pub states: usize,
    pub bad: Option<Vec<u8>>,
    pub stuck: Option<Vec<u8>>,
}

/// Adds a thread so many times.
fn push_times(threads: &mut Vec<u8>, thread: u8, count: usize) -> Result<(), AllocError>
    ensures { OnOk result (threads.new.items ≡ threads.old.items ++ replicate count thread) }
{
    for _ in 0..count {
        threads.push(thread)?;
    }
    Ok(())
}

/// The threads whose steps lead along edges, with those that are taken at once.
fn steps_along(alloc: Global, path: &[Edge]) -> Result<Vec<u8>, AllocError>
    ensures { IfOk result (λ steps. steps.items ≡ steps_along path.now) }
{
    let mut steps = Vec::new(alloc);
    for edge in path {
        push_times(&mut steps, edge.actor, edge.mark as usize + 1)?;
    }
    Ok(steps)
}

/// The threads whose steps lead from the first state to the one at a place, but for names of objects.
fn path_to(alloc: Global, graph: &Graph<Kept>, at: usize) -> Result<Vec<u8>, AllocError>
    requires within { at < length graph.now.found.nodes.items }
    requires found { AreFound graph.now.edges.items (length graph.now.found.nodes.items) graph.now.by.items }
    ensures { IfOk result (λ path. LeadsTo graph.now.edges.items at path.items) }
{
    let edges = edges_to(alloc, graph, at)?;
    steps_along(alloc, &edges)
}

/// The first state that is bad.
fn first_bad<O: Observer>(observer: &O, pool: &Pool<O::Noted>, nodes: &[Kept]) -> Option<usize>
    requires noted { AreNoted (length pool.now.values.items) nodes.now }
    ensures within { IfSome result (λ at. at < length nodes.now) }
    ensures some { IfSome result (λ at. (n : KeptValue) → slice_get nodes.now at ≡ Some n →
        O.bad observer.now (slice_index_or (map (O.stands observer.now) pool.now.values.items) n.place.noted
        (O.first observer.now)) ≡ true) }
    ensures none { IfNone result ((at : ℕ) (n : KeptValue) → slice_get nodes.now at ≡ Some n →
        O.bad observer.now (slice_index_or (map (O.stands observer.now) pool.now.values.items) n.place.noted
        (O.first observer.now)) ≡ false) }
{
    for at in 0..nodes.len() {
        if is_bad_at(observer, pool, &nodes[at].place) {
            return Some(at);
        }
    }
    None
}

/// Whether the state at a place may be stuck: false only where it wasn't looked at, or where a thread is known to act.
fn may_be_stuck(looked: &[bool], left: &[bool], at: usize) -> bool
    ensures { result ≡ false → slice_get looked.now at ≡ Some true → slice_get left.now at ≡ Some true }
{
    is_marked(looked, at) && !is_marked(left, at)
}

/// Whether no thread acts at a state and one waits, if that is asked. Else it answers false.
fn is_stuck_if<'a>(
    alloc: Global,
    threads: u8,
    transitions: &mut Transitions<'a>,
    place: &NumberedState,
    asked: bool,
) -> Result<bool, AllocError>
    requires there { IsThere (table_of transitions.old) place.now }
    requires width { length place.now.works.items ≡ threads }
    ensures some { IfOk result (λ b. IsTrue b → IsStuck (table_of transitions.old).file
        (configuration_of (table_of transitions.old) place.now)) }
    ensures none { IfOk result (λ b. b ≡ false → asked ≡ true → IsStuck (table_of transitions.old).file
        (configuration_of (table_of transitions.old) place.now) → ⊥) }
    ensures grows { Grows (table_of transitions.old) (table_of transitions.new) }
{
    if !asked {
        return Ok(false);
    }
    is_stuck_at(alloc, threads, transitions, place)
}

/// The first state that was looked at in which no thread acts and one waits.
fn first_stuck<'a>(
    alloc: Global,
    threads: u8,
    transitions: &mut Transitions<'a>,
    closing: &Closing<Kept>,
) -> Result<Option<usize>, AllocError>
    requires wide { AreWide (table_of transitions.old) threads closing.now.graph.found.nodes.items }
    ensures within { IfOk result (λ o. IfSome o (λ at. at < length closing.now.graph.found.nodes.items)) }
    ensures some { IfOk result (λ o. IfSome o (λ at. (n : KeptValue) →
        slice_get closing.now.graph.found.nodes.items at ≡ Some n →
        IsStuck (table_of transitions.old).file (configuration_of (table_of transitions.old) n.place))) }
    ensures none { IfOk result (λ o. IfNone o ((at : ℕ) (n : KeptValue) →
        slice_get closing.now.graph.found.nodes.items at ≡ Some n → slice_get closing.now.looked.items at ≡ Some true →
        IsStuck (table_of transitions.old).file (configuration_of (table_of transitions.old) n.place) →
        HasAny closing.now.graph.edges.items at)) }
    ensures grows { Grows (table_of transitions.old) (table_of transitions.new) }
{
    let left = left_by(alloc, &closing.graph)?;
    let nodes = closing.graph.found.nodes.as_slice();
    for at in 0..nodes.len() {
        let asked = may_be_stuck(&closing.looked, &left, at);
        if is_stuck_if(alloc, threads, transitions, &nodes[at].place, asked)? {
            return Ok(Some(at));
        }
    }
    Ok(None)
}

/// The path to the state at a place, if there is such a place.
fn path_if(
    alloc: Global,
    graph: &Graph<Kept>,
    place: Option<usize>,
) -> Result<Option<Vec<u8>>, AllocError>
    requires within { IfSome place (λ at. at < length graph.now.found.nodes.items) }
    requires found { AreFound graph.now.edges.items (length graph.now.found.nodes.items) graph.now.by.items }
    ensures some { IfOk result (λ o. IfSome o (λ path.
        (at : ℕ) × (place ≡ Some at) × LeadsTo graph.now.edges.items at path.items)) }
    ensures none { IfOk result (λ o. IfNone o (place ≡ None)) }
{
    match place {
        None => Ok(None),
        Some(at) => {
            let path = path_to(alloc, graph, at)?;
            Ok(Some(path))
        }
    }
}

/// Whether all states were looked at, or no more may be kept.
fn is_closed_or_full(complete: bool, halt: Halt) -> bool
    ensures { IsTrue result → complete ≡ false → halt ≡ Full }
{
    match halt {
        Halt::Full => true,
        Halt::Closed | Halt::End | Halt::Far => complete,
    }
}

/// How far states are looked for: those that fewer steps lead to come first.
fn plan_of<O>(ground: &Ground<'_, O>) -> Plan
    ensures actors { result.actors ≡ ground.now.threads }
    ensures limit { result.bounds.limit ≡ ground.now.limit }
    ensures weight { result.bounds.weight ≡ most_objects }
{
    Plan {
        alloc: ground.alloc,
        actors: ground.threads,
        bounds: Bounds {
            limit: ground.limit,
            weight: MOST_OBJECTS,
        },
        counted: Counted::Steps,
        far: usize::MAX,
    }
}

/// A graph of states, and what its numbers stand for.
#[derive(Drop)]
struct StateGraph<'a, N> {
    tables: Tables<'a, N>,
    closing: Closing<Kept>,
}

/// The graph of the states that the root leads to.
fn graph_from<'a, O: Observer>(
    ground: &Ground<'a, O>,
    transitions: Transitions<'a>,
    root: Root<O::Noted>,
) -> Result<StateGraph<'a, O::Noted>, AllocError>
    requires numbers { AreThere (table_of transitions) root.store root.works.items }
    requires file { (table_of transitions).file ≡ plain_file ground.now.file.now }
    requires width { length root.works.items ≡ ground.now.threads }
    ensures graph { IfOk result (λ s. IsGraph
        (Rests (O.first ground.now.observer.now) (O.next ground.now.observer.now) (plain_file ground.now.file.now)
        (plain_program ground.now.program.now) (O.stands ground.now.observer.now) None)
        (GoesTo (O.first ground.now.observer.now) (O.next ground.now.observer.now) (plain_file ground.now.file.now)
        (plain_program ground.now.program.now)) (IsEnd (O.stands ground.now.observer.now)
        (O.bad ground.now.observer.now) Nothing (plain_file ground.now.file.now)) ground.now.threads
        (root_of (O.stands ground.now.observer.now) (table_of transitions.entry) root)
        (states_at (O.first ground.now.observer.now) (table_of s.tables.transitions)
        (map (O.stands ground.now.observer.now) s.tables.pool.values.items) s.closing.graph.found.nodes.items)
        s.closing.graph.edges.items s.closing.looked.items) }
    ensures found { IfOk result (λ s. IsGrown s.closing.graph) }
    ensures placed { IfOk result (λ s. ArePlaced (plain_file ground.now.file.now) ground.now.threads
        (table_of s.tables.transitions) (map (O.stands ground.now.observer.now) s.tables.pool.values.items)
        s.closing.graph.found.nodes.items) }
    ensures few { IfOk result (λ s. 1 ≤ ground.now.limit →
        length s.closing.graph.found.nodes.items ≤ ground.now.limit) }
    ensures full { IfOk result (λ s. s.closing.halt ≡ Full →
        (ground.now.limit ≤ length s.closing.graph.found.nodes.items) ⊎
        (most_objects < total (λ n. n.weight) s.closing.graph.found.nodes.items)) }
{
    let beginning = begin(ground, transitions, root)?;
    let Beginning { tables, root } = beginning;
    let mut tables = tables;
    let space = StateSpace {
        ground,
        lost: None,
        wanted: Wanted::Nothing,
    };
    let closing = close(&space, plan_of(ground), &mut tables, root)?;
    Ok(StateGraph { tables, closing })
}

/// Looks for all that the root leads to, but for names of objects. Each thread acts in turn at each state that was
/// found, and turns and enterings after that are taken at once. At most so many states are kept, and no more where
/// their stores have over 4,194,304 objects together. A refusal is that memory ran out, that a store, a work or a state
/// has no number left, or that a constant of the file names an object, which none does of a file that was read. A graph
/// that isn't whole though there is room is refused too. That none is so isn't proved.
pub fn search_from<'a, O: Observer>(
    ground: &Ground<'a, O>,
    transitions: Transitions<'a>,
    root: Root<O::Noted>,
) -> Result<Found, AllocError>
    requires numbers { AreThere (table_of transitions) root.store root.works.items }
    requires file { (table_of transitions).file ≡ plain_file ground.now.file.now }
    requires width { length root.works.items ≡ ground.now.threads }
    requires hides { HidesNames (O.next ground.now.observer.now) }
    requires room { 1 ≤ ground.now.limit }
    ensures closes { IfOk result (λ f. IsTrue f.complete →
        ClosesAll (O.stands ground.now.observer.now) (O.first ground.now.observer.now)
        (O.next ground.now.observer.now) (O.bad ground.now.observer.now)
        (plain_file ground.now.file.now) (plain_program ground.now.program.now) ground.now.threads
        (root_of (O.stands ground.now.observer.now) (table_of transitions.entry) root) f.bad f.stuck) }
    ensures all { IfOk result (λ f. IsTrue f.complete →
        HasClosed (plain_file ground.now.file.now) ground.now.threads
        (root_of (O.stands ground.now.observer.now) (table_of transitions.entry) root).configuration f.states) }
    ensures bad { IfOk result (λ f. IfSome f.bad (λ path. O.bad ground.now.observer.now
        (fold (noticed_after (O.first ground.now.observer.now) (O.next ground.now.observer.now)
        (plain_file ground.now.file.now) (plain_program ground.now.program.now))
        (root_of (O.stands ground.now.observer.now) (table_of transitions.entry) root) path.items).noted ≡ true)) }
    ensures stuck { IfOk result (λ f. IfSome f.stuck (λ path. IsStuck (plain_file ground.now.file.now)
        (fold (noticed_after (O.first ground.now.observer.now) (O.next ground.now.observer.now)
        (plain_file ground.now.file.now) (plain_program ground.now.program.now))
        (root_of (O.stands ground.now.observer.now) (table_of transitions.entry) root) path.items).configuration)) }
    ensures cut { IfOk result (λ f. f.complete ≡ false → (f.states ≡ ground.now.limit) ⊎ HaveObjects
        (ActsAlong (O.first ground.now.observer.now) (O.next ground.now.observer.now)
        (plain_file ground.now.file.now) (plain_program ground.now.program.now)
        (root_of (O.stands ground.now.observer.now) (table_of transitions.entry) root))
        (LeadsAlong (O.first ground.now.observer.now) (O.next ground.now.observer.now)
        (plain_file ground.now.file.now) (plain_program ground.now.program.now)
        (root_of (O.stands ground.now.observer.now) (table_of transitions.entry) root)) f.states most_objects) }
    ensures few { IfOk result (λ f. f.states ≤ ground.now.limit) }
    ensures tried { IfOk result (λ f. HasTried
        (ActsAlong (O.first ground.now.observer.now) (O.next ground.now.observer.now)
        (plain_file ground.now.file.now) (plain_program ground.now.program.now)
        (root_of (O.stands ground.now.observer.now) (table_of transitions.entry) root)) f.states) }
{
    let found = graph_from(ground, transitions, root)?;
    let StateGraph { tables, closing } = found;
    let mut tables = tables;
    let complete = is_whole(&closing);
    if !is_closed_or_full(complete, closing.halt) {
        return Err(AllocError);
    }
    let states = closing.graph.found.nodes.len();
    let bad_at = first_bad(ground.observer, &tables.pool, &closing.graph.found.nodes);
    let bad = path_if(ground.alloc, &closing.graph, bad_at)?;
    let transitions = &mut tables.transitions;
    let stuck_at = first_stuck(ground.alloc, ground.threads, transitions, &closing)?;
    let stuck = path_if(ground.alloc, &closing.graph, stuck_at)?;
    Ok(Found {
        complete,
        states,
        bad,
        stuck,
    })
}
