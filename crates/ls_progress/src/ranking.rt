// Ranks and cycles, by components. Nothing is told of them here: what comes out is looked at once more.

use crate::arrays::{NONE, fill, filled, is_on, marks_of, number_at, put, set};
use crate::components::{Components, View, components_of, is_inner, kept_at};
use crate::cycles::Round;
use crate::kinds::is_own;
use crate::ranks::{is_in_call, is_waiting};
use ls_graph::closing::{Edge, number_of};
use std::alloc::AllocError;

/// The most steps of the thread ahead in a component, once the edges of one of its nodes were looked at.
fn look_ahead(view: View<'_>, of: &[u32], best: &mut Vec<u32>, at: usize) {
    let part = number_at(of, at) as usize;
    let first = number_at(&view.outgoing.first, at);
    for place in first..number_at(&view.outgoing.end, at) {
        let Some(edge) = kept_at(view, place as usize) else {
            continue;
        };
        let to = number_at(of, edge.to as usize) as usize;
        let own = if is_own(view.thread, edge) { 1 } else { 0 };
        let all = number_at(best, to).saturating_add(own);
        if to != part && all > number_at(best, part) {
            put(best, part, all);
        }
    }
}

/// Of each node how many steps of the thread are ahead at the most, where no cycle has one.
pub(crate) fn ranks_of(view: View<'_>, components: &Components) -> Result<Vec<u32>, AllocError> {
    let mut best = filled(view.alloc, view.count, 0)?;
    for node in &components.order {
        look_ahead(view, &components.of, &mut best, *node as usize);
    }
    let mut ranks = Vec::new(view.alloc);
    for at in 0..view.count {
        let part = number_at(&components.of, at) as usize;
        ranks.push(number_at(&best, part))?;
    }
    Ok(ranks)
}

/// Which steps a cycle is to have.
#[derive(Copy)]
pub(crate) enum Steps {
    /// One of the thread that has the call.
    Own,
    /// One of each thread that has one in the component.
    All,
    /// One that acts of each thread that acts in the component, and one of each other.
    Acting,
}

impl Clone for Steps {
    fn clone(&self) -> Result<Steps, AllocError> {
        Ok(*self)
    }
}

/// What a way leads to.
#[derive(Copy)]
enum Goal {
    /// A step of a thread.
    Step(u8),
    /// One that acts.
    Act(u8),
    /// A node.
    Node(usize),
}

impl Clone for Goal {
    fn clone(&self) -> Result<Goal, AllocError> {
        Ok(*self)
    }
}

fn is_goal(goal: Goal, edge: Edge) -> bool {
    match goal {
        Goal::Step(thread) => edge.actor == thread,
        Goal::Act(thread) => edge.actor == thread && !is_waiting(edge),
        Goal::Node(at) => edge.to as usize == at,
    }
}

/// The edges by which nodes of a component were come to, and the last of them, which is the goal.
#[derive(Drop)]
struct Search {
    by: Vec<u32>,
    layer: Vec<u32>,
    last: Option<u32>,
}

/// Looks at the edges of a node.
fn search_at(
    search: &mut Search,
    view: View<'_>,
    of: &[u32],
    from: usize,
    at: usize,
    goal: Goal,
) -> Result<(), AllocError> {
    let first = number_at(&view.outgoing.first, at);
    for place in first..number_at(&view.outgoing.end, at) {
        let Some(edge) = kept_at(view, place as usize) else {
            continue;
        };
        if !is_inner(of, edge) {
            continue;
        }
        if is_goal(goal, edge) {
            search.last = Some(place);
            return Ok(());
        }
        let to = edge.to as usize;
        if to != from && number_at(&search.by, to) == NONE {
            put(&mut search.by, to, place);
            search.layer.push(edge.to)?;
        }
    }
    Ok(())
}

/// The edges by which the goal was come to, the last one first.
fn traced(view: View<'_>, search: &Search, from: usize) -> Result<Vec<u32>, AllocError> {
    let mut way = Vec::new(view.alloc);
    let mut last = search.last;
    for _ in 0..view.count.saturating_add(1) {
        let Some(place) = last else {
            break;
        };
        way.push(place)?;
        let Some(edge) = view.edges.get(place as usize) else {
            break;
        };
        if edge.from as usize == from {
            break;
        }
        last = Some(number_at(&search.by, edge.from as usize));
    }
    Ok(way)
}

/// The edges of the shortest way in a component from a node to a goal.
fn way_to(view: View<'_>, of: &[u32], from: usize, goal: Goal) -> Result<Vec<u32>, AllocError> {
    let mut search = Search {
        by: Vec::new(view.alloc),
        layer: Vec::new(view.alloc),
        last: None,
    };
    fill(&mut search.by, view.count, NONE)?;
    search.layer.push(number_of(from)?)?;
    for done in 0..usize::MAX {
        let Some(at) = search.layer.get(done) else {
            break;
        };
        let at = *at as usize;
        search_at(&mut search, view, of, from, at, goal)?;
        if search.last.is_some() {
            break;
        }
    }
    let mut way = traced(view, &search, from)?;
    way.reverse();
    Ok(way)
}

/// The node to which the last of these edges leads.
fn end_of(view: View<'_>, places: &[u32], start: usize) -> usize {
    let Some(place) = places.last() else {
        return start;
    };
    match view.edges.get(*place as usize) {
        None => start,
        Some(edge) => edge.to as usize,
    }
}

/// Adds the edges of a shortest way.
fn go_on(
    view: View<'_>,
    of: &[u32],
    places: &mut Vec<u32>,
    start: usize,
    goal: Goal,
) -> Result<(), AllocError> {
    let at = end_of(view, places, start);
    let way = way_to(view, of, at, goal)?;
    for place in &way {
        places.push(*place)?;
    }
    Ok(())
}

/// The steps that threads have in a component: one of them, by their numbers.
#[derive(Drop)]
struct Threads {
    step: Vec<bool>,
    act: Vec<bool>,
}

/// No threads.
fn no_threads(view: View<'_>) -> Result<Threads, AllocError> {
    Ok(Threads {
        step: marks_of(view.alloc, 256, false)?,
        act: marks_of(view.alloc, 256, false)?,
    })
}

/// Which threads have a step in the component of an edge. A thread whose step that edge is has been there, unless an
/// acting step is wanted and it waits.
fn threads_in(view: View<'_>, of: &[u32], edge: Edge, acting: bool) -> Result<Threads, AllocError> {
    let part = number_at(of, edge.from as usize);
    let mut threads = no_threads(view)?;
    for place in 0..view.edges.len() {
        let Some(other) = kept_at(view, place) else {
            continue;
        };
        if is_inner(of, other) && number_at(of, other.from as usize) == part {
            let actor = other.actor as usize;
            set(&mut threads.step, actor, other.actor != edge.actor);
            if acting && !is_waiting(other) {
                set(
                    &mut threads.act,
                    actor,
                    other.actor != edge.actor || is_waiting(edge),
                );
            }
        }
    }
    Ok(threads)
}

/// A cycle in a component from where an edge leads off, with steps of all of these threads.
fn round_by(
    view: View<'_>,
    of: &[u32],
    place: usize,
    threads: &Threads,
) -> Result<Round, AllocError> {
    let mut places = Vec::new(view.alloc);
    let start = match view.edges.get(place) {
        None => 0,
        Some(edge) => edge.from as usize,
    };
    places.push(number_of(place)?)?;
    for thread in 1..256 {
        if is_on(&threads.act, thread) && thread <= 0xff {
            go_on(view, of, &mut places, start, Goal::Act(thread as u8))?;
        } else if is_on(&threads.step, thread) && thread <= 0xff {
            go_on(view, of, &mut places, start, Goal::Step(thread as u8))?;
        }
    }
    if end_of(view, &places, start) != start {
        go_on(view, of, &mut places, start, Goal::Node(start))?;
    }
    Ok(Round { at: start, places })
}

/// A cycle in a component, with these steps, one of them the thread's own while the call is pending.
pub(crate) fn round_in(
    view: View<'_>,
    of: &[u32],
    labels: &[Option<u32>],
    call: u32,
    steps: Steps,
) -> Result<Option<Round>, AllocError> {
    for place in 0..view.edges.len() {
        let Some(edge) = kept_at(view, place) else {
            continue;
        };
        let is_one = is_own(view.thread, edge)
            && is_inner(of, edge)
            && is_in_call(labels, edge.from as usize, call);
        if is_one {
            let threads = match steps {
                Steps::Own => no_threads(view)?,
                Steps::All => threads_in(view, of, edge, false)?,
                Steps::Acting => threads_in(view, of, edge, true)?,
            };
            let round = round_by(view, of, place, &threads)?;
            return Ok(Some(round));
        }
    }
    Ok(None)
}

/// Where a mark stands for a component and a thread.
fn key_of(part: u32, threads: usize, thread: u8) -> usize {
    (part as usize)
        .saturating_mul(threads)
        .saturating_add(thread as usize)
}

/// Marks for each component and thread whether a step of the thread stays in the component. If that is asked, only
/// steps count that act.
fn steps_in(
    view: View<'_>,
    of: &[u32],
    threads: usize,
    acting: bool,
) -> Result<Vec<bool>, AllocError> {
    let mut steps = marks_of(view.alloc, view.count.saturating_mul(threads), false)?;
    for place in 0..view.edges.len() {
        let Some(edge) = kept_at(view, place) else {
            continue;
        };
        if is_inner(of, edge) && !(acting && is_waiting(edge)) {
            let part = number_at(of, edge.from as usize);
            set(&mut steps, key_of(part, threads, edge.actor), true);
        }
    }
    Ok(steps)
}

/// Whether an edge leads from a node in whose component its thread has no step. If that is asked, a step that acts must
/// have one that acts, and one that waits needs none.
fn is_alone(of: &[u32], steps: &[bool], threads: usize, acting: bool, edge: Edge) -> bool {
    if acting && is_waiting(edge) {
        return false;
    }
    let part = number_at(of, edge.from as usize);
    !is_on(steps, key_of(part, threads, edge.actor))
}

/// Turns nodes off from which such an edge leads. Answers whether there was one.
fn prune(
    view: View<'_>,
    of: &[u32],
    threads: usize,
    acting: bool,
    on: &mut Vec<bool>,
) -> Result<bool, AllocError> {
    let steps = steps_in(view, of, threads, acting)?;
    let mut changed = false;
    for edge in view.edges {
        let at = edge.from as usize;
        if is_on(on, at) && is_alone(of, &steps, threads, acting, *edge) {
            set(on, at, false);
            changed = true;
        }
    }
    Ok(changed)
}

/// The components in which each thread has a step that isn't over there. If that is asked, each thread has one that
/// acts there that could act at a node of it.
pub(crate) fn fair_components(
    view: View<'_>,
    threads: usize,
    kept: Steps,
) -> Result<Components, AllocError> {
    let mut on = marks_of(view.alloc, view.count, true)?;
    for _ in 0..usize::MAX {
        let components = components_of(view, &on)?;
        let mut changed = prune(view, &components.of, threads, false, &mut on)?;
        if is_by_acting(kept) {
            changed = prune(view, &components.of, threads, true, &mut on)? || changed;
        }
        if !changed {
            return Ok(components);
        }
    }
    components_of(view, &on)
}

/// Whether steps that act are wanted.
fn is_by_acting(steps: Steps) -> bool {
    match steps {
        Steps::Own | Steps::All => false,
        Steps::Acting => true,
    }
}
