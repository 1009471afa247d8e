// In which order nodes are looked at: by what it costs to reach them, and then by steps. Nothing depends on it.

ghost use Rattle.std.specs.Prelude.{◌≡◌, [], map, slice_index_or};

use crate::closing::Edge;
use crate::costs::{Counted, cost, kept_last};
use std::alloc::{AllocError, Global};
use std::mem;

/// A node, what is kept of the actor of the step before, and how many steps led there.
#[derive(Copy)]
pub struct Pair {
    pub at: u32,
    pub last: u8,
    pub steps: usize,
}

impl Clone for Pair {
    fn clone(&self) -> Result<Pair, AllocError> {
        Ok(*self)
    }
}

/// The edges from a node: the place of the first, and of the first after the last.
#[derive(Copy)]
struct Range {
    first: usize,
    end: usize,
}

impl Clone for Range {
    fn clone(&self) -> Result<Range, AllocError> {
        Ok(*self)
    }
}

/// Nodes that cost the same to reach. Those that fewer steps led to come first.
#[derive(Drop)]
struct Line {
    by_steps: Vec<Vec<Pair>>,
    steps: usize,
    head: usize,
}

impl Line {
    /// None.
    fn new(alloc: Global) -> Line {
        Line {
            by_steps: Vec::new(alloc),
            steps: 0,
            head: 0,
        }
    }

    /// Adds a node.
    fn push(&mut self, alloc: Global, pair: Pair) -> Result<(), AllocError> {
        for _ in self.by_steps.len()..pair.steps.saturating_add(1) {
            self.by_steps.push(Vec::new(alloc))?;
        }
        if let Some(pairs) = self.by_steps.get_mut(pair.steps) {
            pairs.push(pair)?;
        }
        Ok(())
    }

    /// The next node.
    fn next(&mut self) -> Option<Pair> {
        for _ in self.steps..self.by_steps.len() {
            let pairs = self.by_steps.get(self.steps)?;
            if let Some(pair) = pairs.get(self.head) {
                self.head = self.head.saturating_add(1);
                return Some(*pair);
            }
            self.steps = self.steps.saturating_add(1);
            self.head = 0;
        }
        None
    }
}

/// What it costs to reach nodes, and which are to be looked at next. Actor 0 comes before the first step.
#[derive(Drop)]
pub struct Front {
    /// By the last actor, and by the node. It is `UNKNOWN` where none is known.
    pub costs: Vec<Vec<u32>>,
    /// By the last actor, and by the node: the place of the last edge, and what is kept of the actor before.
    pub by: Vec<Vec<u32>>,
    pub before: Vec<Vec<u32>>,
    ranges: Vec<Range>,
    alloc: Global,
    now: Line,
    later: Line,
    pub cost: usize,
}

/// What it costs to reach a node where nothing is known of it, and the place of no edge.
pub const UNKNOWN: u32 = 0xffff_ffff;

/// The number at a place.
pub(crate) fn number_at(numbers: &[u32], at: usize) -> usize
    ensures { result ≡ slice_index_or numbers.now at 4294967295 }
{
    match numbers.get(at) {
        None => UNKNOWN as usize,
        Some(number) => *number as usize,
    }
}

/// The number of an actor and a node.
pub(crate) fn known_at(numbers: &[Vec<u32>], last: u8, at: u32) -> usize
    ensures { result ≡ slice_index_or (slice_index_or (map (λ v. v.items) numbers.now) last []) at 4294967295 }
{
    match numbers.get(last as usize) {
        None => UNKNOWN as usize,
        Some(of_actor) => number_at(of_actor, at as usize),
    }
}

/// A number of 32 bits, or the greatest.
fn short(number: usize) -> u32 {
    if number > 0xffff_ffff {
        return UNKNOWN;
    }
    number as u32
}

/// Puts a number at an actor and a node.
fn put(numbers: &mut Vec<Vec<u32>>, last: u8, at: u32, number: usize) -> Result<(), AllocError> {
    let Some(of_actor) = numbers.get_mut(last as usize) else {
        return Ok(());
    };
    let place = at as usize;
    for _ in of_actor.len()..place.saturating_add(1) {
        of_actor.push(UNKNOWN)?;
    }
    if place < of_actor.len() {
        of_actor[place] = short(number);
    }
    Ok(())
}

/// As many lists as so many actors, without numbers.
fn lists(alloc: Global, actors: u8) -> Result<Vec<Vec<u32>>, AllocError> {
    let mut lists = Vec::new(alloc);
    for _ in 0..actors {
        lists.push(Vec::new(alloc))?;
    }
    Ok(lists)
}

impl Front {
    /// The first node alone, which costs nothing.
    pub(crate) fn new(alloc: Global, actors: u8) -> Result<Front, AllocError> {
        let mut costs = lists(alloc, actors)?;
        put(&mut costs, 0, 0, 0)?;
        let mut now = Line::new(alloc);
        now.push(
            alloc,
            Pair {
                at: 0,
                last: 0,
                steps: 0,
            },
        )?;
        Ok(Front {
            costs,
            by: lists(alloc, actors)?,
            before: lists(alloc, actors)?,
            ranges: Vec::new(alloc),
            alloc,
            now,
            later: Line::new(alloc),
            cost: 0,
        })
    }

    /// The next node, with what is kept of the actor of the step before.
    pub(crate) fn next(&mut self) -> Option<Pair> {
        if let Some(pair) = self.now.next() {
            return Some(pair);
        }
        self.now = mem::replace(&mut self.later, Line::new(self.alloc));
        self.cost = self.cost.saturating_add(1);
        self.now.next()
    }

    /// Notes which edges lead from a node.
    pub(crate) fn note(&mut self, at: usize, first: usize, end: usize) -> Result<(), AllocError> {
        for _ in self.ranges.len()..at.saturating_add(1) {
            self.ranges.push(Range { first: 0, end: 0 })?;
        }
        if at < self.ranges.len() {
            self.ranges[at] = Range { first, end };
        }
        Ok(())
    }

    /// Goes along an edge.
    fn along(
        &mut self,
        counted: Counted,
        place: usize,
        edge: Edge,
        before: Pair,
    ) -> Result<(), AllocError> {
        let step = cost(counted, before.last, edge.actor);
        let spent = self.cost.saturating_add(step);
        let kept = kept_last(counted, edge.actor);
        if known_at(&self.costs, kept, edge.to) <= spent {
            return Ok(());
        }
        put(&mut self.costs, kept, edge.to, spent)?;
        put(&mut self.by, kept, edge.to, place)?;
        put(&mut self.before, kept, edge.to, before.last as usize)?;
        let pair = Pair {
            at: edge.to,
            last: kept,
            steps: before.steps.saturating_add(1),
        };
        if step == 0 {
            self.now.push(self.alloc, pair)
        } else {
            self.later.push(self.alloc, pair)
        }
    }

    /// Goes along the edges from a node.
    pub(crate) fn follow(
        &mut self,
        counted: Counted,
        edges: &[Edge],
        pair: Pair,
    ) -> Result<(), AllocError> {
        if known_at(&self.costs, pair.last, pair.at) < self.cost {
            return Ok(());
        }
        let Some(range) = self.ranges.get(pair.at as usize) else {
            return Ok(());
        };
        for place in range.first..range.end {
            if let Some(edge) = edges.get(place) {
                self.along(counted, place, *edge, pair)?;
            }
        }
        Ok(())
    }
}
