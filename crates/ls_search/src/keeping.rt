// States that were found, by what they are.

ghost use Rattle.std.specs.Prelude.{◌≡◌, ◌<◌, ◌≤◌, ◌⊎◌, ◌++◌, ◌∷◌, [], IfOk, IsTrue, OnOk, false, length};
ghost use Rattle.ls_transitions.specs.Seen.{table_of};
ghost use Rattle.ls_search.specs.Found.{HasPlace, Pushed};
ghost use Rattle.ls_search.specs.Listed.{AreAllThere, AreFull};
ghost use Rattle.ls_search.specs.Places.{IsThere};

use crate::objects::{MOST_OBJECTS, have_many, weigh};
use crate::places::{Node, NumberedState};
use ls_observers::hashing::hashed;
use ls_transitions::hash_index::HashIndex;
use ls_transitions::transitions::Transitions;
use std::alloc::{AllocError, Global};

/// The states that were found.
#[derive(Drop)]
pub struct Nodes {
    pub nodes: Vec<Node>,
    /// How many objects are counted for them, or fewer where that is no number of 64 bits. Nothing that is told
    /// depends on it: where it is too much, all objects are counted.
    weight: usize,
    /// By the number of a store: whether its objects are counted.
    counted: Vec<bool>,
    hints: HashIndex,
}

const START: u64 = 0xcbf2_9ce4_8422_2325;

/// A number made of a state, by which it is found. Nothing depends on it.
pub(crate) fn hash_of(place: &NumberedState) -> u64 {
    let mut hash = hashed(hashed(START, place.store as u64), place.noted as u64);
    for work in &place.works {
        hash = hashed(hash, *work as u64);
    }
    hash
}

/// Whether works are the same, one by one.
fn are_same_works(works: &[usize], others: &[usize]) -> bool
    ensures { IsTrue result → works.now ≡ others.now }
{
    works == others
}

/// Whether a state is the other.
pub(crate) fn is_same_place(place: &NumberedState, other: &NumberedState) -> bool
    ensures store { IsTrue result → place.now.store ≡ other.now.store }
    ensures works { IsTrue result → place.now.works.items ≡ other.now.works.items }
    ensures noted { IsTrue result → place.now.noted ≡ other.now.noted }
{
    place.store == other.store
        && place.noted == other.noted
        && are_same_works(&place.works, &other.works)
}

/// Whether the state at a place is this one. True only where it is.
fn is_at(nodes: &[Node], at: usize, place: &NumberedState) -> bool
    ensures { IsTrue result → HasPlace nodes.now place.now }
{
    match nodes.get(at) {
        None => false,
        Some(node) => is_same_place(&node.place, place),
    }
}

impl Nodes {
    /// This state alone.
    pub fn first(
        alloc: Global,
        transitions: &Transitions<'_>,
        node: Node,
    ) -> Result<Nodes, AllocError>
        requires { IsThere (table_of transitions.now) node.place }
        ensures { IfOk result (λ n. n.nodes.items ≡ node ∷ []) }
    {
        let hash = hash_of(&node.place);
        let mut counted = Vec::new(alloc);
        let weight = weigh(transitions, &mut counted, &node.place)?;
        let mut nodes = Vec::new(alloc);
        nodes.push(node)?;
        let mut hints = HashIndex::new(alloc);
        hints.add(alloc, hash)?;
        Ok(Nodes {
            nodes,
            weight,
            counted,
            hints,
        })
    }

    /// Whether a state is there. True only where it is.
    fn has(&self, hash: u64, place: &NumberedState) -> bool
        ensures { IsTrue result → HasPlace self.now.nodes.items place.now }
    {
        let mut hint = self.hints.last(hash);
        for _ in 0..self.nodes.len() {
            let Some(at) = hint else {
                return false;
            };
            if is_at(&self.nodes, at, place) {
                return true;
            }
            hint = self.hints.before(at);
        }
        false
    }

    /// Whether there are as many states as there may be, or their stores have too many objects. True only where it is
    /// so.
    fn is_full(&self, transitions: &Transitions<'_>, limit: usize) -> bool
        requires { AreAllThere (table_of transitions.now) self.now.nodes.items }
        ensures full { IsTrue result → AreFull (table_of transitions.now) limit self.now.nodes.items }
        ensures room { result ≡ false → length self.now.nodes.items < limit }
    {
        if self.nodes.len() >= limit {
            return true;
        }
        if self.weight <= MOST_OBJECTS {
            return false;
        }
        have_many(transitions, &self.nodes)
    }

    /// Keeps a state if it is new. Answers false where there are as many as there may be, or where their stores have
    /// over 4,194,304 objects together.
    pub fn keep(
        &mut self,
        alloc: Global,
        transitions: &Transitions<'_>,
        limit: usize,
        node: Node,
    ) -> Result<bool, AllocError>
        requires known { AreAllThere (table_of transitions.now) self.old.nodes.items }
        requires new { IsThere (table_of transitions.now) node.place }
        ensures there { IfOk result (λ kept. IsTrue kept → HasPlace self.new.nodes.items node.place) }
        ensures pushed { OnOk result (Pushed self.old.nodes.items self.new.nodes.items node) }
        ensures full { IfOk result (λ kept. kept ≡ false →
            AreFull (table_of transitions.now) limit self.new.nodes.items) }
        ensures same { IfOk result (λ kept. kept ≡ false → self.new.nodes.items ≡ self.old.nodes.items) }
        ensures few { OnOk result (length self.old.nodes.items ≤ limit → length self.new.nodes.items ≤ limit) }
    {
        let hash = hash_of(&node.place);
        if self.has(hash, &node.place) {
            return Ok(true);
        }
        if self.is_full(transitions, limit) {
            return Ok(false);
        }
        let weight = weigh(transitions, &mut self.counted, &node.place)?;
        self.weight = self.weight.saturating_add(weight);
        self.hints.add(alloc, hash)?;
        self.nodes.push(node)?;
        Ok(true)
    }
}
