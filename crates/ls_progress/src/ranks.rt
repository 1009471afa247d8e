// Ranks of states that sink with each step of a call.

ghost use Rattle.std.specs.Prelude.{◌≡◌, IfSome, IsTrue, Some, false, true};
ghost use Rattle.ls_progress.specs.Kinds.{is_kept, kind_of};
ghost use Rattle.ls_progress.specs.Labels.{label_at};
ghost use Rattle.ls_progress.specs.Ranks.{AreRanks, IsHighest, Sinks, rank_at};
ghost use Rattle.ls_progress.specs.Sorts.{sort_at};
ghost use Rattle.ls_progress.specs.declared.sorts.Sort.TheVariants.{Waits};

use crate::kinds::{Kind, is_kept, is_own};
use crate::labels::{is_same_call, label_at};
use crate::sorts::{Sort, sort_at};
use ls_graph::closing::Edge;
use std::alloc::AllocError;

/// A call of a thread, and how it may end.
#[derive(Copy)]
pub(crate) struct Wanted {
    pub(crate) kind: Kind,
    pub(crate) thread: u8,
    pub(crate) call: u32,
}

impl Clone for Wanted {
    fn clone(&self) -> Result<Wanted, AllocError> {
        Ok(*self)
    }
}

/// The rank of a state; 0 where it has none.
fn rank_at(ranks: &[u32], at: usize) -> u32
    ensures { result ≡ rank_at ranks.now at }
{
    match ranks.get(at) {
        None => 0,
        Some(rank) => *rank,
    }
}

/// Whether an edge's step waits.
pub(crate) fn is_waiting(edge: Edge) -> bool
    ensures on { IsTrue result → sort_at edge.mark ≡ Waits }
    ensures off { result ≡ false → sort_at edge.mark ≡ Waits → ⊥ }
{
    match sort_at(edge.mark) {
        Sort::Waits => true,
        Sort::Inside | Sort::Ends | Sort::Begins(_) => false,
    }
}

/// Whether the rank sinks with an edge if it is the thread's own and doesn't wait, and rises with none.
fn sinks(edge: Edge, ranks: &[u32], thread: u8) -> bool
    ensures { IsTrue result → Sinks thread ranks.now edge }
{
    let from = rank_at(ranks, edge.from as usize);
    let to = rank_at(ranks, edge.to as usize);
    if is_own(thread, edge) {
        return !is_waiting(edge) && to < from;
    }
    to <= from
}

/// Whether the call is pending at a state.
pub(crate) fn is_in_call(labels: &[Option<u32>], at: usize, call: u32) -> bool
    ensures on { IsTrue result → label_at labels.now at ≡ Some call }
    ensures off { result ≡ false → label_at labels.now at ≡ Some call → ⊥ }
{
    is_same_call(label_at(labels, at), Some(call))
}

/// Whether the rank sinks as it must with an edge, if that goes from where the call is pending.
fn is_ranked(edge: Edge, labels: &[Option<u32>], ranks: &[u32], wanted: Wanted) -> bool
    ensures { IsTrue result → label_at labels.now edge.from ≡ Some wanted.call →
        is_kept (kind_of wanted.kind wanted.thread) edge ≡ true → Sinks wanted.thread ranks.now edge }
{
    if !is_in_call(labels, edge.from as usize, wanted.call) {
        return true;
    }
    if !is_kept(wanted.kind, wanted.thread, edge) {
        return true;
    }
    sinks(edge, ranks, wanted.thread)
}

/// Whether these are ranks that sink with each step of a call. True only where they are.
fn are_ranks(edges: &[Edge], labels: &[Option<u32>], ranks: &[u32], wanted: Wanted) -> bool
    ensures { IsTrue result →
        AreRanks (kind_of wanted.kind wanted.thread) edges.now labels.now wanted.call ranks.now }
{
    for edge in edges {
        if !is_ranked(*edge, labels, ranks, wanted) {
            return false;
        }
    }
    true
}

/// The highest rank where a call is pending.
fn highest(labels: &[Option<u32>], ranks: &[u32], call: u32) -> u32
    ensures { IsHighest labels.now call ranks.now result }
{
    let mut most = 0;
    for at in 0..labels.len() {
        if is_in_call(labels, at, call) {
            most = most.max(rank_at(ranks, at));
        }
    }
    most
}

/// The most steps that a call takes, if these are ranks that sink with each of them.
pub(crate) fn bound_by(
    edges: &[Edge],
    labels: &[Option<u32>],
    ranks: &[u32],
    wanted: Wanted,
) -> Option<u32>
    ensures ranks { IfSome result (λ most.
        AreRanks (kind_of wanted.kind wanted.thread) edges.now labels.now wanted.call ranks.now) }
    ensures most { IfSome result (IsHighest labels.now wanted.call ranks.now) }
{
    if !are_ranks(edges, labels, ranks, wanted) {
        return None;
    }
    Some(highest(labels, ranks, wanted.call))
}
