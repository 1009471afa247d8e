// Which call of a thread is pending at each state.

ghost use Rattle.std.specs.Prelude.{◌≡◌, IsTrue, None, false, slice_index_or};
ghost use Rattle.ls_progress.specs.Labels.{AreLabels, label_after};
ghost use Rattle.ls_progress.specs.Sorts.{call_after};

use crate::kinds::is_own;
use crate::sorts::{Sort, sort_at};
use ls_graph::closing::Edge;
use std::alloc::{AllocError, Global};

/// The call that is pending at a state, if one is.
pub(crate) fn label_at(labels: &[Option<u32>], at: usize) -> Option<u32>
    ensures { result ≡ slice_index_or labels.now at None }
{
    match labels.get(at) {
        None => None,
        Some(label) => *label,
    }
}

/// The call that is pending after a step of its thread.
fn call_after(sort: Sort, now: Option<u32>) -> Option<u32>
    ensures { result ≡ call_after sort now }
{
    match sort {
        Sort::Waits => now,
        Sort::Inside => now,
        Sort::Ends => None,
        Sort::Begins(call) => Some(call),
    }
}

/// The call of a thread that is pending after the step of an edge.
fn label_after(thread: u8, edge: Edge, now: Option<u32>) -> Option<u32>
    ensures { result ≡ label_after thread edge now }
{
    if is_own(thread, edge) {
        return call_after(sort_at(edge.mark), now);
    }
    now
}

/// Whether two calls are the same, or both are none.
pub(crate) fn is_same_call(one: Option<u32>, other: Option<u32>) -> bool
    ensures on { IsTrue result → one ≡ other }
    ensures off { result ≡ false → one ≡ other → ⊥ }
{
    match one {
        None => match other {
            None => true,
            Some(_) => false,
        },
        Some(call) => match other {
            None => false,
            Some(called) => call == called,
        },
    }
}

/// Which call of a thread is pending at each of so many states, as the edges tell by which states were found.
pub(crate) fn labels_of(
    alloc: Global,
    edges: &[Edge],
    count: usize,
    thread: u8,
) -> Result<Vec<Option<u32>>, AllocError> {
    let mut labels = Vec::new(alloc);
    labels.push(None)?;
    for edge in edges {
        if edge.to as usize == labels.len() {
            let before = label_at(&labels, edge.from as usize);
            labels.push(label_after(thread, *edge, before))?;
        }
    }
    for _ in labels.len()..count {
        labels.push(None)?;
    }
    Ok(labels)
}

/// Whether an edge leads to a state with the call that is pending after it.
fn is_labelled(edge: Edge, labels: &[Option<u32>], thread: u8) -> bool
    ensures { IsTrue result → slice_index_or labels.now edge.to None ≡
        label_after thread edge (slice_index_or labels.now edge.from None) }
{
    let before = label_at(labels, edge.from as usize);
    let after = label_at(labels, edge.to as usize);
    is_same_call(after, label_after(thread, edge, before))
}

/// Whether these are the calls that are pending. True only where they are.
pub(crate) fn are_labels(edges: &[Edge], labels: &[Option<u32>], thread: u8) -> bool
    ensures { IsTrue result → AreLabels thread edges.now labels.now }
{
    if !is_same_call(label_at(labels, 0), None) {
        return false;
    }
    for edge in edges {
        if !is_labelled(*edge, labels, thread) {
            return false;
        }
    }
    true
}
