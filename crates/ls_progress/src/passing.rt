// Whether a lock may pass over a thread for ever while steps go round.

ghost use Rattle.std.specs.Prelude.{◌≡◌, ℕ, IsTrue, Some, false, slice_get, true};
ghost use Rattle.ls_graph.specs.declared.closing.Edge.{Edge};
ghost use Rattle.ls_progress.specs.Cycles.{Acts, HasActing, PassesNone};

use crate::ranks::is_waiting;
use ls_graph::closing::Edge;
use ls_graph::marks::is_marked;

/// Whether an edge's step doesn't wait.
fn is_acting(edge: Edge) -> bool
    ensures on { IsTrue result → Acts edge }
    ensures off { result ≡ false → Acts edge → ⊥ }
{
    !is_waiting(edge)
}

/// Whether an edge is a thread's, and its step doesn't wait.
fn is_acting_of(edge: Edge, thread: u8) -> bool
    ensures thread { IsTrue result → edge.actor ≡ thread }
    ensures acts { IsTrue result → Acts edge }
{
    edge.actor == thread && is_acting(edge)
}

/// Whether a thread acts in the path. True only where it does.
fn has_acting(path: &[Edge], thread: u8) -> bool
    ensures { IsTrue result → HasActing path.now thread }
{
    for edge in path {
        if is_acting_of(*edge, thread) {
            return true;
        }
    }
    false
}

/// Whether an edge leads from another node than a step of the path. True only where it does.
fn is_beside(path: &[Edge], edge: Edge) -> bool
    ensures { IsTrue result → (i : ℕ) (e : Edge) → slice_get path.now i ≡ Some e → edge.from ≡ e.from → ⊥ }
{
    for step in path {
        if step.from == edge.from {
            return false;
        }
    }
    true
}

/// Whether an edge is passed over: its step doesn't wait, it leads from where the path goes by, and its thread doesn't
/// act in the path. False only where it isn't so.
fn is_passed(path: &[Edge], edge: Edge) -> bool
    ensures { result ≡ false → (i : ℕ) (e : Edge) → slice_get path.now i ≡ Some e → edge.from ≡ e.from →
        Acts edge → HasActing path.now edge.actor }
{
    if is_acting(edge) && !has_acting(path, edge.actor) {
        return !is_beside(path, edge);
    }
    false
}

/// Whether all nodes where the path goes by were looked at. True only where they were.
fn are_known(looked: &[bool], path: &[Edge]) -> bool
    ensures { IsTrue result → (i : ℕ) (e : Edge) → slice_get path.now i ≡ Some e →
        slice_get looked.now e.from ≡ Some true }
{
    for edge in path {
        if !is_marked(looked, edge.from as usize) {
            return false;
        }
    }
    true
}

/// Whether each thread that could act where the path goes by acts in it. True only where it does.
pub(crate) fn passes_none(edges: &[Edge], looked: &[bool], path: &[Edge]) -> bool
    ensures { IsTrue result → PassesNone edges.now looked.now path.now }
{
    if !are_known(looked, path) {
        return false;
    }
    for edge in edges {
        if is_passed(path, *edge) {
            return false;
        }
    }
    true
}
