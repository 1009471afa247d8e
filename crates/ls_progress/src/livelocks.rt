// Livelocks of a program.

ghost use Rattle.std.specs.Prelude.{◌≡◌, IfOk, IfSome, false};
ghost use Rattle.ls_progress.specs.Judged.{IsLabelled, IsWholeGraph};
ghost use Rattle.ls_progress.specs.Livelocks.{IsLivelockIn, IsLivelockOf};

use crate::components::{View, is_inner, kept_at, outgoing_of};
use crate::fairness::shown_by_locks;
use crate::judging::{Whole, labels_in};
use crate::kinds::{Kind, is_own};
use crate::labelled::{Labelled, view_of};
use crate::labels::label_at;
use crate::lassos::Lasso;
use crate::ranking::{Steps, fair_components, round_in};
use crate::states::{Scope, states_of, threads_of};
use std::alloc::AllocError;

/// The call of a thread that goes on in one of these components, if there is one.
fn call_in(labelled: Labelled<'_>, of: &[u32]) -> Option<u32> {
    let view = view_of(labelled, Kind::LockFree);
    for place in 0..view.edges.len() {
        let Some(edge) = kept_at(view, place) else {
            continue;
        };
        if is_own(view.thread, edge) && is_inner(of, edge) {
            let call = label_at(labelled.labels, edge.from as usize);
            if call.is_some() {
                return call;
            }
        }
    }
    None
}

/// The livelock in one of these components in which a call of the thread goes on, if one is found.
fn livelock_by(labelled: Labelled<'_>, of: &[u32]) -> Result<Option<Lasso>, AllocError>
    requires { IsLabelled labelled }
    ensures { IfOk result (λ o. IfSome o (IsLivelockIn labelled.entry.scope)) }
{
    let Some(call) = call_in(labelled, of) else {
        return Ok(None);
    };
    let view = view_of(labelled, Kind::LockFree);
    match round_in(view, of, labelled.labels, call, Steps::Acting)? {
        None => Ok(None),
        Some(round) => shown_by_locks(labelled, &round, Kind::LockFree, call),
    }
}

/// The same of a thread of a graph.
fn livelock_with(whole: Whole<'_>, of: &[u32], thread: u8) -> Result<Option<Lasso>, AllocError>
    requires { IsWholeGraph whole }
    ensures { IfOk result (λ o. IfSome o (IsLivelockIn whole.entry.scope)) }
{
    let labels = labels_in(whole, thread)?;
    let labelled = Labelled {
        scope: whole.scope,
        closing: whole.closing,
        outgoing: whole.outgoing,
        labels: &labels,
        thread,
    };
    livelock_by(labelled, of)
}

/// The edges of a graph with which no call begins or ends.
fn silent_view<'a>(whole: Whole<'a>) -> View<'a> {
    View {
        alloc: whole.scope.alloc,
        edges: &whole.closing.graph.edges,
        outgoing: whole.outgoing,
        count: whole.closing.graph.found.nodes.len(),
        kind: Kind::LockFree,
        thread: 1,
    }
}

/// The livelock of a graph, if one is found.
fn livelock_in(whole: Whole<'_>) -> Result<Option<Lasso>, AllocError>
    requires { IsWholeGraph whole }
    ensures { IfOk result (λ o. IfSome o (IsLivelockIn whole.entry.scope)) }
{
    let threads = whole.scope.program.threads.len();
    let components = fair_components(silent_view(whole), threads, Steps::Acting)?;
    for thread in 1..threads_of(whole.scope.program) {
        match livelock_with(whole, &components.of, thread)? {
            None => {}
            Some(lasso) => return Ok(Some(lasso)),
        }
    }
    Ok(None)
}

/// A livelock of a program: a way and a cycle in which each thread goes on, no lock passes over one for ever, and no
/// call ends, though one is pending. None if none is found among so many states. The refusals are those of `ends_of`.
pub fn find_livelock(scope: Scope<'_>) -> Result<Option<Lasso>, AllocError>
    ensures { IfOk result (λ o. IfSome o (λ l. scope.entry.again ≡ false → IsLivelockOf scope.entry l)) }
{
    let closing = states_of(scope)?;
    let states = closing.graph.found.nodes.len();
    let outgoing = outgoing_of(scope.alloc, &closing.graph.edges, states)?;
    let whole = Whole {
        scope,
        closing: &closing,
        outgoing: &outgoing,
    };
    livelock_in(whole)
}
