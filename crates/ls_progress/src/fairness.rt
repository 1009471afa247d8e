// Whether a call may not end though all threads go on.

ghost use Rattle.std.specs.Prelude.{◌≡◌, IfOk, IfSome, IsTrue, Some, slice_get, true};
ghost use Rattle.ls_progress.specs.Cycles.{AllGo, PassesNone};
ghost use Rattle.ls_progress.specs.Judged.{GoesByLocksIn, GoesFairlyIn, IsGoingIn, IsLabelled, edges_in, threads_in};
ghost use Rattle.ls_progress.specs.Kinds.{kind_of};

use crate::cycles::{Round, all_go};
use crate::judging::Going;
use crate::kinds::Kind;
use crate::labelled::{Labelled, turn_by, view_of};
use crate::lassos::Lasso;
use crate::passing::passes_none;
use crate::ranking::{Steps, fair_components, round_in};
use crate::states::threads_of;
use ls_graph::closing::Edge;
use ls_graph::marks::is_marked;
use std::alloc::AllocError;

/// Whether all threads go on in the cycle of a lasso. True only where they do.
fn is_fair(labelled: Labelled<'_>, at: usize, cycle: &[u8]) -> bool
    requires { IsLabelled labelled }
    ensures marked { IsTrue result → slice_get labelled.entry.closing.now.looked.items at ≡ Some true }
    ensures go { IsTrue result → AllGo (edges_in labelled.entry) at (threads_in labelled.entry.scope) cycle.now }
{
    let threads = threads_of(labelled.scope.program);
    if !is_marked(&labelled.closing.looked, at) {
        return false;
    }
    all_go(&labelled.closing.graph.edges, at, threads, cycle)
}

/// Whether no lock passes over a thread for ever. True only where none does.
fn is_fair_by_locks(labelled: Labelled<'_>, cycle: &[Edge]) -> bool
    ensures { IsTrue result →
        PassesNone (edges_in labelled.entry) labelled.entry.closing.now.looked.items cycle.now }
{
    let graph = &labelled.closing.graph;
    passes_none(&graph.edges, &labelled.closing.looked, cycle)
}

/// The lasso with a cycle, if it shows that a call may not end though all threads go on.
fn shown_fairly_by(
    labelled: Labelled<'_>,
    round: &Round,
    kind: Kind,
    call: u32,
) -> Result<Option<Lasso>, AllocError>
    requires { IsLabelled labelled }
    ensures { IfOk result (λ o. IfSome o (GoesFairlyIn labelled.entry (kind_of kind labelled.entry.thread) call)) }
{
    match turn_by(labelled, round, kind, call)? {
        None => Ok(None),
        Some(turned) => {
            if !is_fair(labelled, round.at, &turned.lasso.cycle) {
                return Ok(None);
            }
            Ok(Some(turned.lasso))
        }
    }
}

/// The same, if also no lock passes over a thread for ever.
pub(crate) fn shown_by_locks(
    labelled: Labelled<'_>,
    round: &Round,
    kind: Kind,
    call: u32,
) -> Result<Option<Lasso>, AllocError>
    requires { IsLabelled labelled }
    ensures { IfOk result (λ o. IfSome o (GoesByLocksIn labelled.entry (kind_of kind labelled.entry.thread) call)) }
{
    match turn_by(labelled, round, kind, call)? {
        None => Ok(None),
        Some(turned) => {
            if !is_fair(labelled, round.at, &turned.lasso.cycle) {
                return Ok(None);
            }
            if !is_fair_by_locks(labelled, &turned.cycle) {
                return Ok(None);
            }
            Ok(Some(turned.lasso))
        }
    }
}

/// The lasso in which all threads go on and a call doesn't end so, if one is found.
fn fairly(labelled: Labelled<'_>, kind: Kind, call: u32) -> Result<Option<Lasso>, AllocError>
    requires { IsLabelled labelled }
    ensures { IfOk result (λ o. IfSome o (GoesFairlyIn labelled.entry (kind_of kind labelled.entry.thread) call)) }
{
    let view = view_of(labelled, kind);
    let threads = labelled.scope.program.threads.len();
    let components = fair_components(view, threads, Steps::All)?;
    match round_in(view, &components.of, labelled.labels, call, Steps::All)? {
        None => Ok(None),
        Some(round) => shown_fairly_by(labelled, &round, kind, call),
    }
}

/// The same, if also no lock passes over a thread for ever.
fn by_locks(labelled: Labelled<'_>, kind: Kind, call: u32) -> Result<Option<Lasso>, AllocError>
    requires { IsLabelled labelled }
    ensures { IfOk result (λ o. IfSome o (GoesByLocksIn labelled.entry (kind_of kind labelled.entry.thread) call)) }
{
    let view = view_of(labelled, kind);
    let threads = labelled.scope.program.threads.len();
    let components = fair_components(view, threads, Steps::Acting)?;
    match round_in(view, &components.of, labelled.labels, call, Steps::Acting)? {
        None => Ok(None),
        Some(round) => shown_by_locks(labelled, &round, kind, call),
    }
}

/// Whether a call may not end so though all threads go on.
pub(crate) fn going_of(labelled: Labelled<'_>, kind: Kind, call: u32) -> Result<Going, AllocError>
    requires { IsLabelled labelled }
    ensures { IfOk result (IsGoingIn labelled.entry (kind_of kind labelled.entry.thread) call) }
{
    match by_locks(labelled, kind, call)? {
        Some(lasso) => Ok(Going::ByLocks(lasso)),
        None => match fairly(labelled, kind, call)? {
            None => Ok(Going::Nothing),
            Some(lasso) => Ok(Going::Fairly(lasso)),
        },
    }
}
