// What is told of a call and one way to end, by the graph of a program's states.

ghost use Rattle.std.specs.Prelude.{IfOk, IfSome};
ghost use Rattle.ls_progress.specs.Cycles.{IsLed};
ghost use Rattle.ls_progress.specs.Ends.{IsShort};
ghost use Rattle.ls_progress.specs.Judged.{BoundsIn, GoesIn, IsLabelled, IsTold, edges_in};
ghost use Rattle.ls_progress.specs.Kinds.{kind_of};

use crate::arrays::marks_of;
use crate::components::{Components, Outgoing, View, components_of};
use crate::cycles::{Round, cycle_along};
use crate::kinds::Kind;
use crate::lassos::{Lasso, lasso_of};
use crate::ranking::{Steps, ranks_of, round_in};
use crate::ranks::{Wanted, bound_by};
use crate::states::Scope;
use ls_graph::closing::{Closing, Edge, is_whole};
use ls_search::space::Kept;
use std::alloc::AllocError;

/// What is told of a call and one way to end.
#[derive(Drop)]
pub(crate) enum Told {
    /// It ends so, after so many steps of its own.
    Bounded(u32),
    /// It may not.
    Endless(Lasso),
    Unknown,
}

/// The graph of a program's states, and which call of a thread is pending at each.
#[derive(Copy)]
pub(crate) struct Labelled<'a> {
    pub(crate) scope: Scope<'a>,
    pub(crate) closing: &'a Closing<Kept>,
    pub(crate) outgoing: &'a Outgoing,
    pub(crate) labels: &'a [Option<u32>],
    pub(crate) thread: u8,
}

impl<'a> Clone for Labelled<'a> {
    fn clone(&self) -> Result<Labelled<'a>, AllocError> {
        Ok(*self)
    }
}

/// The edges of a graph that are kept for a thread's calls.
pub(crate) fn view_of<'a>(labelled: Labelled<'a>, kind: Kind) -> View<'a> {
    View {
        alloc: labelled.scope.alloc,
        edges: &labelled.closing.graph.edges,
        outgoing: labelled.outgoing,
        count: labelled.closing.graph.found.nodes.len(),
        kind,
        thread: labelled.thread,
    }
}

/// The components of all states, by the edges that are kept.
fn all_components(view: View<'_>) -> Result<Components, AllocError> {
    let on = marks_of(view.alloc, view.count, true)?;
    components_of(view, &on)
}

/// The bound on a call's steps, if these are ranks and all states were looked at.
fn bound_of(labelled: Labelled<'_>, ranks: &[u32], kind: Kind, call: u32) -> Option<u32>
    requires { IsLabelled labelled }
    ensures { IfSome result (BoundsIn labelled.entry (kind_of kind labelled.entry.thread) call) }
{
    if !is_whole(labelled.closing) {
        return None;
    }
    let wanted = Wanted {
        kind,
        thread: labelled.thread,
        call,
    };
    bound_by(
        &labelled.closing.graph.edges,
        labelled.labels,
        ranks,
        wanted,
    )
}

/// A lasso, and the edges of its cycle.
#[derive(Drop)]
pub(crate) struct Turned {
    pub(crate) cycle: Vec<Edge>,
    pub(crate) lasso: Lasso,
}

/// The lasso with a cycle, if it shows that a call may not end.
pub(crate) fn turn_by(
    labelled: Labelled<'_>,
    round: &Round,
    kind: Kind,
    call: u32,
) -> Result<Option<Turned>, AllocError>
    requires { IsLabelled labelled }
    ensures led { IfOk result (λ o. IfSome o (λ t. IsLed (kind_of kind labelled.entry.thread) (edges_in labelled.entry)
        labelled.entry.labels.now call round.now.at t.cycle.items t.lasso)) }
    ensures short { IfOk result (λ o. IfSome o (λ t. IsShort t.lasso)) }
{
    let wanted = Wanted {
        kind,
        thread: labelled.thread,
        call,
    };
    let alloc = labelled.scope.alloc;
    let graph = &labelled.closing.graph;
    let Some(cycle) = cycle_along(alloc, &graph.edges, round.at, &round.places, wanted)? else {
        return Ok(None);
    };
    match lasso_of(alloc, graph, labelled.labels, wanted, round.at, &cycle)? {
        None => Ok(None),
        Some(lasso) => Ok(Some(Turned { cycle, lasso })),
    }
}

/// The same lasso alone.
fn shown_by(
    labelled: Labelled<'_>,
    round: &Round,
    kind: Kind,
    call: u32,
) -> Result<Option<Lasso>, AllocError>
    requires { IsLabelled labelled }
    ensures { IfOk result (λ o. IfSome o (GoesIn labelled.entry (kind_of kind labelled.entry.thread) call)) }
{
    match turn_by(labelled, round, kind, call)? {
        None => Ok(None),
        Some(turned) => Ok(Some(turned.lasso)),
    }
}

/// The lasso in a component, if there is one in which a call doesn't end.
fn lasso_in(
    labelled: Labelled<'_>,
    components: &Components,
    kind: Kind,
    call: u32,
) -> Result<Told, AllocError>
    requires { IsLabelled labelled }
    ensures { IfOk result (IsTold labelled.entry (kind_of kind labelled.entry.thread) call) }
{
    let view = view_of(labelled, kind);
    let Some(round) = round_in(view, &components.of, labelled.labels, call, Steps::Own)? else {
        return Ok(Told::Unknown);
    };
    match shown_by(labelled, &round, kind, call)? {
        None => Ok(Told::Unknown),
        Some(lasso) => Ok(Told::Endless(lasso)),
    }
}

/// What is told of a call and one way to end.
pub(crate) fn told_of(labelled: Labelled<'_>, kind: Kind, call: u32) -> Result<Told, AllocError>
    requires { IsLabelled labelled }
    ensures { IfOk result (IsTold labelled.entry (kind_of kind labelled.entry.thread) call) }
{
    let view = view_of(labelled, kind);
    let components = all_components(view)?;
    let ranks = ranks_of(view, &components)?;
    match bound_of(labelled, &ranks, kind, call) {
        None => lasso_in(labelled, &components, kind, call),
        Some(most) => Ok(Told::Bounded(most)),
    }
}
