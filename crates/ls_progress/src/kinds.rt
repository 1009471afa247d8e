// Of which steps a call is to end.

ghost use Rattle.std.specs.Prelude.{◌≡◌};
ghost use Rattle.ls_progress.specs.Kinds.{is_kept, is_own, kind_of};

use crate::sorts::{is_silent, sort_at};
use ls_graph::closing::Edge;
use std::alloc::AllocError;

/// How a call may end: whatever all threads do; unless another ends; or where its thread is alone.
#[derive(Copy)]
pub enum Kind {
    WaitFree,
    LockFree,
    ObstructionFree,
}

impl Clone for Kind {
    fn clone(&self) -> Result<Kind, AllocError> {
        Ok(*self)
    }
}

/// Whether a thread may step where calls of a thread are to end so.
fn may(kind: Kind, thread: u8, actor: u8) -> bool
    ensures { result ≡ (kind_of kind thread).may actor }
{
    match kind {
        Kind::WaitFree => true,
        Kind::LockFree => true,
        Kind::ObstructionFree => actor == thread,
    }
}

/// Whether no call of a thread may begin or end meanwhile.
fn is_quiet(kind: Kind, thread: u8, actor: u8) -> bool
    ensures { result ≡ (kind_of kind thread).quiet actor }
{
    match kind {
        Kind::WaitFree => actor == thread,
        Kind::LockFree => true,
        Kind::ObstructionFree => actor == thread,
    }
}

/// Whether the step of an edge is one of those after which the call hasn't ended so.
pub(crate) fn is_kept(kind: Kind, thread: u8, edge: Edge) -> bool
    ensures { result ≡ is_kept (kind_of kind thread) edge }
{
    if !may(kind, thread, edge.actor) {
        return false;
    }
    is_silent(sort_at(edge.mark)) || !is_quiet(kind, thread, edge.actor)
}

/// Whether the step of an edge is the thread's own.
pub(crate) fn is_own(thread: u8, edge: Edge) -> bool
    ensures { result ≡ is_own thread edge }
{
    edge.actor == thread
}
