// Whether the calls of a program end.

ghost use Rattle.std.specs.Prelude.{◌≡◌, ◌+◌, ◌++◌, ◌≤◌, IfOk, OnOk, false, length, map};
ghost use Rattle.ls_checked.specs.PlainProgram.{plain_thread};
ghost use Rattle.ls_progress_laws.specs.Progress.{lock_free, wait_free};
ghost use Rattle.ls_progress.specs.Ends.{AreEndsOf, calls_from, calls_of, calls_to, keys};
ghost use Rattle.ls_progress.specs.Judged.{AreEndsIn, GoesIn, IsCallEndsIn, IsFairIn, IsFreeIn, IsLabelled};
ghost use Rattle.ls_progress.specs.Judged.{IsWholeGraph, file_in, program_in};
ghost use Rattle.ls_progress.specs.Labels.{AreLabels};
ghost use Rattle.ls_progress.specs.declared.judging.Going.TheVariants.{Nothing};

use crate::components::{Outgoing, outgoing_of};
use crate::fairness::going_of;
use crate::kinds::Kind;
use crate::labelled::{Labelled, Told, told_of};
use crate::labels::{are_labels, labels_of};
use crate::lassos::Lasso;
use crate::states::{Scope, states_of};
use ls_checked::program::ThreadProgram;
use ls_graph::closing::{Closing, is_whole, number_of};
use ls_search::space::Kept;
use std::alloc::AllocError;

/// What is told of a call where no thread has to go on.
#[derive(Drop)]
pub enum Free {
    /// It ends after so many steps of its own, whatever all threads do.
    WaitFree(u32),
    /// Unless another call ends, it ends after so many. It may never end, if others do.
    LockFree(u32, Lasso),
    /// Where its thread is alone, it ends after so many. It may be that no call ends.
    ObstructionFree(u32, Lasso),
    /// Even alone it may never end.
    Blocking(Lasso),
    /// It isn't known.
    Unknown,
}

/// Whether a call may not end though all threads go on.
#[derive(Drop)]
pub enum Going {
    /// It isn't known.
    Nothing,
    /// It may not. A lock may pass over a waiting thread for ever.
    Fairly(Lasso),
    /// It may not, though no lock passes over a thread for ever.
    ByLocks(Lasso),
}

/// What is told of a call where all threads go on.
#[derive(Drop)]
pub struct Fair {
    /// Whether it may never end.
    pub starving: Going,
    /// Whether it may be that no call ends.
    pub stopping: Going,
}

/// What is told of a call of a thread.
#[derive(Drop)]
pub struct CallEnds {
    pub thread: u8,
    pub call: u32,
    pub free: Free,
    pub fair: Fair,
}

/// What is told of a program's calls, how many states were kept, and whether these are all.
#[derive(Drop)]
pub struct Ends {
    pub calls: Vec<CallEnds>,
    pub states: usize,
    pub complete: bool,
}

/// What is told of a call that may not end where others do.
fn less_free(labelled: Labelled<'_>, call: u32, by_others: Lasso) -> Result<Free, AllocError>
    requires labelled { IsLabelled labelled }
    requires goes { GoesIn labelled (wait_free labelled.thread) call by_others }
    ensures { IfOk result (IsFreeIn labelled.entry call) }
{
    match told_of(labelled, Kind::LockFree, call)? {
        Told::Unknown => Ok(Free::Unknown),
        Told::Bounded(most) => Ok(Free::LockFree(most, by_others)),
        Told::Endless(lasso) => least_free(labelled, call, lasso),
    }
}

/// What is told of a call that may not end where no call ends.
fn least_free(labelled: Labelled<'_>, call: u32, by_none: Lasso) -> Result<Free, AllocError>
    requires labelled { IsLabelled labelled }
    requires goes { GoesIn labelled (lock_free labelled.thread) call by_none }
    ensures { IfOk result (IsFreeIn labelled.entry call) }
{
    match told_of(labelled, Kind::ObstructionFree, call)? {
        Told::Unknown => Ok(Free::Unknown),
        Told::Bounded(most) => Ok(Free::ObstructionFree(most, by_none)),
        Told::Endless(lasso) => Ok(Free::Blocking(lasso)),
    }
}

/// What is told of a call where no thread has to go on.
fn free_of(labelled: Labelled<'_>, call: u32) -> Result<Free, AllocError>
    requires { IsLabelled labelled }
    ensures { IfOk result (IsFreeIn labelled.entry call) }
{
    match told_of(labelled, Kind::WaitFree, call)? {
        Told::Unknown => Ok(Free::Unknown),
        Told::Bounded(most) => Ok(Free::WaitFree(most)),
        Told::Endless(lasso) => less_free(labelled, call, lasso),
    }
}

/// Nothing is told.
fn unfair() -> Fair
    ensures starving { result.starving ≡ Nothing }
    ensures stopping { result.stopping ≡ Nothing }
{
    Fair {
        starving: Going::Nothing,
        stopping: Going::Nothing,
    }
}

/// What is told of a call where all threads go on. Where it may be that no call ends, though no lock passes over a
/// thread, nothing more is told.
fn fair_of(labelled: Labelled<'_>, call: u32) -> Result<Fair, AllocError>
    requires { IsLabelled labelled }
    ensures { IfOk result (IsFairIn labelled.entry call) }
{
    let stopping = going_of(labelled, Kind::LockFree, call)?;
    let starving = match &stopping {
        Going::ByLocks(_) => Going::Nothing,
        Going::Nothing | Going::Fairly(_) => going_of(labelled, Kind::WaitFree, call)?,
    };
    Ok(Fair { starving, stopping })
}

/// What is told of a call where all threads go on, if it may not end where they don't.
fn fair_beside(labelled: Labelled<'_>, call: u32, free: &Free) -> Result<Fair, AllocError>
    requires { IsLabelled labelled }
    ensures { IfOk result (IsFairIn labelled.entry call) }
{
    match free {
        Free::WaitFree(_) | Free::Unknown => Ok(unfair()),
        Free::LockFree(_, _) | Free::ObstructionFree(_, _) | Free::Blocking(_) => {
            fair_of(labelled, call)
        }
    }
}

/// What is told of a call.
fn judged(labelled: Labelled<'_>, call: u32) -> Result<CallEnds, AllocError>
    requires { IsLabelled labelled }
    ensures ends { IfOk result (IsCallEndsIn labelled.entry) }
    ensures thread { IfOk result (λ c. c.thread ≡ labelled.entry.thread) }
    ensures call { IfOk result (λ c. c.call ≡ call) }
{
    let free = free_of(labelled, call)?;
    let fair = fair_beside(labelled, call, &free)?;
    Ok(CallEnds {
        thread: labelled.thread,
        call,
        free,
        fair,
    })
}

/// Adds what is told of the first so many calls of a thread.
fn judge_calls(
    labelled: Labelled<'_>,
    count: u32,
    calls: &mut Vec<CallEnds>,
) -> Result<(), AllocError>
    requires labelled { IsLabelled labelled }
    requires ends { AreEndsIn labelled.scope calls.old.items }
    ensures ends { OnOk result (AreEndsIn labelled.entry.scope calls.new.items) }
    ensures listed { OnOk result
        (keys calls.new.items ≡ keys calls.old.items ++ calls_to labelled.entry.thread count) }
{
    for done in 0..count {
        let ends = judged(labelled, done + 1)?;
        calls.push(ends)?;
    }
    Ok(())
}

/// The graph of a program's states.
#[derive(Copy)]
pub(crate) struct Whole<'a> {
    pub(crate) scope: Scope<'a>,
    pub(crate) closing: &'a Closing<Kept>,
    pub(crate) outgoing: &'a Outgoing,
}

impl<'a> Clone for Whole<'a> {
    fn clone(&self) -> Result<Whole<'a>, AllocError> {
        Ok(*self)
    }
}

/// Which call of a thread is pending at each state. It is refused too if these don't follow from the edges, as they do.
pub(crate) fn labels_in(whole: Whole<'_>, thread: u8) -> Result<Vec<Option<u32>>, AllocError>
    ensures { IfOk result (λ labels.
        AreLabels thread whole.entry.closing.now.graph.edges.items labels.items) }
{
    let edges = &whole.closing.graph.edges;
    let states = whole.closing.graph.found.nodes.len();
    let labels = labels_of(whole.scope.alloc, edges, states, thread)?;
    if !are_labels(edges, &labels, thread) {
        return Err(AllocError);
    }
    Ok(labels)
}

/// Adds what is told of the calls of a thread. The refusals are those of `labels_in` too.
fn judge_thread(
    whole: Whole<'_>,
    thread: u8,
    count: u32,
    calls: &mut Vec<CallEnds>,
) -> Result<(), AllocError>
    requires whole { IsWholeGraph whole }
    requires ends { AreEndsIn whole.scope calls.old.items }
    ensures ends { OnOk result (AreEndsIn whole.entry.scope calls.new.items) }
    ensures listed { OnOk result (keys calls.new.items ≡ keys calls.old.items ++ calls_to thread count) }
{
    let labels = labels_in(whole, thread)?;
    let labelled = Labelled {
        scope: whole.scope,
        closing: whole.closing,
        outgoing: whole.outgoing,
        labels: &labels,
        thread,
    };
    judge_calls(labelled, count, calls)
}

/// Adds what is told of the calls of these threads, the first of which has this number.
fn judge_all(
    whole: Whole<'_>,
    threads: &[ThreadProgram],
    thread: u8,
    calls: &mut Vec<CallEnds>,
) -> Result<(), AllocError>
    requires few { thread + length threads.now ≤ 65 }
    requires whole { IsWholeGraph whole }
    requires ends { AreEndsIn whole.scope calls.old.items }
    ensures ends { OnOk result (AreEndsIn whole.entry.scope calls.new.items) }
    ensures listed { OnOk result
        (keys calls.new.items ≡ keys calls.old.items ++ calls_from thread (map plain_thread threads.now)) }
{
    match threads {
        [] => Ok(()),
        [first, rest @ ..] => {
            let count = number_of(first.calls.len())?;
            judge_thread(whole, thread, count, calls)?;
            judge_all(whole, rest, thread + 1, calls)
        }
    }
}

/// What is told of each call of a program but those of the setup.
fn calls_of(whole: Whole<'_>) -> Result<Vec<CallEnds>, AllocError>
    requires { IsWholeGraph whole }
    ensures ends { IfOk result (λ calls. AreEndsIn whole.entry.scope calls.items) }
    ensures listed { IfOk result (λ calls. keys calls.items ≡ calls_of (program_in whole.entry.scope).threads) }
{
    let mut calls = Vec::new(whole.scope.alloc);
    match whole.scope.program.threads.as_slice() {
        [] => Ok(calls),
        [_, rest @ ..] => {
            judge_all(whole, rest, 1, &mut calls)?;
            Ok(calls)
        }
    }
}

/// Whether the calls of a program end, but those of the setup. Where it is told that a call ends, it does so in
/// whatever schedule of whatever length. Where it is told that it may not, a lasso shows it. At most so many states
/// are kept. A refusal is that memory ran out, that a store, a work or a state has no number left, or that a constant
/// of the file or of the program names an object, which none does of those that were read.
pub fn ends_of(scope: Scope<'_>) -> Result<Ends, AllocError>
    ensures ends { IfOk result (λ e. AreEndsIn scope.entry e.calls.items) }
    ensures once { IfOk result (λ e. scope.entry.again ≡ false →
        AreEndsOf (file_in scope.entry) (program_in scope.entry) e.calls.items) }
    ensures listed { IfOk result (λ e. keys e.calls.items ≡ calls_of (program_in scope.entry).threads) }
{
    let closing = states_of(scope)?;
    let states = closing.graph.found.nodes.len();
    let outgoing = outgoing_of(scope.alloc, &closing.graph.edges, states)?;
    let whole = Whole {
        scope,
        closing: &closing,
        outgoing: &outgoing,
    };
    let calls = calls_of(whole)?;
    let complete = is_whole(&closing);
    Ok(Ends {
        calls,
        states,
        complete,
    })
}
