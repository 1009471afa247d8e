// Whether what threads still have to do is the same, and copies of it.

ghost use Rattle.std.specs.Prelude.{◌≡◌, IfOk, IsTrue, map, string_bytes};
ghost use Rattle.ls_checked.specs.PlainProgram.{plain_call};
ghost use Rattle.ls_source_pending.specs.SeenPending.{state_of};
ghost use Rattle.ls_source.specs.SeenThread.{bottom_of, phase_of, thread_of};

use ls_checked::program::ProgramCall;
use ls_events::same::is_same_value;
use ls_source::thread::{Bottom, Phase, Thread};
use ls_source_pending::pending::Pending;
use ls_works::copies::copy_work;
use ls_works::values::{are_same_values, is_same_answered, is_same_kind, is_same_result};
use ls_works::work::is_same_work;
use std::alloc::{AllocError, Global};

// Whether a text is the other.
fn is_same_text(text: &String, other: &String) -> bool
    ensures { IsTrue result → string_bytes text.now ≡ string_bytes other.now }
{
    text.as_str() == other.as_str()
}

// Whether a call is the other.
fn is_same_call(call: &ProgramCall, other: &ProgramCall) -> bool
    ensures { IsTrue result → plain_call call.now ≡ plain_call other.now }
{
    match (call, other) {
        (
            ProgramCall::Making {
                name: a,
                class: c,
                class_name: s,
                values: vs,
            },
            ProgramCall::Making {
                name: b,
                class: d,
                class_name: t,
                values: ws,
            },
        ) => a == b && c == d && is_same_text(s, t) && are_same_values(vs, ws),
        (
            ProgramCall::Calling {
                name: a,
                method: m,
                method_name: s,
                result: r,
                values: vs,
            },
            ProgramCall::Calling {
                name: b,
                method: n,
                method_name: t,
                result: q,
                values: ws,
            },
        ) => {
            a == b
                && m == n
                && is_same_text(s, t)
                && is_same_answered(*r, *q)
                && are_same_values(vs, ws)
        }
        _ => false,
    }
}

// Whether calls are the same, one by one.
fn are_same_calls(calls: &[ProgramCall], others: &[ProgramCall]) -> bool
    ensures { IsTrue result → map plain_call calls.now ≡ map plain_call others.now }
{
    if calls.len() != others.len() {
        return false;
    }
    for (i, call) in calls.iter().enumerate() {
        if !is_same_call(call, &others[i]) {
            return false;
        }
    }
    true
}

// Whether bodies were entered for the same.
fn is_same_bottom(bottom: Bottom, other: Bottom) -> bool
    ensures { IsTrue result → bottom_of bottom ≡ bottom_of other }
{
    match (bottom, other) {
        (Bottom::Making(a, v), Bottom::Making(b, w)) => a == b && is_same_value(v, w),
        (Bottom::Calling(m), Bottom::Calling(n)) => m == n,
        _ => false,
    }
}

// Whether threads are at the same place in their calls.
fn is_same_phase<'a>(
    phase: &Phase<'a>,
    work: &Pending<'a>,
    other: &Phase<'a>,
    other_work: &Pending<'a>,
) -> bool
    ensures { IsTrue result → phase_of phase.now (state_of work.now) ≡ phase_of other.now (state_of other_work.now) }
{
    match (phase, other) {
        (Phase::Starts, Phase::Starts) => true,
        (Phase::Announces(c), Phase::Announces(d)) => is_same_call(*c, *d),
        (Phase::Makes(a, c, vs), Phase::Makes(b, d, ws)) => {
            a == b && c == d && are_same_values(*vs, *ws)
        }
        (Phase::Fetches(a, m, vs), Phase::Fetches(b, n, ws)) => {
            a == b && m == n && are_same_values(*vs, *ws)
        }
        (Phase::Begins(p, m, v, vs), Phase::Begins(q, n, w, ws)) => {
            is_same_bottom(*p, *q) && m == n && is_same_value(*v, *w) && are_same_values(*vs, *ws)
        }
        (Phase::Works(p), Phase::Works(q)) => is_same_bottom(*p, *q)
            && is_same_work(work, other_work),
        (Phase::Names(a, v), Phase::Names(b, w)) => a == b && is_same_value(*v, *w),
        (Phase::ReturnsWith(v), Phase::ReturnsWith(w)) => is_same_result(*v, *w),
        (Phase::TrapsWith(k), Phase::TrapsWith(l)) => is_same_kind(*k, *l),
        (Phase::Trapped, Phase::Trapped) => true,
        _ => false,
    }
}

/// Whether a thread still has to do the same as the other. True only where it has.
pub fn is_same_thread<'a>(thread: &Thread<'a>, other: &Thread<'a>) -> bool
    ensures { IsTrue result → thread_of thread.now ≡ thread_of other.now }
{
    thread.begun == other.begun
        && is_same_phase(&thread.phase, &thread.work, &other.phase, &other.work)
        && are_same_calls(thread.calls, other.calls)
}

/// A thread that still has to do the same. The only refusal is that memory ran out.
pub fn copy_thread<'a>(alloc: Global, thread: &Thread<'a>) -> Result<Thread<'a>, AllocError>
    ensures { IfOk result (λ t. thread_of t ≡ thread_of thread.now) }
{
    let work = copy_work(alloc, &thread.work)?;
    Ok(Thread {
        calls: thread.calls,
        begun: thread.begun,
        phase: thread.phase,
        work,
    })
}
