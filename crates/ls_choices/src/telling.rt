// What is told of a thread's next step at a state.

ghost use Rattle.std.specs.Prelude.{◌≡◌, ◌<◌, ◌++◌, ◌∷◌, [], IfOk, OnOk, length, slice_index_or, string_bytes};
ghost use Rattle.ls_checked.specs.Plain.{plain_file};
ghost use Rattle.ls_labels.specs.Names.{names_of};
ghost use Rattle.ls_labels.specs.Threads.{thread_name};
ghost use Rattle.ls_report.specs.Lines.{call_text};
ghost use Rattle.ls_transitions.specs.Seen.{table_of};
ghost use Rattle.ls_choices.specs.Points.{standing_at};
ghost use Rattle.ls_choices.specs.Telling.{IsWaitText, acted_text, call_words};

use crate::points::Point;
use crate::turns::asked_by;
use ls_labels::names::Names;
use ls_labels::threads::{add_wait_among, thread_name};
use ls_labels::words::add_performed;
use ls_transitions::moves::Step;
use ls_transitions::transitions::Transitions;
use std::alloc::{AllocError, Global};
use std::fmt::Write;

// Adds a thread with its last call, as `A.1 `.
fn push_call(
    out: &mut String,
    names: &Names,
    calls: &[usize],
    thread: usize,
) -> Result<(), AllocError>
    ensures { OnOk result (string_bytes out.new ≡ string_bytes out.old ++
        call_words (names_of names.now) calls.now thread) }
{
    let call = match calls.get(thread) {
        Some(call) => *call,
        None => 0,
    };
    write!(out, "{}.{call} ", thread_name(names.program, thread))
}

/// What is told of a step that acts, at the state after it. The only refusal is that memory ran out.
pub(crate) fn acted_words(
    alloc: Global,
    names: &Names,
    after: &Point,
    thread: usize,
    step: &Step,
) -> Result<String, AllocError>
    ensures { IfOk result (λ text. string_bytes text ≡ acted_text (names_of names.now) after.now.labels.items
        after.now.calls.items thread step.now.action step.now.answer) }
{
    let mut words = String::new(alloc);
    push_call(&mut words, names, &after.calls, thread)?;
    add_performed(
        &mut words,
        names,
        &after.labels,
        thread,
        &step.action,
        &step.answer,
    )?;
    Ok(words)
}

/// The name of a thread, and why it does nothing. The only refusal is that memory ran out.
pub(crate) fn idle_words(
    alloc: Global,
    names: &Names,
    thread: usize,
    why: &str,
) -> Result<String, AllocError>
    ensures { IfOk result (λ text. string_bytes text ≡
        thread_name (names_of names.now).program thread ++ why.now) }
{
    let mut words = String::new(alloc);
    words.push_str(thread_name(names.program, thread))?;
    words.push_str(why)?;
    Ok(words)
}

/// What is told of a step that waits, by the work of its thread. It is refused where memory ran out, and where the work
/// asks for no action in a body.
pub(crate) fn waiting_words<'a>(
    alloc: Global,
    names: &Names<'a>,
    transitions: &Transitions<'a>,
    point: &Point,
    thread: usize,
    work: usize,
) -> Result<String, AllocError>
    requires file { (table_of transitions.now).file ≡ plain_file names.now.file.now }
    requires store { point.now.place.store < length (table_of transitions.now).stores }
    requires work { work < length (table_of transitions.now).works }
    ensures { IfOk result (λ text. IsWaitText (names_of names.now) (table_of transitions.now)
        (standing_at (table_of transitions.now) point.now) thread work (string_bytes text)) }
{
    let action = asked_by(alloc, names.file, transitions, work)?;
    let mut words = String::new(alloc);
    push_call(&mut words, names, &point.calls, thread)?;
    let things = &transitions.store_at(point.place.store).things;
    add_wait_among(&mut words, names, &point.labels, things, &action)?;
    Ok(words)
}
