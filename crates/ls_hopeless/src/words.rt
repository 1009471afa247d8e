// An event that no order of whole calls explains, in words.

ghost use Rattle.std.specs.Prelude.{◌≡◌, ◌++◌, IfOk, OnOk, string_bytes};
ghost use Rattle.std.specs.List.{filter, flat_map, list_any};
ghost use Rattle.ls_checked.specs.PlainProgram.{plain_program};
ghost use Rattle.ls_hopeless.specs.Words.{after_text, and_call, and_past, behind, call_words, detail, did, does};
ghost use Rattle.ls_hopeless.specs.Words.{event_words, is_end, is_end_of, is_running, line_of, past_words, spaced};
ghost use Rattle.ls_hopeless.specs.Words.{with_text};
ghost use Rattle.ls_report.specs.Cut.{cut};
ghost use Rattle.ls_serial.specs.Serial.{is_called};

use ls_checked::program::Program;
use ls_events::event::{Event, Happening};
use ls_labels::threads::thread_name;
use ls_report::cuts::cut;
use ls_report::push_words;
use std::alloc::{AllocError, Global};
use std::fmt::Write;

/// What stands behind the first space of a text.
fn behind_space(text: &str) -> &str
    ensures { result.now ≡ behind (cut 32 text.now) }
{
    match cut(text, ' ') {
        Some((_, behind)) => behind,
        None => "",
    }
}

/// Adds a text behind a space, if there is one.
fn push_spaced(out: &mut String, text: &str) -> Result<(), AllocError>
    ensures { OnOk result (string_bytes out.new ≡ string_bytes out.old ++ spaced text.now) }
{
    if text.is_empty() {
        return Ok(());
    }
    out.push_str(" ")?;
    out.push_str(text)
}

/// Adds the words of an event in a history without the first.
fn push_detail(
    alloc: Global,
    out: &mut String,
    program: &Program,
    event: Event,
) -> Result<(), AllocError>
    ensures { OnOk result (string_bytes out.new ≡
        string_bytes out.old ++ detail (plain_program program.now) event) }
{
    let mut words = String::new(alloc);
    push_words(&mut words, program, event)?;
    push_spaced(out, behind_space(words.as_str()))
}

/// Adds the call of an event.
fn push_call(
    alloc: Global,
    out: &mut String,
    program: &Program,
    event: Event,
) -> Result<(), AllocError>
    ensures { OnOk result (string_bytes out.new ≡
        string_bytes out.old ++ call_words (plain_program program.now) event) }
{
    let Event { thread, call, .. } = event;
    let begun = Event {
        thread,
        call,
        happening: Happening::Called,
    };
    out.push_str(thread_name(program, thread))?;
    write!(out, ".{call}")?;
    push_detail(alloc, out, program, begun)
}

/// What an event does.
fn does(happening: Happening) -> &'static str
    ensures { result.now ≡ does happening }
{
    match happening {
        Happening::Called => " is called",
        Happening::Returned(_) => " returns",
        Happening::Trapped(_) => " throws",
    }
}

/// What an event did.
fn did(happening: Happening) -> &'static str
    ensures { result.now ≡ did happening }
{
    match happening {
        Happening::Called => " was called",
        Happening::Returned(_) => " returned",
        Happening::Trapped(_) => " threw",
    }
}

/// Adds an event.
fn push_event(
    alloc: Global,
    out: &mut String,
    program: &Program,
    event: Event,
) -> Result<(), AllocError>
    ensures { OnOk result (string_bytes out.new ≡
        string_bytes out.old ++ event_words (plain_program program.now) event) }
{
    push_call(alloc, out, program, event)?;
    out.push_str(does(event.happening))?;
    push_detail(alloc, out, program, event)
}

/// Adds an event that is past.
fn push_past(
    alloc: Global,
    out: &mut String,
    program: &Program,
    event: Event,
) -> Result<(), AllocError>
    ensures { OnOk result (string_bytes out.new ≡
        string_bytes out.old ++ past_words (plain_program program.now) event) }
{
    push_call(alloc, out, program, event)?;
    out.push_str(did(event.happening))?;
    push_detail(alloc, out, program, event)
}

/// Whether a happening is the beginning of a call.
fn is_called(happening: Happening) -> bool
    ensures { result ≡ is_called happening }
{
    match happening {
        Happening::Called => true,
        Happening::Returned(_) | Happening::Trapped(_) => false,
    }
}

/// Whether an event is a return or a trap of a thread that isn't the setup.
fn is_end(event: Event) -> bool
    ensures { result ≡ is_end event }
{
    event.thread != 0 && !is_called(event.happening)
}

/// The returns and traps among events, but for those of the setup.
fn ends_among(alloc: Global, history: &[Event]) -> Result<Vec<Event>, AllocError>
    ensures { IfOk result (λ ends. ends.items ≡ filter is_end history.now) }
{
    history
        .iter()
        .copied()
        .filter(|event| is_end(*event))
        .collect(alloc)
}

/// Adds which calls had ended, by their ends.
fn push_after(
    alloc: Global,
    out: &mut String,
    program: &Program,
    ends: &[Event],
) -> Result<(), AllocError>
    ensures { OnOk result (string_bytes out.new ≡
        string_bytes out.old ++ after_text (plain_program program.now) ends.now) }
{
    match ends {
        [] => Ok(()),
        [first, others @ ..] => {
            out.push_str(" after ")?;
            push_past(alloc, out, program, *first)?;
            push_more_past(alloc, out, program, others)
        }
    }
}

/// Adds more calls that had ended, by their ends.
fn push_more_past(
    alloc: Global,
    out: &mut String,
    program: &Program,
    ends: &[Event],
) -> Result<(), AllocError>
    ensures { OnOk result (string_bytes out.new ≡
        string_bytes out.old ++ flat_map (and_past (plain_program program.now)) ends.now) }
{
    for event in ends {
        out.push_str(" and ")?;
        push_past(alloc, out, program, *event)?;
    }
    Ok(())
}

/// Whether the second event is the end of the first one's call.
fn is_end_of(call: Event, event: Event) -> bool
    ensures { result ≡ is_end_of call event }
{
    !is_called(event.happening) && event.thread == call.thread && event.call == call.call
}

/// Whether the call of an event has ended among events.
fn has_ended(history: &[Event], call: Event) -> bool
    ensures { result ≡ list_any (is_end_of call) history.now }
{
    history.iter().any(|event| is_end_of(call, *event))
}

/// Whether a call is running after events, and its thread is neither the setup nor this one.
fn is_running(history: &[Event], thread: usize, call: Event) -> bool
    ensures { result ≡ is_running history.now thread call }
{
    is_called(call.happening)
        && call.thread != 0
        && call.thread != thread
        && !has_ended(history, call)
}

/// The calls that are running after events, but for those of the setup and of a thread.
fn running_among(alloc: Global, history: &[Event], thread: usize) -> Result<Vec<Event>, AllocError>
    ensures { IfOk result (λ calls. calls.items ≡ filter (is_running history.now thread) history.now) }
{
    history
        .iter()
        .copied()
        .filter(|event| is_running(history, thread, *event))
        .collect(alloc)
}

/// Adds more calls.
fn push_more_calls(
    alloc: Global,
    out: &mut String,
    program: &Program,
    calls: &[Event],
) -> Result<(), AllocError>
    ensures { OnOk result (string_bytes out.new ≡
        string_bytes out.old ++ flat_map (and_call (plain_program program.now)) calls.now) }
{
    for call in calls {
        out.push_str(" and ")?;
        push_call(alloc, out, program, *call)?;
    }
    Ok(())
}

/// Adds which calls are running.
fn push_running(
    alloc: Global,
    out: &mut String,
    program: &Program,
    calls: &[Event],
) -> Result<(), AllocError>
    ensures { OnOk result (string_bytes out.new ≡
        string_bytes out.old ++ with_text (plain_program program.now) calls.now) }
{
    match calls {
        [] => Ok(()),
        [first, others @ ..] => {
            out.push_str(", with ")?;
            push_call(alloc, out, program, *first)?;
            push_more_calls(alloc, out, program, others)?;
            out.push_str(" still running")
        }
    }
}

/// The line on an event that comes after others. The only refusal is that memory ran out.
pub(crate) fn line_of(
    alloc: Global,
    program: &Program,
    history: &[Event],
    event: Event,
) -> Result<String, AllocError>
    ensures { IfOk result (λ text. string_bytes text ≡ line_of (plain_program program.now) history.now event) }
{
    let ends = ends_among(alloc, history)?;
    let running = running_among(alloc, history, event.thread)?;
    let mut out = String::from_str(alloc, "// no order of whole calls explains that ")?;
    push_event(alloc, &mut out, program, event)?;
    push_after(alloc, &mut out, program, ends.as_slice())?;
    push_running(alloc, &mut out, program, running.as_slice())?;
    out.push_str("\n")?;
    Ok(out)
}
