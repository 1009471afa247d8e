// Printing the events of a run.

ghost use Rattle.std.specs.Prelude.{◌≡◌, ◌++◌, ◌-◌, IfOk, OnOk, map, option_map, slice_get, string_bytes};
ghost use Rattle.std.specs.Option.{option_copied};
ghost use Rattle.ls_checked.specs.PlainProgram.{plain_call, plain_program, plain_thread};
ghost use Rattle.ls_report.specs.Lines.{line, occurrence_text};
ghost use Rattle.ls_report.specs.Printing.{called, event_of, object_name, occurrence_of, run_line, run_text, run_words};

use crate::lines::{push_called, push_made, push_returned, push_trapped};
use ls_checked::program::{Program, ProgramCall, ThreadProgram};
use ls_events::event::{Event, Happening};
use std::alloc::{AllocError, Global};
use std::fmt::Write;

/// The name that the setup gives under this number.
pub fn object_name(program: &Program, number: usize) -> &str
    ensures { result.now ≡ object_name (plain_program program.now) number }
{
    match program.names.get(number) {
        Some(named) => named.name.as_str(),
        None => "",
    }
}

fn push_call(out: &mut String, program: &Program, call: &ProgramCall) -> Result<(), AllocError>
    ensures { OnOk result (string_bytes out.new
        ≡ string_bytes out.old ++ occurrence_text (called (plain_program program.now) (plain_call call.now))) }
{
    match call {
        ProgramCall::Making {
            name,
            class_name,
            values,
            ..
        } => push_made(
            out,
            object_name(program, *name),
            class_name.as_str(),
            values.as_slice(),
        ),
        ProgramCall::Calling {
            name,
            method_name,
            values,
            ..
        } => push_called(
            out,
            object_name(program, *name),
            method_name.as_str(),
            values.as_slice(),
        ),
    }
}

fn push_happening(
    out: &mut String,
    program: &Program,
    call: &ProgramCall,
    happening: Happening,
) -> Result<(), AllocError>
    ensures { OnOk result (string_bytes out.new
        ≡ string_bytes out.old ++ occurrence_text (occurrence_of (plain_program program.now)
        (plain_call call.now) happening)) }
{
    match happening {
        Happening::Called => push_call(out, program, call),
        Happening::Returned(value) => push_returned(out, value),
        Happening::Trapped(kind) => push_trapped(out, kind),
    }
}

fn push_event(
    out: &mut String,
    program: &Program,
    thread: &ThreadProgram,
    event: Event,
    call: &ProgramCall,
) -> Result<(), AllocError>
    ensures { OnOk result (string_bytes out.new
        ≡ string_bytes out.old ++ line (event_of (plain_program program.now) (plain_thread thread.now) event
        (plain_call call.now))) }
{
    let name = thread.name.as_str();
    let number = event.call;
    write!(out, "{name}.{number} ")?;
    push_happening(out, program, call, event.happening)?;
    out.push_str("\n")
}

fn thread_at(program: &Program, number: usize) -> Option<&ThreadProgram>
    ensures { option_map plain_thread (option_copied result) ≡ slice_get (plain_program program.now).threads number }
{
    program.threads.get(number)
}

/// The thread's call of this number, counted from 1.
fn call_at(thread: &ThreadProgram, number: usize) -> Option<&ProgramCall>
    ensures { option_map plain_call (option_copied result) ≡ slice_get (plain_thread thread.now).calls (number - 1) }
{
    thread.calls.get(number.saturating_sub(1))
}

/// Adds the words of an event without its thread and call, as `call s.add(3)`. If the event is of no call of the
/// program, it has none. The only refusal is that memory ran out.
pub fn push_words(out: &mut String, program: &Program, event: Event) -> Result<(), AllocError>
    ensures { OnOk result (string_bytes out.new ≡ string_bytes out.old ++ run_words (plain_program program.now) event) }
{
    let Some(thread) = thread_at(program, event.thread) else {
        return Ok(());
    };
    match call_at(thread, event.call) {
        Some(call) => push_happening(out, program, call, event.happening),
        None => Ok(()),
    }
}

fn push_line(out: &mut String, program: &Program, event: Event) -> Result<(), AllocError>
    ensures { OnOk result (string_bytes out.new ≡ string_bytes out.old ++ run_line (plain_program program.now) event) }
{
    let Some(thread) = thread_at(program, event.thread) else {
        return Ok(());
    };
    match call_at(thread, event.call) {
        Some(call) => push_event(out, program, thread, event, call),
        None => Ok(()),
    }
}

/// The lines of the events of a run of the program. The only refusal is that memory ran out.
pub fn print_history(
    alloc: Global,
    events: &[Event],
    program: &Program,
) -> Result<String, AllocError>
    ensures { IfOk result (λ text. string_bytes text ≡ run_text (plain_program program.now) events.now) }
{
    let mut out = String::new(alloc);
    for event in events {
        push_line(&mut out, program, *event)?;
    }
    Ok(out)
}
