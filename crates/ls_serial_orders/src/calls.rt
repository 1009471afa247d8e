// The calls of a history, in order.

ghost use Rattle.std.specs.Prelude.{◌≡◌, ◌-◌, IfOk, map, option_map, slice_get, string_bytes};
ghost use Rattle.std.specs.Option.{option_copied};
ghost use Rattle.ls_checked.specs.PlainProgram.{plain_call, plain_program, plain_thread};
ghost use Rattle.ls_checked.specs.CheckedProgram.{Program as ProgramValue};
ghost use Rattle.ls_report.specs.Lines.{call_text};
ghost use Rattle.ls_report.specs.Printing.{occurrence_of};
ghost use Rattle.ls_serial_orders.specs.Calls.{call_of, calls_of, is_method};

use ls_checked::program::{Program, ProgramCall, ThreadProgram};
use ls_events::event::{Event, Happening};
use std::alloc::{AllocError, Global};

fn thread_at(program: &Program, number: usize) -> Option<&ThreadProgram>
    ensures { option_map plain_thread (option_copied result) ≡ slice_get (plain_program program.now).threads number }
{
    program.threads.get(number)
}

/// The thread's call of this number, counted from 1.
pub(crate) fn call_at(thread: &ThreadProgram, number: usize) -> Option<&ProgramCall>
    ensures { option_map plain_call (option_copied result) ≡ slice_get (plain_thread thread.now).calls (number - 1) }
{
    thread.calls.get(number.saturating_sub(1))
}

/// Whether a method is called.
fn is_method(call: &ProgramCall, happening: Happening) -> bool
    ensures { (p : ProgramValue) →
        result ≡ is_method (occurrence_of p (plain_call call.now) happening) }
{
    match happening {
        Happening::Called => matches!(call, ProgramCall::Calling { .. }),
        Happening::Returned(_) | Happening::Trapped(_) => false,
    }
}

/// The text of a call, as `A.1`. The only refusal is that memory ran out.
fn call_text(alloc: Global, thread: &str, number: usize) -> Result<String, AllocError>
    ensures { IfOk result (λ text. string_bytes text ≡ call_text thread.now number) }
{
    format!(in alloc; "{thread}.{number}")
}

/// The call of a method that an event begins, by its text. None for another event. The only refusal is that memory ran
/// out.
fn call_of(alloc: Global, program: &Program, event: Event) -> Result<Option<String>, AllocError>
    ensures { IfOk result (λ o. option_map string_bytes o ≡ call_of (plain_program program.now) event) }
{
    let Some(thread) = thread_at(program, event.thread) else {
        return Ok(None);
    };
    let Some(call) = call_at(thread, event.call) else {
        return Ok(None);
    };
    if !is_method(call, event.happening) {
        return Ok(None);
    }
    let text = call_text(alloc, thread.name.as_str(), event.call)?;
    Ok(Some(text))
}

/// The calls of methods, by their texts, in the order in which they were called. The only refusal is that memory ran
/// out.
pub(crate) fn calls_of(
    alloc: Global,
    program: &Program,
    history: &[Event],
) -> Result<Vec<String>, AllocError>
    ensures { IfOk result (λ calls. map string_bytes calls.items ≡ calls_of (plain_program program.now) history.now) }
{
    let mut calls = Vec::new(alloc);
    for event in history {
        if let Some(call) = call_of(alloc, program, *event)? {
            calls.push(call)?;
        }
    }
    Ok(calls)
}
