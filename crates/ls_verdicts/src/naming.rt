// The events of a run with the names of their calls.

ghost use Rattle.std.specs.Prelude.{◌≡◌, ◌-◌, IfOk, map, option_map, slice_get};
ghost use Rattle.std.specs.List.{filter_map};
ghost use Rattle.std.specs.Option.{option_copied};
ghost use Rattle.ls_checked.specs.PlainProgram.{plain_call, plain_program, plain_thread};
ghost use Rattle.ls_report.specs.Plain.{plain_event, plain_occurrence};
ghost use Rattle.ls_report.specs.Printing.{called, event_of, named, occurrence_of};

use ls_checked::program::{Program, ProgramCall, ThreadProgram};
use ls_events::event::{Event, Happening};
use ls_events::value::Value;
use ls_report::history::{NamedEvent, Occurrence};
use ls_report::object_name;
use std::alloc::{AllocError, Global};

/// The same values.
fn copied(alloc: Global, values: &[Value]) -> Result<Vec<Value>, AllocError>
    ensures { IfOk result (λ copy. copy.items ≡ values.now) }
{
    values.iter().copied().collect(alloc)
}

/// What the call's first event says.
fn called<'a>(
    alloc: Global,
    program: &'a Program,
    call: &'a ProgramCall,
) -> Result<Occurrence<'a>, AllocError>
    ensures { IfOk result (λ o. plain_occurrence o ≡ called (plain_program program.now) (plain_call call.now)) }
{
    match call {
        ProgramCall::Making {
            name,
            class_name,
            values,
            ..
        } => {
            let arguments = copied(alloc, values.as_slice())?;
            Ok(Occurrence::Made {
                object: object_name(program, *name),
                class: class_name.as_str(),
                arguments,
            })
        }
        ProgramCall::Calling {
            name,
            method_name,
            values,
            ..
        } => {
            let arguments = copied(alloc, values.as_slice())?;
            Ok(Occurrence::Called {
                object: object_name(program, *name),
                method: method_name.as_str(),
                arguments,
            })
        }
    }
}

/// What an event of the call says.
fn occurrence_of<'a>(
    alloc: Global,
    program: &'a Program,
    call: &'a ProgramCall,
    happening: Happening,
) -> Result<Occurrence<'a>, AllocError>
    ensures { IfOk result (λ o. plain_occurrence o ≡ occurrence_of (plain_program program.now) (plain_call call.now)
        happening) }
{
    match happening {
        Happening::Called => called(alloc, program, call),
        Happening::Returned(value) => Ok(Occurrence::Returned(value)),
        Happening::Trapped(kind) => Ok(Occurrence::Trapped(kind)),
    }
}

/// The event of the thread's call.
fn event_of<'a>(
    alloc: Global,
    program: &'a Program,
    thread: &'a ThreadProgram,
    event: Event,
    call: &'a ProgramCall,
) -> Result<NamedEvent<'a>, AllocError>
    ensures { IfOk result (λ e. plain_event e ≡ event_of (plain_program program.now) (plain_thread thread.now) event
        (plain_call call.now)) }
{
    let occurrence = occurrence_of(alloc, program, call, event.happening)?;
    Ok(NamedEvent {
        thread: thread.name.as_str(),
        call: event.call,
        occurrence,
    })
}

fn thread_at(program: &Program, number: usize) -> Option<&ThreadProgram>
    ensures { option_map plain_thread (option_copied result) ≡ slice_get (plain_program program.now).threads number }
{
    program.threads.get(number)
}

/// The thread's call of this number, counted from 1.
fn call_at(thread: &ThreadProgram, number: usize) -> Option<&ProgramCall>
    ensures { option_map plain_call (option_copied result) ≡ slice_get (plain_thread thread.now).calls (number - 1) }
{
    thread.calls.get(number.saturating_sub(1))
}

/// The event with its names. None for an event of no call of the program.
fn named<'a>(
    alloc: Global,
    program: &'a Program,
    event: Event,
) -> Result<Option<NamedEvent<'a>>, AllocError>
    ensures { IfOk result (λ e. option_map plain_event e ≡ named (plain_program program.now) event) }
{
    let Some(thread) = thread_at(program, event.thread) else {
        return Ok(None);
    };
    let Some(call) = call_at(thread, event.call) else {
        return Ok(None);
    };
    let event = event_of(alloc, program, thread, event, call)?;
    Ok(Some(event))
}

/// The events of calls of the program, each with its names. The only refusal is that memory ran out.
pub(crate) fn named_events<'a>(
    alloc: Global,
    history: &[Event],
    program: &'a Program,
) -> Result<Vec<NamedEvent<'a>>, AllocError>
    ensures { IfOk result (λ events. map plain_event events.items ≡
        filter_map (named (plain_program program.now)) history.now) }
{
    let mut events = Vec::with_capacity(alloc, history.len())?;
    for event in history {
        if let Some(named) = named(alloc, program, *event)? {
            events.push(named)?;
        }
    }
    Ok(events)
}
