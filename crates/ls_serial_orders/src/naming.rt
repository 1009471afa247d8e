// The run that named events are.

ghost use Rattle.std.specs.Prelude.{◌≡◌, Decides, IfNone, IfOk, IfSome, Some, length, map};
ghost use Rattle.ls_checked.specs.PlainProgram.{plain_call, plain_program, plain_thread};
ghost use Rattle.ls_events.specs.declared.event.Happening.{Happening as HappeningValue};
ghost use Rattle.ls_report.specs.Plain.{plain_event, plain_occurrence};
ghost use Rattle.ls_report.specs.Printing.{called, named, occurrence_of, run_text};
ghost use Rattle.ls_serial_orders.specs.Named.{HasName, answer, IsForeign, IsRunOf};

use crate::calls::call_at;
use ls_checked::program::{Program, ProgramCall, ThreadProgram};
use ls_events::event::{Event, Happening};
use ls_events::same::is_event;
use ls_events::value::Value;
use ls_report::history::{NamedEvent, Occurrence};
use ls_report::{object_name, print_history};
use std::alloc::{AllocError, Global};

/// What a history is beside a program.
#[derive(Drop)]
pub enum Named {
    /// Each event is one of the program: these.
    Run(Vec<Event>),
    /// The line that begins at this byte is none of the program. Those before it are.
    Foreign(usize),
}

/// The end of a call with this value.
fn answer(value: Value) -> Event
    ensures { result ≡ answer value }
{
    Event {
        thread: 0,
        call: 0,
        happening: Happening::Returned(Some(value)),
    }
}

/// Whether a value is the other.
fn is_value(value: Value, other: Value) -> bool
    ensures { Decides result (value ≡ other) }
{
    is_event(&answer(value), &answer(other))
}

/// Whether values are the same, one by one.
fn are_values(values: &[Value], others: &[Value]) -> bool
    ensures { Decides result (values.now ≡ others.now) }
{
    if values.len() != others.len() {
        return false;
    }
    for i in 0..values.len() {
        if !is_value(values[i], others[i]) {
            return false;
        }
    }
    true
}

/// Whether a text is the other.
fn is_text(text: &str, other: &str) -> bool
    ensures { Decides result (text.now ≡ other.now) }
{
    text == other
}

/// Whether what is called is the other: the setup name, the class or the method, and the arguments.
fn are_same(
    object: &str,
    word: &str,
    values: &[Value],
    other_object: &str,
    other_word: &str,
    others: &[Value],
) -> bool
    ensures { Decides result
        ((object.now ≡ other_object.now) × (word.now ≡ other_word.now) × (values.now ≡ others.now)) }
{
    is_text(object, other_object) && is_text(word, other_word) && are_values(values, others)
}

/// Whether an occurrence is that a call is called.
fn is_called(program: &Program, call: &ProgramCall, occurrence: &Occurrence<'_>) -> bool
    ensures { Decides result
        (called (plain_program program.now) (plain_call call.now) ≡ plain_occurrence occurrence.now) }
{
    match call {
        ProgramCall::Making {
            name,
            class_name,
            values,
            ..
        } => match occurrence {
            Occurrence::Made {
                object,
                class,
                arguments,
            } => are_same(
                object_name(program, *name),
                class_name.as_str(),
                values.as_slice(),
                object,
                class,
                arguments.as_slice(),
            ),
            Occurrence::Called { .. } | Occurrence::Returned(_) | Occurrence::Trapped(_) => false,
        },
        ProgramCall::Calling {
            name,
            method_name,
            values,
            ..
        } => match occurrence {
            Occurrence::Called {
                object,
                method,
                arguments,
            } => are_same(
                object_name(program, *name),
                method_name.as_str(),
                values.as_slice(),
                object,
                method,
                arguments.as_slice(),
            ),
            Occurrence::Made { .. } | Occurrence::Returned(_) | Occurrence::Trapped(_) => false,
        },
    }
}

/// What happened to a call by an occurrence. None if the call isn't called so.
fn happening_of(
    program: &Program,
    call: &ProgramCall,
    occurrence: &Occurrence<'_>,
) -> Option<Happening>
    ensures some { IfSome result (λ h.
        occurrence_of (plain_program program.now) (plain_call call.now) h ≡ plain_occurrence occurrence.now) }
    ensures none { IfNone result ((h : HappeningValue) →
        occurrence_of (plain_program program.now) (plain_call call.now) h ≡ plain_occurrence occurrence.now → ⊥) }
{
    match occurrence {
        Occurrence::Returned(value) => Some(Happening::Returned(*value)),
        Occurrence::Trapped(kind) => Some(Happening::Trapped(*kind)),
        Occurrence::Made { .. } | Occurrence::Called { .. } => {
            if is_called(program, call, occurrence) {
                return Some(Happening::Called);
            }
            None
        }
    }
}

/// What happened to a thread's call by an event. None if it is no event of this thread.
fn happening_in(
    program: &Program,
    thread: &ThreadProgram,
    event: &NamedEvent<'_>,
) -> Option<Happening>
    ensures some { IfSome result (λ h.
        HasName (plain_program program.now) (plain_thread thread.now) h (plain_event event.now)) }
    ensures none { IfNone result ((h : HappeningValue) →
        HasName (plain_program program.now) (plain_thread thread.now) h (plain_event event.now) → ⊥) }
{
    if !is_text(thread.name.as_str(), event.thread) {
        return None;
    }
    match call_at(thread, event.call) {
        Some(call) => happening_of(program, call, &event.occurrence),
        None => None,
    }
}

/// The event of the program that has this name. None if there is none.
fn event_of(program: &Program, event: &NamedEvent<'_>) -> Option<Event>
    ensures some { IfSome result (λ r. named (plain_program program.now) r ≡ Some (plain_event event.now)) }
    ensures none { IfNone result (IsForeign (plain_program program.now) (plain_event event.now)) }
{
    let threads = program.threads.as_slice();
    for number in 0..threads.len() {
        if let Some(happening) = happening_in(program, &threads[number], event) {
            return Some(Event {
                thread: number,
                call: event.call,
                happening,
            });
        }
    }
    None
}

/// How many bytes the lines of these events have. The only refusal is that memory ran out.
fn length_of(alloc: Global, program: &Program, run: &[Event]) -> Result<usize, AllocError>
    ensures { IfOk result (λ n. n ≡ length (run_text (plain_program program.now) run.now)) }
{
    let text = print_history(alloc, run, program)?;
    Ok(text.len())
}

/// The run of the program that named events are, or the first line that is none of the program. The only refusal is
/// that memory ran out.
pub fn run_of(
    alloc: Global,
    program: &Program,
    events: &[NamedEvent<'_>],
) -> Result<Named, AllocError>
    ensures { IfOk result (IsRunOf (plain_program program.now) (map plain_event events.now)) }
{
    let mut run = Vec::with_capacity(alloc, events.len())?;
    for event in events {
        let Some(known) = event_of(program, event) else {
            let at = length_of(alloc, program, run.as_slice())?;
            return Ok(Named::Foreign(at));
        };
        run.push(known)?;
    }
    Ok(Named::Run(run))
}
