// Finding the set calls of a history.

ghost use Rattle.std.specs.Prelude.{◌≡◌, IfOk, [], drop, length, map, option_map, string_bytes};
ghost use Rattle.std.specs.Option.{option_copied};
ghost use Rattle.std.specs.Str.{bytes_eq};
ghost use Rattle.ls_report.specs.Events.{Called};
ghost use Rattle.ls_report.specs.Plain.{plain_event, plain_occurrence};
ghost use Rattle.ls_orders.specs.SetCalls.{
  asked_of,
  calls_from,
  first_after,
  first_foreign,
  is_foreign,
  name_at,
  name_of,
  object_of,
  only_int,
  operation_of,
  set_calls,
};

use crate::calls::{End, Operation, SetCall};
use crate::ends::put_event;
use ls_events::value::Value;
use ls_report::history::{NamedEvent, Occurrence};
use std::alloc::{AllocError, Global};
use std::collections::HashMap;
use std::fmt::Write;

/// Room for the longest names of calls, so that they are printed without moving.
const NAME_ROOM: usize = 24;

fn operation_of(method: &str) -> Option<Operation>
    ensures { result ≡ operation_of method.now }
{
    if method == "add" {
        Some(Operation::Add)
    } else if method == "remove" {
        Some(Operation::Remove)
    } else if method == "contains" {
        Some(Operation::Contains)
    } else {
        None
    }
}

/// The argument, if it is one int.
fn only_int(arguments: &[Value]) -> Option<i32>
    ensures { result ≡ only_int arguments.now }
{
    match arguments {
        [Value::Int(n)] => Some(*n),
        _ => None,
    }
}

fn asked_with(method: &str, arguments: &[Value]) -> Option<(Operation, i32)>
    ensures { result ≡ asked_of (Called [] method.now arguments.now) }
{
    let item = only_int(arguments)?;
    let operation = operation_of(method)?;
    Some((operation, item))
}

/// The operation and its item, if this is a set call.
fn asked_of(occurrence: &Occurrence<'_>) -> Option<(Operation, i32)>
    ensures { result ≡ asked_of (plain_occurrence occurrence.now) }
{
    match occurrence {
        Occurrence::Called {
            method,
            arguments,
            ..
        } => asked_with(method, arguments.as_slice()),
        _ => None,
    }
}

fn is_foreign(first: Option<&str>, occurrence: &Occurrence<'_>) -> bool
    ensures { result ≡ is_foreign (option_copied first.entry) (plain_occurrence occurrence.now) }
{
    match occurrence {
        Occurrence::Made { .. } => first.is_some(),
        Occurrence::Called { object, .. } => {
            if asked_of(occurrence).is_none() {
                return true;
            }
            match first {
                Some(first) => first != *object,
                None => false,
            }
        }
        _ => false,
    }
}

fn first_after<'a>(first: Option<&'a str>, occurrence: &Occurrence<'a>) -> Option<&'a str>
    ensures { option_copied result ≡ first_after (option_copied first.entry) (plain_occurrence occurrence.now) }
{
    if first.is_some() {
        return first;
    }
    match occurrence {
        Occurrence::Called { object, .. } => {
            if asked_of(occurrence).is_some() {
                Some(*object)
            } else {
                None
            }
        }
        _ => None,
    }
}

/// The first call that isn't a set call on the same object as the first set call.
pub fn first_foreign<'a, 'b>(events: &'a [NamedEvent<'b>]) -> Option<&'a NamedEvent<'b>>
    ensures { option_map plain_event (option_copied result) ≡ first_foreign (map plain_event events.now) }
{
    let mut first = None;
    for event in events {
        if is_foreign(first, &event.occurrence) {
            return Some(event);
        }
        first = first_after(first, &event.occurrence);
    }
    None
}

fn set_call(called: usize, asked: (Operation, i32), end: End) -> SetCall
    ensures { result ≡ record { called = called; operation = asked.0; item = asked.1; end = end } }
{
    let (operation, item) = asked;
    SetCall {
        called,
        operation,
        item,
        end,
    }
}

/// The set calls, in order of their call events. The only refusal is that memory ran out.
pub fn set_calls(alloc: Global, events: &[NamedEvent<'_>]) -> Result<Vec<SetCall>, AllocError>
    ensures { IfOk result (λ calls. calls.items ≡ set_calls (map plain_event events.now)) }
{
    let mut ends = HashMap::new(alloc);
    let mut calls = Vec::new(alloc);
    for at in (0..events.len()).rev() {
        let event = &events[at];
        let end = put_event(&mut ends, at, event)?;
        if let Some(asked) = asked_of(&event.occurrence) {
            calls.push(set_call(at, asked, end))?;
        }
    }
    calls.reverse();
    Ok(calls)
}

/// The text of the call, as `A.1`. The only refusal is that memory ran out.
pub fn name_of(alloc: Global, event: &NamedEvent<'_>) -> Result<String, AllocError>
    ensures { IfOk result (λ text. string_bytes text ≡ name_of (plain_event event.now)) }
{
    let call = event.call;
    let mut text = String::with_capacity(alloc, NAME_ROOM)?;
    text.push_str(event.thread)?;
    text.push_str(".")?;
    write!(text, "{call}")?;
    Ok(text)
}

/// The text of the call of the event at a place, as `A.1`. The only refusal is that memory ran out.
pub fn name_at(alloc: Global, events: &[NamedEvent<'_>], at: usize) -> Result<String, AllocError>
    ensures { IfOk result (λ text. string_bytes text ≡ name_at (map plain_event events.now) at) }
{
    match events.get(at) {
        Some(event) => name_of(alloc, event),
        None => Ok(String::new(alloc)),
    }
}
