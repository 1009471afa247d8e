// Set calls by their texts.

ghost use Rattle.std.specs.Prelude.{◌≡◌, ◌==◌, ◌&&◌, ◌<◌, ◌^◌, ℕ, IfOk, OnOk, Option, if◌then◌else◌, length, map};
ghost use Rattle.std.specs.Prelude.{ok_or};
ghost use Rattle.std.specs.Option.{option_copied};
ghost use Rattle.std.specs.Str.{bytes_eq};
ghost use Rattle.ls_report.specs.Events.{Text};
ghost use Rattle.ls_report.specs.Lines.{call_text};
ghost use Rattle.ls_report.specs.Plain.{plain_event};
ghost use Rattle.ls_orders.specs.Each.{each};
ghost use Rattle.ls_orders.specs.Named.{plain_named};
ghost use Rattle.ls_orders.specs.Names.{IsNamed, numbered, place_of, placed};
ghost use Rattle.ls_orders.specs.Orders.{plain_text};
ghost use Rattle.ls_orders.specs.SetCalls.{call_named, name_at, set_calls};
ghost use Rattle.ls_orders.specs.declared.calls.SetCall.{SetCall as ghost_SetCall};

use crate::calls::SetCall;
use ls_report::history::NamedEvent;
use ls_report::number_in;
use std::alloc::{AllocError, Global};
use std::collections::HashMap;

/// What an order names.
#[derive(Drop)]
pub(crate) enum Named<'a> {
    Calls(Vec<&'a SetCall>),
    /// The first text that names no set call.
    Unknown(String),
}

fn fill(places: &mut Vec<usize>, number: usize) -> Result<(), AllocError>
    ensures { OnOk result ((number < length places.new.items)
        × ((k : ℕ) → numbered places.new.items k ≡ numbered places.old.items k)) }
{
    'numbers: while places.len() <= number {
        places.push(0)?;
    }
    Ok(())
}

/// Puts a place at a number.
fn put_at(places: &mut Vec<usize>, number: usize, place: usize) -> Result<(), AllocError>
    ensures { OnOk result ((k : ℕ) → numbered places.new.items k
        ≡ (if number == k then place else numbered places.old.items k)) }
{
    fill(places, number)?;
    places[number] = place;
    Ok(())
}

/// The places of a thread with one set call, which has this number.
fn one_place(alloc: Global, number: usize, place: usize) -> Result<Vec<usize>, AllocError>
    ensures { IfOk result (λ places. (k : ℕ) → numbered places.items k ≡ (if number == k then place else 0)) }
{
    let mut places = Vec::new(alloc);
    put_at(&mut places, number, place)?;
    Ok(places)
}

/// Puts the place of a call, in place of the one that is there.
fn put_place<'a>(
    alloc: Global,
    names: &mut HashMap<&'a str, Vec<usize>>,
    thread: &'a str,
    number: usize,
    place: usize,
) -> Result<(), AllocError>
    ensures { OnOk result ((t : Text) (n : ℕ) → place_of names.new t n
        ≡ (if bytes_eq thread.now t && number == n then place else place_of names.old t n)) }
{
    if let Some(places) = names.get_mut(thread) {
        return put_at(places, number, place);
    }
    let places = one_place(alloc, number, place)?;
    names.insert(thread, places)?;
    Ok(())
}

/// Puts the place of the call that the event at a place calls.
fn put_call<'a>(
    alloc: Global,
    names: &mut HashMap<&'a str, Vec<usize>>,
    events: &[NamedEvent<'a>],
    called: usize,
    place: usize,
) -> Result<(), AllocError>
    requires { called < length events.now }
    ensures { (t : Text) × (n : ℕ) × (n < 2 ^ 64) × (name_at (map plain_event events.now) called ≡ call_text t n)
        × OnOk result ((u : Text) (m : ℕ) → place_of names.new u m
        ≡ (if bytes_eq t u && n == m then place else place_of names.old u m)) }
{
    let event = &events[called];
    put_place(alloc, names, event.thread, event.call, place)
}

/// The places of the calls, counted from 1, by the names of their threads and by their numbers. The only refusal is
/// that memory ran out.
pub(crate) fn names_of<'a>(
    alloc: Global,
    events: &[NamedEvent<'a>],
    calls: &[SetCall],
) -> Result<HashMap<&'a str, Vec<usize>>, AllocError>
    requires { calls.now ≡ set_calls (map plain_event events.now) }
    ensures { IfOk result (IsNamed (call_named (map plain_event events.now) calls.now) calls.now) }
{
    let mut names = HashMap::new(alloc);
    // This goes from the last to the first, so that of calls with one text the first stays.
    for i in (0..calls.len()).rev() {
        put_call(alloc, &mut names, events, calls[i].called, i + 1)?;
    }
    Ok(names)
}

fn place_in(names: &HashMap<&str, Vec<usize>>, thread: &str, number: usize) -> usize
    ensures { result ≡ place_of names.now thread.now number }
{
    match names.get(thread) {
        Some(places) => *places.get(number).unwrap_or(&0),
        None => 0,
    }
}

fn call_at(calls: &[SetCall], place: usize) -> Option<&SetCall>
    ensures { option_copied result ≡ placed calls.now place }
{
    if place == 0 {
        return None;
    }
    calls.get(place - 1)
}

/// The call with this text.
fn call_of<'a>(
    names: &HashMap<&str, Vec<usize>>,
    calls: &'a [SetCall],
    text: &str,
) -> Option<&'a SetCall>
    ensures { (look : Text → Option ghost_SetCall) → IsNamed look calls.now names.now
        → option_copied result ≡ look text.now }
{
    let (thread, digits) = text.rsplit_once('.')?;
    let number = number_in(digits)?;
    call_at(calls, place_in(names, thread, number))
}

/// The calls that the texts name. The only refusal is that memory ran out.
pub(crate) fn calls_of<'a>(
    alloc: Global,
    names: &HashMap<&str, Vec<usize>>,
    calls: &'a [SetCall],
    order: &[&str],
) -> Result<Named<'a>, AllocError>
    ensures { (look : Text → Option ghost_SetCall) → IsNamed look calls.now names.now
        → IfOk result (λ named. plain_named named ≡ each (λ name. ok_or (look name) name) (map plain_text order.now)) }
{
    let mut named = Vec::with_capacity(alloc, order.len())?;
    for name in order {
        match call_of(names, calls, name) {
            Some(call) => named.push(call)?,
            None => return Ok(Named::Unknown(String::from_str(alloc, name)?)),
        }
    }
    Ok(Named::Calls(named))
}
