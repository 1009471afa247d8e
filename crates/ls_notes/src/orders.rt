// What `order` tells of a history, in words.

use crate::lists::{has, listed};
use crate::parts::ends_part;
use crate::serials::explained_serially;
use std::alloc::{AllocError, Global};

/// A call of the one set, as a history writes it.
#[derive(Copy)]
struct Written<'a> {
    /// As `A.1`.
    name: &'a str,
    /// As `add`.
    method: &'a str,
    /// As `7`.
    item: &'a str,
}

impl Clone for Written<'_> {
    fn clone(&self) -> Result<Self, AllocError> {
        Ok(*self)
    }
}

/// The call of the one set that a line of a history begins, if it begins one.
fn call_begun(line: &str) -> Option<Written<'_>> {
    let (name, rest) = line.split_once(' ')?;
    let call = rest.strip_prefix("call ")?;
    let (_, behind) = call.split_once('.')?;
    let (method, argument) = behind.split_once('(')?;
    let (item, _) = argument.split_once(')')?;
    if method == "add" || method == "remove" || method == "contains" {
        return Some(Written { name, method, item });
    }
    None
}

/// The calls of the one set that a history begins.
fn calls_of<'a>(alloc: Global, history: &'a str) -> Result<Vec<Written<'a>>, AllocError> {
    let mut calls = Vec::new(alloc);
    for line in history.lines() {
        if let Some(call) = call_begun(line) {
            calls.push(call)?;
        }
    }
    Ok(calls)
}

/// The call of this name.
fn called<'c, 'a>(calls: &'c [Written<'a>], name: &str) -> Option<&'c Written<'a>> {
    for call in calls {
        if call.name == name {
            return Some(call);
        }
    }
    None
}

/// The items without one.
fn without<'a>(alloc: Global, items: &[&'a str], item: &str) -> Result<Vec<&'a str>, AllocError> {
    let mut kept = Vec::new(alloc);
    for other in items {
        if *other != item {
            kept.push(*other)?;
        }
    }
    Ok(kept)
}

/// What the set holds at the end of an order, in words.
fn held(alloc: Global, calls: &[Written<'_>], order: &[&str]) -> Result<String, AllocError> {
    let mut items = Vec::new(alloc);
    for name in order {
        if let Some(call) = called(calls, name) {
            if call.method == "remove" {
                items = without(alloc, items.as_slice(), call.item)?;
            } else if call.method == "add" && !has(items.as_slice(), call.item) {
                items.push(call.item)?;
            }
        }
    }
    if items.is_empty() {
        return String::from_str(alloc, "the set is empty");
    }
    let all = listed(alloc, items.as_slice())?;
    format!(in alloc; "the set holds {all}")
}

/// The calls that aren't in an order.
fn left_out<'a>(
    alloc: Global,
    calls: &[Written<'a>],
    order: &[&str],
) -> Result<Vec<&'a str>, AllocError> {
    let mut left = Vec::new(alloc);
    for call in calls {
        if !has(order, call.name) {
            left.push(call.name)?;
        }
    }
    Ok(left)
}

/// The items of a line, between spaces.
pub(crate) fn words_of<'a>(alloc: Global, line: &'a str) -> Result<Vec<&'a str>, AllocError> {
    let mut words = Vec::new(alloc);
    for word in line.split_whitespace() {
        words.push(word)?;
    }
    Ok(words)
}

/// The first line of a text, and what stands after it.
pub(crate) fn first_line(text: &str) -> (&str, &str) {
    match text.split_once('\n') {
        Some((line, rest)) => (line, rest),
        None => (text, ""),
    }
}

/// A call that has no place where it answers as in the history.
fn hopeless(
    alloc: Global,
    calls: &[Written<'_>],
    words: &[&str],
    held: &str,
) -> Result<String, AllocError> {
    let [_, line, name, more @ ..] = words else {
        return Ok(String::new(alloc));
    };
    let (method, item) = match called(calls, name) {
        Some(call) => (call.method, call.item),
        None => ("", ""),
    };
    let placed = match more {
        [_, answer, ..] => format!(in alloc; "can't be placed where it answers {answer}")?,
        _ => String::from_str(alloc, "can't be placed, as it returned no answer")?,
    };
    format!(in alloc;
        "listset: {name}, {method}({item}), {placed}: from line {line} on no order is legal\n\
         listset: the order that is told is one of the lines before; at its end {held}\n"
    )
}

/// What `order` tells of a history of the one set, in words.
fn explained_set(alloc: Global, history: &str, printed: &str) -> Result<String, AllocError> {
    let calls = calls_of(alloc, history)?;
    let (head, rest) = first_line(printed);
    let words = words_of(alloc, head)?;
    match words.as_slice() {
        ["broken", _, name, ..] => format!(in alloc;
            "listset: {name} is no call of the one set, so no order is looked for\n"
        ),
        ["hopeless", ..] => {
            let order = words_of(alloc, first_line(rest).0)?;
            let held = held(alloc, calls.as_slice(), order.as_slice())?;
            hopeless(alloc, calls.as_slice(), words.as_slice(), held.as_str())
        }
        order => {
            let held = held(alloc, calls.as_slice(), order)?;
            let left = left_out(alloc, calls.as_slice(), order)?;
            let first = format!(in alloc;
                "listset: in this order each call answers as a set does, and at its end {held}\n"
            )?;
            if left.is_empty() {
                return Ok(first);
            }
            let all = listed(alloc, left.as_slice())?;
            format!(in alloc;
                "{first}listset: not in it are calls that didn't return, which may be left out: {all}\n"
            )
        }
    }
}

/// The third part of an input, if it has three.
fn third_part(alloc: Global, input: &str) -> Result<Option<String>, AllocError> {
    let mut number = 1usize;
    let mut part = String::new(alloc);
    for line in input.lines() {
        if ends_part(line) {
            number = number.saturating_add(1);
        } else if number == 3 {
            part.push_str(line)?;
            part.push_str("\n")?;
        }
    }
    if number < 3 {
        return Ok(None);
    }
    Ok(Some(part))
}

/// What `order` tells of a history, in words, by what it read and what it printed.
pub fn explained(alloc: Global, input: &str, printed: &str) -> Result<String, AllocError> {
    match third_part(alloc, input)? {
        Some(history) => explained_serially(alloc, history.as_str(), printed),
        None => explained_set(alloc, input, printed),
    }
}
