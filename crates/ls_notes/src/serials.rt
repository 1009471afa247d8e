// What `order` tells of a history of a program, in words.

use crate::lists::{has, listed};
use crate::orders::{first_line, words_of};
use std::alloc::{AllocError, Global};

/// The name of the call that a line begins, and what is called. A line that makes an object begins none.
fn begun(line: &str) -> Option<(&str, &str)> {
    let (name, rest) = line.split_once(' ')?;
    let call = rest.strip_prefix("call ")?;
    match call.split_once(' ') {
        Some((_, rest)) if rest.starts_with('=') => None,
        _ => Some((name, call)),
    }
}

/// What the call of this name calls.
fn called<'a>(history: &'a str, wanted: &str) -> Option<&'a str> {
    for line in history.lines() {
        if let Some((name, call)) = begun(line) {
            if name == wanted {
                return Some(call);
            }
        }
    }
    None
}

/// The calls that aren't in an order.
fn left_out<'a>(
    alloc: Global,
    history: &'a str,
    order: &[&str],
) -> Result<Vec<&'a str>, AllocError> {
    let mut left = Vec::new(alloc);
    for line in history.lines() {
        if let Some((name, _)) = begun(line) {
            if !has(order, name) {
                left.push(name)?;
            }
        }
    }
    Ok(left)
}

/// A call that can't end as in the history.
fn hopeless(alloc: Global, history: &str, words: &[&str]) -> Result<String, AllocError> {
    let [_, line, name, more @ ..] = words else {
        return Ok(String::new(alloc));
    };
    let end = match more {
        ["trap", why, ..] => format!(in alloc; "can't end by {why}")?,
        [_, answer, ..] => format!(in alloc; "can't return {answer}")?,
        _ => String::from_str(alloc, "can't return")?,
    };
    let said = match called(history, name) {
        Some(call) => format!(in alloc; " {call},")?,
        None => String::new(alloc),
    };
    let comma = if said.is_empty() { "" } else { "," };
    format!(in alloc;
        "listset: {name}{comma}{said} {end}: from line {line} on no order of whole calls explains the history\n\
         listset: the order that is told is one of the lines before\n"
    )
}

/// What `order` tells of a history of a program, in words.
pub(crate) fn explained_serially(
    alloc: Global,
    history: &str,
    printed: &str,
) -> Result<String, AllocError> {
    let (head, _) = first_line(printed);
    if head == "not judged: a call goes on" {
        return String::from_str(
            alloc,
            "listset: no order of whole calls explains this, if each of them ends alone within 10,000 steps. But a call doesn't\n",
        );
    }
    if head == "not judged: too many states" {
        return String::from_str(
            alloc,
            "listset: it isn't known whether an order of whole calls explains this: calls one at a time lead to over 32,000 states\n",
        );
    }
    let words = words_of(alloc, head)?;
    if let ["hopeless", ..] = words.as_slice() {
        return hopeless(alloc, history, words.as_slice());
    }
    let left = left_out(alloc, history, words.as_slice())?;
    let first = "listset: if the calls run one at a time in this order, they answer as here\n";
    if left.is_empty() {
        return String::from_str(alloc, first);
    }
    let all = listed(alloc, left.as_slice())?;
    format!(in alloc;
        "{first}listset: not in it are calls that didn't end, which may be left out: {all}\n"
    )
}
