// What a run left undone.

use crate::lists::has;
use std::alloc::{AllocError, Global};

/// Whether a line of what `state` shows tells of the setup.
fn is_setup(line: &str) -> bool {
    if line.starts_with("setup has ended") {
        return true;
    }
    let Some(rest) = line.strip_prefix("setup.") else {
        return false;
    };
    match rest.split_once(' ') {
        Some((number, _)) => !number.is_empty() && number.bytes().all(|b| b.is_ascii_digit()),
        None => false,
    }
}

/// Whether a line of what `state` shows tells of a thread that goes on.
fn goes_on(line: &str) -> bool {
    !line.ends_with(" has ended")
        && !line.ends_with(" has ended with a trap")
        && !line.contains(" never starts: ")
}

/// What a run from the Java text left undone, by what `state` shows after it: nothing, or what the threads go on with.
pub fn undone(alloc: Global, state: &str) -> Result<String, AllocError> {
    let mut is_behind = false;
    let mut left = String::new(alloc);
    for line in state.lines() {
        if !is_behind && is_setup(line) {
            is_behind = true;
            if line.starts_with("setup.") {
                return format!(in alloc;
                    "listset: the setup hasn't ended, so no thread has started. It goes on with: {line}\n"
                );
            }
        } else if is_behind && goes_on(line) {
            left.push_str("listset: ")?;
            left.push_str(line)?;
            left.push_str("\n")?;
        }
    }
    if left.is_empty() {
        return Ok(left);
    }
    format!(in alloc;
        "listset: the schedule ends before these threads do, which go on with:\n{left}"
    )
}

/// The call that a line of a history tells of, if the line tells of what `event` says.
fn call_in<'a>(line: &'a str, event: &str) -> Option<&'a str> {
    let (name, rest) = line.split_once(' ')?;
    let told = match rest.split_once(' ') {
        Some((told, _)) => told,
        None => rest,
    };
    if told == event { Some(name) } else { None }
}

/// The calls of a history that haven't ended.
fn open_calls<'a>(alloc: Global, history: &'a str) -> Result<Vec<&'a str>, AllocError> {
    let mut ended = Vec::new(alloc);
    for line in history.lines() {
        if let Some(name) = call_in(line, "return") {
            ended.push(name)?;
        }
        if let Some(name) = call_in(line, "trap") {
            ended.push(name)?;
        }
    }
    let mut open = Vec::new(alloc);
    for line in history.lines() {
        if let Some(name) = call_in(line, "call") {
            if !has(ended.as_slice(), name) {
                open.push(name)?;
            }
        }
    }
    Ok(open)
}

/// What a run of instructions left undone, by its history: nothing, or the calls that haven't returned.
pub fn pending(alloc: Global, history: &str) -> Result<String, AllocError> {
    let open = open_calls(alloc, history)?;
    if open.is_empty() {
        return Ok(String::new(alloc));
    }
    let mut names = String::new(alloc);
    for name in open.as_slice() {
        names.push_str(" ")?;
        names.push_str(name)?;
    }
    format!(in alloc;
        "listset: not returned:{names}. The schedule ends before that, a lock is waited for, or the cells don't suffice\n"
    )
}
