// What is told beside a run that ends well, by what it read and what it printed.

use crate::kept::Kept;
use crate::planning::Task;
use ls_notes::{explained, has_step, pending, undone};
use ls_outlets::{Outlet, Watched, write_out};
use std::alloc::{AllocError, Global};
use std::io;
use std::sync::Wait;
use std::thread::Threads;

/// What is told beside a run.
#[derive(Debug, Copy)]
pub(crate) enum Telling {
    Nothing,
    /// That the schedule has no step, if it has none.
    Steps,
    /// The same, and what the threads go on with.
    Threads,
    /// The same, and which calls haven't returned.
    Calls,
    /// What an order comes to.
    Order,
}

impl Clone for Telling {
    fn clone(&self) -> Result<Telling, AllocError> {
        Ok(*self)
    }
}

/// What is told beside a command, where it is to explain itself or not.
pub(crate) fn telling_of(command: &str, explains: bool) -> Telling {
    match command {
        "source" if explains => Telling::Threads,
        "replay" if explains => Telling::Calls,
        "order" if explains => Telling::Order,
        "source" | "replay" | "trace" => Telling::Steps,
        _ => Telling::Nothing,
    }
}

/// The words for `state` in the place of those for `source`, without `--explain`.
fn words_of_state(alloc: Global, words: &[String]) -> Result<Vec<String>, AllocError> {
    let mut state = Vec::with_capacity(alloc, words.len())?;
    let mut are_names = false;
    for (i, word) in words.iter().enumerate() {
        if i == 1 {
            state.push(String::from_str(alloc, "state")?)?;
        } else if are_names || word.as_str() != "--explain" {
            are_names = are_names || word.as_str() == "--names";
            state.push(String::from_str(alloc, word.as_str())?)?;
        }
    }
    Ok(state)
}

/// What `state` shows of the run that `source` made, or nothing if it shows none.
fn state_of<H: Threads + Wait + Sync>(
    rt: &H,
    alloc: Global,
    words: &[String],
    input: &[u8],
) -> Result<String, AllocError> {
    let state = words_of_state(alloc, words)?;
    let mut out = Kept::new(alloc, io::sink());
    let mut err = Watched::new(io::sink());
    let mut reader = input;
    let exit = ls_tool::run(rt, alloc, state.as_slice(), &mut reader, &mut out, &mut err);
    match out.kept() {
        Some(shown) if exit.status == 0 => String::from_utf8_lossy(alloc, shown),
        _ => Ok(String::new(alloc)),
    }
}

const NO_STEP: &str =
    "listset: the schedule has no step, so nothing was run. It says who takes how many steps, as: \
     setup*9 A*5 B*5\n";

/// What is told beside a run that has ended well.
fn note_of<H: Threads + Wait + Sync>(
    rt: &H,
    alloc: Global,
    task: &Task,
    input: &[u8],
    printed: &[u8],
) -> Result<String, AllocError> {
    let text = String::from_utf8_lossy(alloc, input)?;
    let shown = String::from_utf8_lossy(alloc, printed)?;
    let steps = if has_step(text.as_str()) { "" } else { NO_STEP };
    match task.telling {
        Telling::Nothing => Ok(String::new(alloc)),
        Telling::Steps => String::from_str(alloc, steps),
        Telling::Threads => {
            let state = state_of(rt, alloc, task.words.as_slice(), input)?;
            let left = undone(alloc, state.as_str())?;
            format!(in alloc; "{left}{steps}")
        }
        Telling::Calls => {
            let left = pending(alloc, shown.as_str())?;
            format!(in alloc; "{left}{steps}")
        }
        Telling::Order => explained(alloc, text.as_str(), shown.as_str()),
    }
}

/// Tells on standard error what is told beside a run that has ended well. Where memory lacks, nothing is.
pub(crate) fn tell<H: Threads + Wait + Sync, E: Outlet>(
    rt: &H,
    alloc: Global,
    task: &Task,
    input: &[u8],
    printed: &[u8],
    err: &mut E,
) {
    if let Ok(note) = note_of(rt, alloc, task, input, printed) {
        if !note.is_empty() {
            let _ = write_out(err, note.as_bytes());
        }
    }
}
