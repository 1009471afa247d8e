// The ends of a graph as JSON.

ghost use Rattle.std.specs.Prelude.{◌≡◌, ◌++◌, [], IfOk, OnOk, map, slice_index_or, string_bytes};
ghost use Rattle.ls_labels.specs.Names.{names_of};
ghost use Rattle.ls_state.specs.Parts.{numbered};
ghost use Rattle.ls_state.specs.State.{state_text};
ghost use Rattle.ls_choices.specs.Seen.{graph_of, row_of};
ghost use Rattle.ls_page.specs.Lists.{element};
ghost use Rattle.ls_page.specs.States.{end_text, ends_from, ends_text, is_end, told_text, waits_in};

use crate::choices_parts::{push_comma, push_truth};
use crate::push_quoted;
use ls_choices::graph::Choices;
use ls_choices::rows::Row;
use ls_labels::names::Names;
use ls_state::state;
use std::alloc::{AllocError, Global};
use std::fmt::Write;

// Whether no thread acts.
fn is_end(rows: &[Row]) -> bool
    ensures { result ≡ is_end (map row_of rows.now) }
{
    for row in rows {
        if row.acts {
            return false;
        }
    }
    true
}

// Whether a thread waits.
fn waits_in(rows: &[Row]) -> bool
    ensures { result ≡ waits_in (map row_of rows.now) }
{
    for row in rows {
        if row.waits {
            return true;
        }
    }
    false
}

// The numbers of the ends.
fn ends_of(alloc: Global, all: &[Vec<Row>]) -> Result<Vec<usize>, AllocError>
    ensures { IfOk result (λ v. v.items ≡ ends_from 0 (map (λ v. map row_of v.items) all.now)) }
{
    let mut ends = Vec::new(alloc);
    for (number, rows) in all.iter().enumerate() {
        if is_end(rows) {
            ends.push(number)?;
        }
    }
    Ok(ends)
}

// The rows of a state, or none.
fn rows_at(all: &[Vec<Row>], number: usize) -> &[Row]
    ensures { map row_of result.now ≡ slice_index_or (map (λ v. map row_of v.items) all.now) number [] }
{
    match all.get(number) {
        Some(rows) => rows.as_slice(),
        None => &[],
    }
}

// The path of a state, or none.
fn path_at(paths: &[Vec<u8>], number: usize) -> &[u8]
    ensures { result.now ≡ slice_index_or (map (λ p. p.items) paths.now) number [] }
{
    match paths.get(number) {
        Some(path) => path.as_slice(),
        None => &[],
    }
}

// Adds what is told of an end.
fn push_told(out: &mut String, number: usize, words: &str, waits: bool) -> Result<(), AllocError>
    ensures { OnOk result (string_bytes out.new ≡ string_bytes out.old ++ told_text number words.now waits) }
{
    write!(out, "[{number},")?;
    push_quoted(out, words)?;
    out.push_str(",")?;
    push_truth(out, waits)?;
    out.push_str("]")
}

// Adds an end.
fn push_end<'a>(
    alloc: Global,
    out: &mut String,
    names: Names<'a>,
    choices: &Choices,
    place: usize,
    number: usize,
) -> Result<(), AllocError>
    ensures { OnOk result (string_bytes out.new ≡ string_bytes out.old ++
        element (end_text (names_of names.entry) (graph_of choices.now)) place number) }
{
    let words = state(alloc, names, path_at(&choices.paths, number))?;
    let waits = waits_in(rows_at(&choices.rows, number));
    push_comma(out, place)?;
    push_told(out, number, words.as_str(), waits)?;
    Ok(())
}

// Adds these ends.
fn push_all_ends<'a>(
    alloc: Global,
    out: &mut String,
    names: Names<'a>,
    choices: &Choices,
    ends: &[usize],
) -> Result<(), AllocError>
    ensures { OnOk result (string_bytes out.new ≡ string_bytes out.old ++
        numbered (element (end_text (names_of names.entry) (graph_of choices.now))) 0 ends.now) }
{
    for (place, number) in ends.iter().enumerate() {
        push_end(alloc, out, names, choices, place, *number)?;
    }
    Ok(())
}

/// Adds the ends as a list. The only refusal is that memory ran out.
pub(crate) fn push_ends<'a>(
    alloc: Global,
    out: &mut String,
    names: Names<'a>,
    choices: &Choices,
) -> Result<(), AllocError>
    ensures { OnOk result (string_bytes out.new ≡ string_bytes out.old ++
        ends_text (names_of names.entry) (graph_of choices.now)) }
{
    let ends = ends_of(alloc, &choices.rows)?;
    out.push_str("[")?;
    push_all_ends(alloc, out, names, choices, &ends)?;
    out.push_str("]")?;
    Ok(())
}
