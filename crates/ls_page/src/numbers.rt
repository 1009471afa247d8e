// The numbers of the texts that the rows of a graph and the ends of calls have.

ghost use Rattle.std.specs.Prelude.{◌≡◌, IfOk, OnOk, map, string_bytes};
ghost use Rattle.ls_checked.specs.PlainProgram.{plain_program};
ghost use Rattle.ls_choices.specs.Seen.{row_of};
ghost use Rattle.ls_transitions.specs.Tables.{Keeps};
ghost use Rattle.ls_page.specs.Numbers.{AreAllNumbers, AreNumbers, after_rows, end_lines, event_line};
ghost use Rattle.ls_page.specs.Numbers.{lines_of_ends, numbers_in, row_words, texts_in};

use crate::table::Table;
use ls_automaton::outcome::Outcome;
use ls_checked::program::Program;
use ls_choices::rows::Row;
use ls_events::event::Event;
use ls_report::print_history;
use std::alloc::{AllocError, Global};

// The numbers of the words of rows.
fn numbers_of_rows(alloc: Global, table: &mut Table, rows: &[Row]) -> Result<Vec<usize>, AllocError>
    ensures numbers { IfOk result (λ v. AreNumbers (texts_in table.new) v.items (row_words (map row_of rows.now))) }
    ensures keeps { OnOk result (Keeps (texts_in table.old) (texts_in table.new)) }
{
    let mut numbers = Vec::new(alloc);
    for row in rows {
        let number = table.number(alloc, row.words.as_str())?;
        numbers.push(number)?;
    }
    Ok(numbers)
}

/// The numbers of the words of the rows of each state. The only refusal is that memory ran out.
pub(crate) fn numbers_of_states(
    alloc: Global,
    table: &mut Table,
    all: &[Vec<Row>],
) -> Result<Vec<Vec<usize>>, AllocError>
    ensures numbers { IfOk result (λ v. AreAllNumbers (texts_in table.new) (numbers_in v.items)
        (map row_words (map (λ r. map row_of r.items) all.now))) }
    ensures keeps { OnOk result (Keeps (texts_in table.old) (texts_in table.new)) }
{
    let mut numbers = Vec::new(alloc);
    for rows in all {
        let more = numbers_of_rows(alloc, table, rows)?;
        numbers.push(more)?;
    }
    Ok(numbers)
}

// The line of an event.
fn line_of(alloc: Global, program: &Program, event: &Event) -> Result<String, AllocError>
    ensures { IfOk result (λ s. string_bytes s ≡ event_line (plain_program program.now) event.now) }
{
    print_history(alloc, &[*event], program)
}

// The numbers of the lines of the ends of calls.
fn numbers_of_ends(
    alloc: Global,
    table: &mut Table,
    program: &Program,
    row: &[Outcome],
) -> Result<Vec<usize>, AllocError>
    ensures numbers { IfOk result (λ v. AreNumbers (texts_in table.new) v.items
        (end_lines (plain_program program.now) row.now)) }
    ensures keeps { OnOk result (Keeps (texts_in table.old) (texts_in table.new)) }
{
    let mut numbers = Vec::new(alloc);
    for outcome in row {
        let line = line_of(alloc, program, &outcome.end)?;
        let number = table.number(alloc, line.as_str())?;
        numbers.push(number)?;
    }
    Ok(numbers)
}

/// The numbers of the lines of the ends of calls in each state between calls. The only refusal is that memory ran out.
pub(crate) fn numbers_of_outcomes(
    alloc: Global,
    table: &mut Table,
    program: &Program,
    rows: &[Vec<Outcome>],
) -> Result<Vec<Vec<usize>>, AllocError>
    ensures numbers { IfOk result (λ v. AreAllNumbers (texts_in table.new) (numbers_in v.items)
        (lines_of_ends (plain_program program.now) rows.now)) }
    ensures keeps { OnOk result (Keeps (texts_in table.old) (texts_in table.new)) }
{
    let mut numbers = Vec::new(alloc);
    for row in rows {
        let more = numbers_of_ends(alloc, table, program, row)?;
        numbers.push(more)?;
    }
    Ok(numbers)
}

// The state after an outcome.
fn state_after(outcome: &Outcome) -> usize
    ensures { result ≡ outcome.now.after }
{
    outcome.after
}

// The states after these outcomes.
fn row_after(alloc: Global, row: &[Outcome]) -> Result<Vec<usize>, AllocError>
    ensures { IfOk result (λ v. v.items ≡ map (λ o. o.after) row.now) }
{
    row.iter().map(state_after).collect(alloc)
}

/// The states after the outcomes of each state between calls. The only refusal is that memory ran out.
pub(crate) fn states_after(
    alloc: Global,
    rows: &[Vec<Outcome>],
) -> Result<Vec<Vec<usize>>, AllocError>
    ensures { IfOk result (λ v. numbers_in v.items ≡ after_rows rows.now) }
{
    let mut after = Vec::new(alloc);
    for row in rows {
        after.push(row_after(alloc, row)?)?;
    }
    Ok(after)
}
