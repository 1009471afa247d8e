// Lists as JSON.

ghost use Rattle.std.specs.Prelude.{◌≡◌, ◌++◌, OnOk, map, string_bytes};
ghost use Rattle.std.specs.Fmt.{decimal};
ghost use Rattle.ls_choices.specs.Seen.{row_of};
ghost use Rattle.ls_page.specs.Quoted.{quoted};
ghost use Rattle.ls_state.specs.Parts.{numbered};
ghost use Rattle.ls_page.specs.Lists.{element, listed, lists_text, number_text};
ghost use Rattle.ls_page.specs.Numbers.{numbers_in};
ghost use Rattle.ls_page.specs.States.{targets_text};

use crate::choices_parts::{push_comma, push_number};
use crate::push_quoted;
use ls_choices::rows::Row;
use std::alloc::AllocError;
use std::fmt::Write;

// ---- numbers

fn push_element(out: &mut String, place: usize, number: usize) -> Result<(), AllocError>
    ensures { OnOk result (string_bytes out.new ≡ string_bytes out.old ++ element decimal place number) }
{
    push_comma(out, place)?;
    write!(out, "{number}")
}

fn push_elements(out: &mut String, numbers: &[usize]) -> Result<(), AllocError>
    ensures { OnOk result (string_bytes out.new ≡ string_bytes out.old ++ numbered (element decimal) 0 numbers.now) }
{
    for (place, number) in numbers.iter().enumerate() {
        push_element(out, place, *number)?;
    }
    Ok(())
}

fn push_numbers(out: &mut String, place: usize, numbers: &[usize]) -> Result<(), AllocError>
    ensures { OnOk result (string_bytes out.new ≡ string_bytes out.old ++ element (listed decimal) place numbers.now) }
{
    push_comma(out, place)?;
    out.push_str("[")?;
    push_elements(out, numbers)?;
    out.push_str("]")
}

fn push_all_numbers(out: &mut String, all: &[Vec<usize>]) -> Result<(), AllocError>
    ensures { OnOk result (string_bytes out.new ≡
        string_bytes out.old ++ numbered (element (listed decimal)) 0 (numbers_in all.now)) }
{
    for (place, numbers) in all.iter().enumerate() {
        push_numbers(out, place, numbers)?;
    }
    Ok(())
}

/// Adds lists of numbers as a list.
pub(crate) fn push_lists(out: &mut String, all: &[Vec<usize>]) -> Result<(), AllocError>
    ensures { OnOk result (string_bytes out.new ≡ string_bytes out.old ++ lists_text (numbers_in all.now)) }
{
    out.push_str("[")?;
    push_all_numbers(out, all)?;
    out.push_str("]")?;
    Ok(())
}

// ---- where rows lead

fn push_target(out: &mut String, place: usize, row: &Row) -> Result<(), AllocError>
    ensures { OnOk result (string_bytes out.new ≡ string_bytes out.old ++
        element (λ row. number_text row.to) place (row_of row.now)) }
{
    push_comma(out, place)?;
    push_number(out, row.to)
}

fn push_row_targets(out: &mut String, rows: &[Row]) -> Result<(), AllocError>
    ensures { OnOk result (string_bytes out.new ≡ string_bytes out.old ++
        numbered (element (λ row. number_text row.to)) 0 (map row_of rows.now)) }
{
    for (place, row) in rows.iter().enumerate() {
        push_target(out, place, row)?;
    }
    Ok(())
}

fn push_targets_of(out: &mut String, place: usize, rows: &[Row]) -> Result<(), AllocError>
    ensures { OnOk result (string_bytes out.new ≡ string_bytes out.old ++
        element (listed (λ row. number_text row.to)) place (map row_of rows.now)) }
{
    push_comma(out, place)?;
    out.push_str("[")?;
    push_row_targets(out, rows)?;
    out.push_str("]")
}

fn push_all_targets(out: &mut String, all: &[Vec<Row>]) -> Result<(), AllocError>
    ensures { OnOk result (string_bytes out.new ≡ string_bytes out.old ++
        numbered (element (listed (λ row. number_text row.to))) 0 (map (λ v. map row_of v.items) all.now)) }
{
    for (place, rows) in all.iter().enumerate() {
        push_targets_of(out, place, rows)?;
    }
    Ok(())
}

/// Adds the numbers of the states to which each state's rows lead, as a list of lists.
pub(crate) fn push_targets(out: &mut String, all: &[Vec<Row>]) -> Result<(), AllocError>
    ensures { OnOk result (string_bytes out.new ≡
        string_bytes out.old ++ targets_text (map (λ v. map row_of v.items) all.now)) }
{
    out.push_str("[")?;
    push_all_targets(out, all)?;
    out.push_str("]")?;
    Ok(())
}

// ---- texts

fn push_text(out: &mut String, place: usize, text: &str) -> Result<(), AllocError>
    ensures { OnOk result (string_bytes out.new ≡ string_bytes out.old ++ element quoted place text.now) }
{
    push_comma(out, place)?;
    push_quoted(out, text)
}

fn push_all_texts(out: &mut String, texts: &[String]) -> Result<(), AllocError>
    ensures { OnOk result (string_bytes out.new ≡ string_bytes out.old ++
        numbered (element quoted) 0 (map string_bytes texts.now)) }
{
    for (place, text) in texts.iter().enumerate() {
        push_text(out, place, text.as_str())?;
    }
    Ok(())
}

/// Adds texts as a list of strings.
pub(crate) fn push_texts(out: &mut String, texts: &[String]) -> Result<(), AllocError>
    ensures { OnOk result (string_bytes out.new ≡ string_bytes out.old ++ listed quoted (map string_bytes texts.now)) }
{
    out.push_str("[")?;
    push_all_texts(out, texts)?;
    out.push_str("]")?;
    Ok(())
}
