// Parts of a page's data.

ghost use Rattle.std.specs.Prelude.{◌≡◌, ◌++◌, IfOk, OnOk, length, string_bytes};
ghost use Rattle.ls_labels.specs.Names.{names_of};
ghost use Rattle.ls_choices.specs.Laws.{whole_trace};
ghost use Rattle.ls_page.specs.Data.{field};
ghost use Rattle.ls_page.specs.Lists.{comma, number_text, truth_text};

use crate::push_quoted;
use ls_labels::names::Names;
use ls_trace::trace;
use std::alloc::{AllocError, Global};
use std::fmt::Write;

/// Adds an entry of the object.
pub(crate) fn push_field(out: &mut String, key: &str, text: &str) -> Result<(), AllocError>
    ensures { OnOk result (string_bytes out.new ≡ string_bytes out.old ++ field key.now text.now) }
{
    write!(out, ",\"{key}\":")?;
    push_quoted(out, text)
}

/// Adds what stands before an element of a list.
pub(crate) fn push_comma(out: &mut String, place: usize) -> Result<(), AllocError>
    ensures { OnOk result (string_bytes out.new ≡ string_bytes out.old ++ comma place) }
{
    if place == 0 {
        return Ok(());
    }
    out.push(',')
}

/// Adds the number of a state, or -1 where there is none.
pub(crate) fn push_number(out: &mut String, number: Option<usize>) -> Result<(), AllocError>
    ensures { OnOk result (string_bytes out.new ≡ string_bytes out.old ++ number_text number) }
{
    match number {
        None => out.push_str("-1"),
        Some(number) => write!(out, "{number}"),
    }
}

/// Adds a truth value.
pub(crate) fn push_truth(out: &mut String, truth: bool) -> Result<(), AllocError>
    ensures { OnOk result (string_bytes out.new ≡ string_bytes out.old ++ truth_text truth) }
{
    if truth {
        return out.push_str("true");
    }
    out.push_str("false")
}

/// What `trace` prints of all steps of a schedule. The only refusal is that memory ran out.
pub(crate) fn whole_trace(alloc: Global, names: Names, steps: &[u8]) -> Result<String, AllocError>
    ensures { IfOk result (λ text. string_bytes text ≡ whole_trace (names_of names.entry) steps.now) }
{
    trace(alloc, names, steps, 1, steps.len())
}
