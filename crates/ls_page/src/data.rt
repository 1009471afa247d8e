// The data of a page.

ghost use Rattle.std.specs.Prelude.{◌≡◌, ◌-◌, ◌++◌, IfOk, OnOk, string_bytes, take, codes};
ghost use Rattle.ls_labels.specs.Names.{names_of};
ghost use Rattle.ls_state.specs.State.{state_text};
ghost use Rattle.ls_page.specs.Changes.{changes_text};
ghost use Rattle.ls_page.specs.Data.{before_text, field, head_text, history_text, judged_of, judged_text};
ghost use Rattle.ls_page.specs.Data.{ordered_page_text, page_text, rest_text, run_fields, texts_of, texts_text};
ghost use Rattle.ls_page.specs.Data.{told_text};

use crate::changes::told_changes;
use crate::parts::{Judged, Texts, Window};
use crate::quoted::push_quoted;
use ls_labels::names::Names;
use ls_report::print_history;
use ls_source::run::play;
use ls_state::state;
use std::alloc::{AllocError, Global};
use std::fmt::Write;

// Adds an entry of the object.
fn push_field(out: &mut String, key: &str, text: &str) -> Result<(), AllocError>
    ensures { OnOk result (string_bytes out.new ≡ string_bytes out.old ++ field key.now text.now) }
{
    write!(out, ",\"{key}\":")?;
    push_quoted(out, text)
}

/// The first `count` steps, or all if there are fewer.
pub fn first_steps(steps: &[u8], count: usize) -> &[u8]
    ensures { result.now ≡ take count steps.now }
{
    &steps[..count.min(steps.len())]
}

// The steps before a step. They are numbered from 1.
fn steps_before(steps: &[u8], from: usize) -> &[u8]
    ensures { result.now ≡ take (from - 1) steps.now }
{
    first_steps(steps, from.saturating_sub(1))
}

/// What `source` prints of a run: the history of its steps. The only refusal is that memory ran out.
pub fn history(alloc: Global, names: Names, steps: &[u8]) -> Result<String, AllocError>
    ensures { IfOk result (λ text. string_bytes text ≡ history_text (names_of names.entry) steps.now) }
{
    let events = play(alloc, names.file, names.program, steps)?;
    print_history(alloc, &events, names.program)
}

fn push_past(alloc: Global, out: &mut String, names: Names, steps: &[u8]) -> Result<(), AllocError>
    ensures { OnOk result (string_bytes out.new
        ≡ string_bytes out.old ++ field (codes "past") (history_text (names_of names.entry) steps.now)) }
{
    let text = history(alloc, names, steps)?;
    push_field(out, "past", text.as_str())
}

fn push_state(
    alloc: Global,
    out: &mut String,
    names: Names,
    key: &str,
    steps: &[u8],
) -> Result<(), AllocError>
    ensures { OnOk result (string_bytes out.new
        ≡ string_bytes out.old ++ field key.now (state_text (names_of names.entry) steps.now)) }
{
    let text = state(alloc, names, steps)?;
    push_field(out, key, text.as_str())
}

// Adds what is told of the steps that are shown.
fn push_trace(
    alloc: Global,
    out: &mut String,
    names: Names,
    steps: &[u8],
    window: Window,
) -> Result<(), AllocError>
    ensures { OnOk result (string_bytes out.new ≡ string_bytes out.old
        ++ field (codes "trace") (changes_text (names_of names.entry) steps.now window.from window.to)) }
{
    let text = told_changes(alloc, names, steps, window)?;
    push_field(out, "trace", text.as_str())
}

// Adds the format's number, and those of the first and the last step that are shown.
fn push_head(out: &mut String, from: usize, to: usize) -> Result<(), AllocError>
    ensures { OnOk result (string_bytes out.new ≡ string_bytes out.old ++ head_text from to) }
{
    write!(out, "{{\"listset\":2,\"from\":{from},\"to\":{to}")
}

// Adds what the run comes from.
fn push_texts(out: &mut String, texts: Texts) -> Result<(), AllocError>
    ensures { OnOk result (string_bytes out.new ≡ string_bytes out.old ++ texts_text (texts_of texts.entry)) }
{
    push_field(out, "classes", texts.classes)?;
    push_field(out, "program", texts.program)?;
    push_field(out, "schedule", texts.schedule)
}

// Adds what was before the first step that is shown.
fn push_before(
    alloc: Global,
    out: &mut String,
    names: Names,
    steps: &[u8],
) -> Result<(), AllocError>
    ensures { OnOk result (string_bytes out.new
        ≡ string_bytes out.old ++ before_text (names_of names.entry) steps.now) }
{
    push_past(alloc, out, names, steps)?;
    push_state(alloc, out, names, "before", steps)
}

// Adds the steps that are shown, and the state after them.
fn push_rest(
    alloc: Global,
    out: &mut String,
    names: Names,
    steps: &[u8],
    window: Window,
) -> Result<(), AllocError>
    ensures { OnOk result (string_bytes out.new
        ≡ string_bytes out.old ++ rest_text (names_of names.entry) steps.now window.from window.to) }
{
    push_trace(alloc, out, names, steps, window)?;
    push_state(alloc, out, names, "after", first_steps(steps, window.to))
}

// Adds what was before, and the steps that are shown.
fn push_told(
    alloc: Global,
    out: &mut String,
    names: Names,
    steps: &[u8],
    window: Window,
) -> Result<(), AllocError>
    ensures { OnOk result (string_bytes out.new
        ≡ string_bytes out.old ++ told_text (names_of names.entry) steps.now window.from window.to) }
{
    push_before(alloc, out, names, steps_before(steps, window.from))?;
    push_rest(alloc, out, names, steps, window)?;
    Ok(())
}

// Adds the object without its end.
fn push_run(
    alloc: Global,
    out: &mut String,
    names: Names,
    texts: Texts,
    steps: &[u8],
    window: Window,
) -> Result<(), AllocError>
    ensures { OnOk result (string_bytes out.new ≡ string_bytes out.old
        ++ run_fields (names_of names.entry) (texts_of texts.entry) steps.now window.from window.to) }
{
    let to = first_steps(steps, window.to).len();
    push_head(out, window.from, to)?;
    push_texts(out, texts)?;
    push_told(alloc, out, names, steps, window)?;
    Ok(())
}

// Adds an order and the verdict on it.
fn push_judged(out: &mut String, judged: Judged) -> Result<(), AllocError>
    ensures { OnOk result (string_bytes out.new ≡ string_bytes out.old ++ judged_text (judged_of judged.entry)) }
{
    push_field(out, "order", judged.order)?;
    push_field(out, "verdict", judged.verdict)
}

/// The data of a page on the run of a schedule: a JSON object in one line, which shows the steps of the window. The
/// steps of the schedule are numbers of threads. The only refusal is that memory ran out.
pub fn page_data(
    alloc: Global,
    names: Names,
    texts: Texts,
    steps: &[u8],
    window: Window,
) -> Result<String, AllocError>
    ensures { IfOk result (λ text. string_bytes text
        ≡ page_text (names_of names.entry) (texts_of texts.entry) steps.now window.from window.to) }
{
    let mut out = String::new(alloc);
    push_run(alloc, &mut out, names, texts, steps, window)?;
    out.push_str("}\n")?;
    Ok(out)
}

/// The same with an order of the run's calls, and what `check` says of the order. The only refusal is that memory ran
/// out.
pub fn page_data_with_order(
    alloc: Global,
    names: Names,
    texts: Texts,
    steps: &[u8],
    window: Window,
    judged: Judged,
) -> Result<String, AllocError>
    ensures { IfOk result (λ text. string_bytes text
        ≡ ordered_page_text (names_of names.entry) (texts_of texts.entry) steps.now window.from window.to
        (judged_of judged.entry)) }
{
    let mut out = String::new(alloc);
    push_run(alloc, &mut out, names, texts, steps, window)?;
    push_judged(&mut out, judged)?;
    out.push_str("}\n")?;
    Ok(out)
}
