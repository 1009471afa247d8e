// Steps that are told in one line.

ghost use Rattle.std.specs.Prelude.{◌≡◌, ◌++◌, [], OnOk, string_bytes};
ghost use Rattle.ls_trace.specs.Folds.{count_text, fold_line, many_text, numbers_text, range_text, takes_in};
ghost use Rattle.ls_trace.specs.Manners.{same_manner};
ghost use Rattle.ls_trace.specs.SeenFolder.{fold_of};

use crate::manner::Manner;
use ls_labels::numbers::push_number;
use std::alloc::AllocError;
use std::fmt::Write;

/// Of steps that are told in one line: the numbers of the first and the last, in the schedule and among the steps of
/// their thread. Also their thread, and how they are told.
#[derive(Clone, Copy)]
pub(crate) struct Span {
    pub(crate) number: usize,
    pub(crate) last: usize,
    pub(crate) own: usize,
    pub(crate) own_last: usize,
    pub(crate) thread: usize,
    pub(crate) manner: Manner,
}

fn same_manner(first: Manner, second: Manner) -> bool
    ensures { result ≡ same_manner first second }
{
    match (first, second) {
        (Manner::Look, Manner::Look) => true,
        (Manner::Attempt, Manner::Attempt) => true,
        (Manner::Wait, Manner::Wait) => true,
        (Manner::Rest, Manner::Rest) => true,
        _ => false,
    }
}

/// Whether the next step is told in the line of those before it.
pub(crate) fn takes_in(span: Span, next: Span) -> bool
    ensures { result ≡ takes_in (fold_of span []) (fold_of next []) }
{
    span.thread == next.thread && same_manner(span.manner, next.manner)
}

/// The same steps and the next one.
pub(crate) fn with_next(span: Span, next: Span) -> Span
    ensures { result ≡ record {
      number = span.number;
      last = next.last;
      own = span.own;
      own_last =
          next.own_last;
      thread = span.thread;
      manner = span.manner;
    } }
{
    Span {
        number: span.number,
        last: next.last,
        own: span.own,
        own_last: next.own_last,
        thread: span.thread,
        manner: span.manner,
    }
}

// Adds a number, or the first and the last of several.
fn push_range(out: &mut String, first: usize, last: usize) -> Result<(), AllocError>
    ensures { OnOk result (string_bytes out.new ≡ string_bytes out.old ++ range_text first last) }
{
    push_number(out, first as u64)?;
    if first == last {
        return Ok(());
    }
    out.push('-')?;
    push_number(out, last as u64)
}

// Adds what is told of so many steps.
fn push_many(out: &mut String, manner: Manner, count: u128) -> Result<(), AllocError>
    ensures { OnOk result (string_bytes out.new ≡ string_bytes out.old ++ many_text manner count) }
{
    match manner {
        Manner::Alone => Ok(()),
        Manner::Look => write!(out, ", last of {count} steps that change nothing"),
        Manner::Attempt => write!(out, ", last of {count} attempts that fail"),
        Manner::Wait | Manner::Rest => write!(out, ", for {count} steps"),
    }
}

// Adds how many steps there are, if there are several.
fn push_count(out: &mut String, span: Span) -> Result<(), AllocError>
    ensures { OnOk result (string_bytes out.new ≡ string_bytes out.old ++ count_text (fold_of span [])) }
{
    if span.number == span.last {
        return Ok(());
    }
    let count = span.last.saturating_sub(span.number) as u128 + 1;
    push_many(out, span.manner, count)
}

// Adds the numbers of the steps.
fn push_numbers(out: &mut String, span: Span) -> Result<(), AllocError>
    ensures { OnOk result (string_bytes out.new ≡ string_bytes out.old ++ numbers_text (fold_of span [])) }
{
    push_range(out, span.number, span.last)?;
    out.push_str(" (")?;
    push_range(out, span.own, span.own_last)?;
    out.push_str(") ")
}

/// Adds the line of these steps, of the last of which these words are told.
pub(crate) fn push_fold(out: &mut String, span: Span, words: &str) -> Result<(), AllocError>
    ensures { OnOk result (string_bytes out.new ≡ string_bytes out.old ++ fold_line (fold_of span words.now)) }
{
    push_numbers(out, span)?;
    out.push_str(words)?;
    push_count(out, span)?;
    out.push('\n')
}
