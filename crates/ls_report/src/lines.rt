// The lines of a history.

ghost use Rattle.std.specs.Prelude.{◌≡◌, ◌++◌, OnOk, IfOk, map, string_bytes};
ghost use Rattle.ls_report.specs.Events.{Called, Made, Returned, Trapped};
ghost use Rattle.ls_report.specs.Lines.{
  arguments_text,
  event_text,
  history_text,
  kind_text,
  line,
  more_arguments,
  occurrence_text,
  value_text,
};
ghost use Rattle.ls_report.specs.Plain.{plain_event, plain_occurrence};

use crate::history::{NamedEvent, Occurrence};
use ls_events::kind::Kind;
use ls_events::value::Value;
use std::alloc::{AllocError, Global};
use std::fmt::Write;

/// The exception's class.
pub fn kind_name(kind: Kind) -> &'static str
    ensures { result.now ≡ kind_text kind }
{
    match kind {
        Kind::Arithmetic => "ArithmeticException",
        Kind::NullPointer => "NullPointerException",
        Kind::ArrayIndexOutOfBounds => "ArrayIndexOutOfBoundsException",
        Kind::NegativeArraySize => "NegativeArraySizeException",
        Kind::IllegalMonitorState => "IllegalMonitorStateException",
        Kind::StackOverflow => "StackOverflowError",
        Kind::Error => "Error",
    }
}

/// Adds the text of a value. The only refusal is that memory ran out.
pub(crate) fn push_value(out: &mut String, value: Value) -> Result<(), AllocError>
    ensures { OnOk result (string_bytes out.new ≡ string_bytes out.old ++ value_text value) }
{
    match value {
        Value::Int(n) => write!(out, "{n}"),
        Value::Boolean(b) => write!(out, "{b}"),
        Value::Reference(_) => Ok(()),
        Value::Pair { .. } => Ok(()),
    }
}

fn push_more(out: &mut String, values: &[Value]) -> Result<(), AllocError>
    ensures { OnOk result (string_bytes out.new ≡ string_bytes out.old ++ more_arguments values.now) }
{
    for value in values {
        out.push_str(", ")?;
        push_value(out, *value)?;
    }
    Ok(())
}

/// Adds the text of arguments, with a comma and a space between them. The only refusal is that memory ran out.
pub(crate) fn push_arguments(out: &mut String, values: &[Value]) -> Result<(), AllocError>
    ensures { OnOk result (string_bytes out.new ≡ string_bytes out.old ++ arguments_text values.now) }
{
    match values {
        [] => Ok(()),
        [first, others @ ..] => {
            push_value(out, *first)?;
            push_more(out, others)
        }
    }
}

/// Adds the text of a making. The only refusal is that memory ran out.
pub(crate) fn push_made(
    out: &mut String,
    object: &str,
    class: &str,
    arguments: &[Value],
) -> Result<(), AllocError>
    ensures { OnOk result (string_bytes out.new ≡ string_bytes out.old ++
        occurrence_text (Made object.now class.now arguments.now)) }
{
    out.push_str("call ")?;
    out.push_str(object)?;
    out.push_str(" = new ")?;
    out.push_str(class)?;
    out.push_str("(")?;
    push_arguments(out, arguments)?;
    out.push_str(")")
}

/// Adds the text of a call of a method. The only refusal is that memory ran out.
pub(crate) fn push_called(
    out: &mut String,
    object: &str,
    method: &str,
    arguments: &[Value],
) -> Result<(), AllocError>
    ensures { OnOk result (string_bytes out.new ≡ string_bytes out.old ++
        occurrence_text (Called object.now method.now arguments.now)) }
{
    out.push_str("call ")?;
    out.push_str(object)?;
    out.push_str(".")?;
    out.push_str(method)?;
    out.push_str("(")?;
    push_arguments(out, arguments)?;
    out.push_str(")")
}

/// Adds the text of a return, with a value or without. The only refusal is that memory ran out.
pub(crate) fn push_returned(out: &mut String, value: Option<Value>) -> Result<(), AllocError>
    ensures { OnOk result (string_bytes out.new ≡ string_bytes out.old ++ occurrence_text (Returned value)) }
{
    match value {
        None => out.push_str("return"),
        Some(value) => {
            out.push_str("return ")?;
            push_value(out, value)
        }
    }
}

/// Adds the text of a trap. The only refusal is that memory ran out.
pub(crate) fn push_trapped(out: &mut String, kind: Kind) -> Result<(), AllocError>
    ensures { OnOk result (string_bytes out.new ≡ string_bytes out.old ++ occurrence_text (Trapped kind)) }
{
    out.push_str("trap ")?;
    out.push_str(kind_name(kind))
}

fn push_occurrence(out: &mut String, occurrence: &Occurrence<'_>) -> Result<(), AllocError>
    ensures { OnOk result (string_bytes out.new ≡ string_bytes out.old ++
        occurrence_text (plain_occurrence occurrence.now)) }
{
    match occurrence {
        Occurrence::Made {
            object,
            class,
            arguments,
        } => push_made(out, object, class, arguments.as_slice()),
        Occurrence::Called {
            object,
            method,
            arguments,
        } => push_called(out, object, method, arguments.as_slice()),
        Occurrence::Returned(value) => push_returned(out, *value),
        Occurrence::Trapped(kind) => push_trapped(out, *kind),
    }
}

/// Adds the event's line without its line feed. The only refusal is that memory ran out.
fn push_event(out: &mut String, event: &NamedEvent<'_>) -> Result<(), AllocError>
    ensures { OnOk result (string_bytes out.new ≡ string_bytes out.old ++ event_text (plain_event event.now)) }
{
    let call = event.call;
    out.push_str(event.thread)?;
    out.push_str(".")?;
    write!(out, "{call}")?;
    out.push_str(" ")?;
    push_occurrence(out, &event.occurrence)
}

fn push_line(out: &mut String, event: &NamedEvent<'_>) -> Result<(), AllocError>
    ensures { OnOk result (string_bytes out.new ≡ string_bytes out.old ++ line (plain_event event.now)) }
{
    push_event(out, event)?;
    out.push_str("\n")
}

/// A line for each event. The only refusal is that memory ran out.
pub(crate) fn text_of(alloc: Global, events: &[NamedEvent<'_>]) -> Result<String, AllocError>
    ensures { IfOk result (λ text. string_bytes text ≡ history_text (map plain_event events.now)) }
{
    let mut out = String::new(alloc);
    for event in events {
        push_line(&mut out, event)?;
    }
    Ok(out)
}
