// Objects and values in words.

ghost use Rattle.std.specs.Prelude.{◌≡◌, ◌++◌, OnOk, option_map, string_bytes};
ghost use Rattle.ls_labels.specs.Labels.{label_at};
ghost use Rattle.ls_labels.specs.Names.{names_of};
ghost use Rattle.ls_labels.specs.Objects.{label_text, object_text, value_text};
ghost use Rattle.ls_labels.specs.Labelled.{labelled_text};
ghost use Rattle.ls_report.specs.Lines.{boolean_text};
ghost use Rattle.ls_events.specs.declared.value.Value.TheVariants.{Pair};

use crate::label::Label;
use crate::names::{Names, class_name};
use crate::numbers::{push_int, push_number};
use ls_events::value::Value;
use std::alloc::AllocError;

/// The class or type of the objects with a label.
pub fn label_name<'n>(names: Names<'n>, label: Label) -> &'n str
    ensures { result.now ≡ label_text (names_of names.entry) label }
{
    match label {
        Label::Class(class) => class_name(names, class),
        Label::Lock => "ReentrantLock",
        Label::Markable => "AtomicMarkableReference",
        Label::Array => "boolean[]",
    }
}

/// The label of an object, by its number; or none. Null, 0, has none.
pub fn label_at(labels: &[Label], object: u64) -> Option<Label>
    ensures { result ≡ label_at labels.now object }
{
    if object == 0 {
        return None;
    }
    labels.get((object - 1) as usize).copied()
}

/// Adds an object with this label, as `Node#3`, or `null`. The only refusal is that memory ran out.
pub fn add_labelled(
    out: &mut String,
    names: &Names,
    label: Option<Label>,
    object: u64,
) -> Result<(), AllocError>
    ensures { OnOk result (string_bytes out.new
        ≡ string_bytes out.old ++ labelled_text (names_of names.now) label object) }
{
    if object == 0 {
        return out.push_str("null");
    }
    if let Some(label) = label {
        out.push_str(label_name(*names, label))?;
    }
    out.push('#')?;
    push_number(out, object)
}

/// As `push_object`.
pub fn add_object(
    out: &mut String,
    names: &Names,
    labels: &[Label],
    object: u64,
) -> Result<(), AllocError>
    ensures { OnOk result (string_bytes out.new
        ≡ string_bytes out.old ++ object_text (names_of names.now) labels.now object) }
{
    add_labelled(out, names, label_at(labels, object), object)
}

/// Adds an object's class or type and its number, as `Node#3`, or `null`. The only refusal is that memory ran out.
pub fn push_object(
    out: &mut String,
    names: Names,
    labels: &[Label],
    object: u64,
) -> Result<(), AllocError>
    ensures { OnOk result (string_bytes out.new
        ≡ string_bytes out.old ++ object_text (names_of names.entry) labels.now object) }
{
    add_object(out, &names, labels, object)
}

pub(crate) fn boolean_words(boolean: bool) -> &'static str
    ensures { result.now ≡ boolean_text boolean }
{
    if boolean { "true" } else { "false" }
}

// A reference and a mark, as `(Node#4, false)`.
fn add_pair(
    out: &mut String,
    names: &Names,
    labels: &[Label],
    reference: u64,
    mark: bool,
) -> Result<(), AllocError>
    ensures { OnOk result (string_bytes out.new
        ≡ string_bytes out.old ++ value_text (names_of names.now) labels.now (Pair reference mark)) }
{
    out.push('(')?;
    add_object(out, names, labels, reference)?;
    out.push_str(", ")?;
    out.push_str(boolean_words(mark))?;
    out.push(')')
}

/// As `push_value`.
pub fn add_value(
    out: &mut String,
    names: &Names,
    labels: &[Label],
    value: &Value,
) -> Result<(), AllocError>
    ensures { OnOk result (string_bytes out.new
        ≡ string_bytes out.old ++ value_text (names_of names.now) labels.now value.now) }
{
    match value {
        Value::Int(n) => push_int(out, *n),
        Value::Boolean(b) => out.push_str(boolean_words(*b)),
        Value::Reference(object) => add_object(out, names, labels, *object),
        Value::Pair { reference, mark } => add_pair(out, names, labels, *reference, *mark),
    }
}

/// Adds a value, as `5`, `true`, `Node#3` or `(Node#4, false)`. The only refusal is that memory ran out.
pub fn push_value(
    out: &mut String,
    names: Names,
    labels: &[Label],
    value: Value,
) -> Result<(), AllocError>
    ensures { OnOk result (string_bytes out.new
        ≡ string_bytes out.old ++ value_text (names_of names.entry) labels.now value) }
{
    add_value(out, &names, labels, &value)
}
