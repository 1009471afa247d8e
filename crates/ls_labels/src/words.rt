// An action and its answer, in words.

ghost use Rattle.std.specs.Prelude.{◌≡◌, ◌++◌, OnOk, string_bytes};
ghost use Rattle.ls_labels.specs.Names.{names_of};
ghost use Rattle.ls_labels.specs.Objects.{object_text, value_text};
ghost use Rattle.ls_labels.specs.Labelled.{labelled_field};
ghost use Rattle.ls_report.specs.Printing.{run_words};
ghost use Rattle.ls_labels.specs.Words.{action_text, answer_text, field_text, item_text, move_text, operation_text};
ghost use Rattle.ls_labels.specs.Words.{performed_text, phrase_text};

use crate::label::Label;
use crate::names::{Names, class_name, field_name, push_method};
use crate::numbers::push_int;
use crate::objects::{add_labelled, add_object, add_value, boolean_words, label_at};
use ls_events::action::{Action, Answer};
use ls_events::event::{Event, Happening};
use ls_events::value::Value;
use ls_report::{kind_name, object_name, push_words};
use std::alloc::AllocError;

/// Adds a field of an object with this label, as `Node#3.next`. The only refusal is that memory ran out.
pub fn add_labelled_field(
    out: &mut String,
    names: &Names,
    label: Option<Label>,
    object: u64,
    field: usize,
) -> Result<(), AllocError>
    ensures { OnOk result (string_bytes out.new
        ≡ string_bytes out.old ++ labelled_field (names_of names.now) label object field) }
{
    add_labelled(out, names, label, object)?;
    out.push('.')?;
    match label {
        Some(Label::Class(class)) => out.push_str(field_name(*names, class, field)),
        _ => Ok(()),
    }
}

// A field of an object, as `Node#3.next`.
fn add_field(
    out: &mut String,
    names: &Names,
    labels: &[Label],
    object: u64,
    field: usize,
) -> Result<(), AllocError>
    ensures { OnOk result (string_bytes out.new
        ≡ string_bytes out.old ++ field_text (names_of names.now) labels.now object field) }
{
    add_labelled_field(out, names, label_at(labels, object), object, field)
}

// An item of an array, as `boolean[]#7[2]`.
fn push_item(
    out: &mut String,
    names: &Names,
    labels: &[Label],
    array: u64,
    index: i32,
) -> Result<(), AllocError>
    ensures { OnOk result (string_bytes out.new
        ≡ string_bytes out.old ++ item_text (names_of names.now) labels.now array index) }
{
    add_object(out, names, labels, array)?;
    out.push('[')?;
    push_int(out, index)?;
    out.push(']')
}

// `verb` and an object.
fn push_on(
    out: &mut String,
    names: &Names,
    labels: &[Label],
    verb: &str,
    object: u64,
) -> Result<(), AllocError>
    ensures { OnOk result (string_bytes out.new
        ≡ string_bytes out.old ++ (verb.now ++ object_text (names_of names.now) labels.now object)) }
{
    out.push_str(verb)?;
    add_object(out, names, labels, object)
}

// `verb` and a value.
fn push_with(
    out: &mut String,
    names: &Names,
    labels: &[Label],
    verb: &str,
    value: &Value,
) -> Result<(), AllocError>
    ensures { OnOk result (string_bytes out.new
        ≡ string_bytes out.old ++ (verb.now ++ value_text (names_of names.now) labels.now value.now)) }
{
    out.push_str(verb)?;
    add_value(out, names, labels, value)
}

// An operation of a lock, a monitor or a markable.
fn push_operation(
    out: &mut String,
    names: &Names,
    labels: &[Label],
    action: &Action<Value>,
) -> Result<(), AllocError>
    ensures { OnOk result (string_bytes out.new
        ≡ string_bytes out.old ++ operation_text (names_of names.now) labels.now action.now) }
{
    match action {
        Action::Lock(o) => push_on(out, names, labels, "locks ", *o),
        Action::Unlock(o) => push_on(out, names, labels, "unlocks ", *o),
        Action::TryLock(o) => push_on(out, names, labels, "tries ", *o),
        Action::IsHeld(o) => push_on(out, names, labels, "asks whether it holds ", *o),
        Action::LockMonitor(o) => push_on(out, names, labels, "locks the monitor of ", *o),
        Action::UnlockMonitor(o) => push_on(out, names, labels, "unlocks the monitor of ", *o),
        Action::ReadPair(o) => push_on(out, names, labels, "reads ", *o),
        Action::SetPair(o, pair) => {
            push_on(out, names, labels, "sets ", *o)?;
            push_with(out, names, labels, " to ", pair)
        }
        Action::SwapPair {
            markable,
            expected,
            new,
        } => {
            push_on(out, names, labels, "exchanges ", *markable)?;
            push_with(out, names, labels, " from ", expected)?;
            push_with(out, names, labels, " to ", new)
        }
        Action::AttemptMark {
            markable,
            reference,
            mark,
        } => {
            push_on(out, names, labels, "marks ", *markable)?;
            out.push(' ')?;
            out.push_str(boolean_words(*mark))?;
            push_on(out, names, labels, " if it refers to ", *reference)
        }
        _ => Ok(()),
    }
}

// A making, an entered method, a turn of a loop, or an operation.
fn push_move(
    out: &mut String,
    names: &Names,
    labels: &[Label],
    action: &Action<Value>,
) -> Result<(), AllocError>
    ensures { OnOk result (string_bytes out.new
        ≡ string_bytes out.old ++ move_text (names_of names.now) labels.now action.now) }
{
    match action {
        Action::New(class) => {
            out.push_str("makes ")?;
            out.push_str(class_name(*names, *class))
        }
        Action::NewLock => out.push_str("makes ReentrantLock"),
        Action::NewMarkable(pair) => {
            push_with(
                out,
                names,
                labels,
                "makes AtomicMarkableReference of ",
                pair,
            )
        }
        Action::NewArray(size) => {
            out.push_str("makes boolean[")?;
            push_int(out, *size)?;
            out.push(']')
        }
        Action::Turn => out.push_str("goes round a loop"),
        Action::Enter(method) => {
            out.push_str("enters ")?;
            push_method(out, *names, *method)
        }
        _ => push_operation(out, names, labels, action),
    }
}

// A read or write of a field, an item or a setup name, or another action that is no event.
fn push_phrase(
    out: &mut String,
    names: &Names,
    labels: &[Label],
    action: &Action<Value>,
) -> Result<(), AllocError>
    ensures { OnOk result (string_bytes out.new
        ≡ string_bytes out.old ++ phrase_text (names_of names.now) labels.now action.now) }
{
    match action {
        Action::ReadField { object, field } => {
            out.push_str("reads ")?;
            add_field(out, names, labels, *object, *field)
        }
        Action::WriteField {
            object,
            field,
            value,
        } => {
            out.push_str("writes ")?;
            add_field(out, names, labels, *object, *field)?;
            push_with(out, names, labels, ": ", value)
        }
        Action::ReadItem { array, index } => {
            out.push_str("reads ")?;
            push_item(out, names, labels, *array, *index)
        }
        Action::WriteItem {
            array,
            index,
            value,
        } => {
            out.push_str("writes ")?;
            push_item(out, names, labels, *array, *index)?;
            push_with(out, names, labels, ": ", value)
        }
        Action::ReadName(n) => {
            out.push_str("reads ")?;
            out.push_str(object_name(names.program, *n))
        }
        Action::WriteName(n, value) => {
            out.push_str("writes ")?;
            out.push_str(object_name(names.program, *n))?;
            push_with(out, names, labels, ": ", value)
        }
        _ => push_move(out, names, labels, action),
    }
}

// The event of a history that an action is.
fn push_event(
    out: &mut String,
    names: &Names,
    thread: usize,
    call: usize,
    happening: Happening,
) -> Result<(), AllocError>
    ensures { OnOk result (string_bytes out.new
        ≡ string_bytes out.old ++ run_words (names_of names.now).program (record {
          thread = thread;
          call = call;
          happening = happening;
        })) }
{
    let event = Event {
        thread,
        call,
        happening,
    };
    push_words(out, names.program, event)
}

/// As `push_action`.
pub fn add_action(
    out: &mut String,
    names: &Names,
    labels: &[Label],
    thread: usize,
    action: &Action<Value>,
) -> Result<(), AllocError>
    ensures { OnOk result (string_bytes out.new
        ≡ string_bytes out.old ++ action_text (names_of names.now) labels.now thread action.now) }
{
    match action {
        Action::Call(call) => push_event(out, names, thread, *call, Happening::Called),
        Action::Return(call, value) => {
            push_event(out, names, thread, *call, Happening::Returned(*value))
        }
        Action::Trap(call, kind) => {
            push_event(out, names, thread, *call, Happening::Trapped(*kind))
        }
        _ => push_phrase(out, names, labels, action),
    }
}

/// Adds what a thread's action is, as `reads Node#3.next`. The only refusal is that memory ran out.
pub fn push_action(
    out: &mut String,
    names: Names,
    labels: &[Label],
    thread: usize,
    action: Action<Value>,
) -> Result<(), AllocError>
    ensures { OnOk result (string_bytes out.new
        ≡ string_bytes out.old ++ action_text (names_of names.entry) labels.now thread action) }
{
    add_action(out, &names, labels, thread, &action)
}

// Adds an action's answer after a colon, as `: Node#4`. If the action is just done, nothing is added.
pub fn add_answer(
    out: &mut String,
    names: &Names,
    labels: &[Label],
    answer: &Answer<Value>,
) -> Result<(), AllocError>
    ensures { OnOk result (string_bytes out.new
        ≡ string_bytes out.old ++ answer_text (names_of names.now) labels.now answer.now) }
{
    match answer {
        Answer::Done => Ok(()),
        Answer::Gives(value) => {
            out.push(':')?;
            out.push(' ')?;
            add_value(out, names, labels, value)
        }
        Answer::Fails(kind) => {
            out.push_str(": ")?;
            out.push_str(kind_name(*kind))
        }
    }
}

/// As `push_performed`.
pub fn add_performed(
    out: &mut String,
    names: &Names,
    labels: &[Label],
    thread: usize,
    action: &Action<Value>,
    answer: &Answer<Value>,
) -> Result<(), AllocError>
    ensures { OnOk result (string_bytes out.new
        ≡ string_bytes out.old ++ performed_text (names_of names.now) labels.now thread action.now answer.now) }
{
    add_action(out, names, labels, thread, action)?;
    add_answer(out, names, labels, answer)
}

/// Adds an action of a thread with its answer, as `reads Node#3.next: Node#4`. The labels are those after the action.
/// The only refusal is that memory ran out.
pub fn push_performed(
    out: &mut String,
    names: Names,
    labels: &[Label],
    thread: usize,
    action: Action<Value>,
    answer: Answer<Value>,
) -> Result<(), AllocError>
    ensures { OnOk result (string_bytes out.new
        ≡ string_bytes out.old ++ performed_text (names_of names.entry) labels.now thread action answer) }
{
    add_performed(out, &names, labels, thread, &action, &answer)
}
