// The objects that what a thread still has to do names, in order. Nothing depends on these.

use ls_events::action::Action;
use ls_events::value::Value;
use ls_meaning::completion::Completion;
use ls_source::thread::{Bottom, Phase, Thread};
use ls_source_pending::pending::Pending;
use ls_source_pending::work::{Control, Ending, Frame, Operand, Purpose, Waiting};
use std::alloc::{AllocError, Global};

/// The object that a value names.
pub(crate) fn object_of(value: Value) -> u64 {
    match value {
        Value::Int(_) | Value::Boolean(_) => 0,
        Value::Reference(object) => object,
        Value::Pair { reference, .. } => reference,
    }
}

fn add(objects: &mut Vec<u64>, value: Value) -> Result<(), AllocError> {
    let object = object_of(value);
    if object == 0 {
        return Ok(());
    }
    objects.push(object)?;
    Ok(())
}

fn add_all(objects: &mut Vec<u64>, values: &[Value]) -> Result<(), AllocError> {
    for value in values {
        add(objects, *value)?;
    }
    Ok(())
}

fn add_completion(objects: &mut Vec<u64>, c: Completion<Value>) -> Result<(), AllocError> {
    match c {
        Completion::Returned(Some(value)) => add(objects, value),
        _ => Ok(()),
    }
}

fn add_purpose(objects: &mut Vec<u64>, purpose: Purpose) -> Result<(), AllocError> {
    match purpose {
        Purpose::Call(_, value) | Purpose::Make(_, value) => add(objects, value),
        Purpose::Mark(_) => Ok(()),
    }
}

fn add_operand<'a>(objects: &mut Vec<u64>, operand: &Operand<'a>) -> Result<(), AllocError> {
    match operand {
        Operand::Index(v) | Operand::Right(_, v) => add(objects, *v),
        Operand::Constructor(v) | Operand::Written(v) => add(objects, *v),
        Operand::Both(array) => add(objects, Value::Reference(*array)),
        _ => Ok(()),
    }
}

fn add_waiting<'a>(objects: &mut Vec<u64>, waiting: &Waiting<'a>) -> Result<(), AllocError> {
    match waiting {
        Waiting::Field(o, _) | Waiting::Addend(o, _, _) | Waiting::Index(o, _) => add(objects, *o),
        Waiting::Sum(o, _, x) | Waiting::Item(o, x) => {
            add(objects, *o)?;
            add(objects, *x)
        }
        _ => Ok(()),
    }
}

fn add_frame<'a>(objects: &mut Vec<u64>, frame: &Frame<'a>) -> Result<(), AllocError> {
    match frame {
        Frame::Operand(operand) => add_operand(objects, operand),
        Frame::Argument(purpose, before, _) => {
            add_purpose(objects, *purpose)?;
            add_all(objects, before)
        }
        Frame::Waiting(waiting) => add_waiting(objects, waiting),
        Frame::Ending(Ending::Finally(c)) => add_completion(objects, *c),
        Frame::Ending(_) => Ok(()),
        Frame::Body(_, saved, _) => add_all(objects, saved),
    }
}

// Of the actions that a work asks for, those on objects.
fn add_action(objects: &mut Vec<u64>, action: Action<Value>) -> Result<(), AllocError> {
    match action {
        Action::ReadField { object, .. } => add(objects, Value::Reference(object)),
        Action::WriteField { object, value, .. } => {
            add(objects, Value::Reference(object))?;
            add(objects, value)
        }
        Action::ReadItem { array, .. } => add(objects, Value::Reference(array)),
        Action::WriteItem { array, .. } => add(objects, Value::Reference(array)),
        Action::Lock(o) | Action::Unlock(o) | Action::TryLock(o) => add(
            objects,
            Value::Reference(o),
        ),
        Action::IsHeld(o) | Action::ReadPair(o) => add(objects, Value::Reference(o)),
        Action::LockMonitor(o) | Action::UnlockMonitor(o) => add(objects, Value::Reference(o)),
        Action::NewMarkable(value) | Action::WriteName(_, value) => add(objects, value),
        Action::SetPair(o, value) => {
            add(objects, Value::Reference(o))?;
            add(objects, value)
        }
        Action::SwapPair {
            markable,
            expected,
            new,
        } => {
            add(objects, Value::Reference(markable))?;
            add(objects, expected)?;
            add(objects, new)
        }
        Action::AttemptMark {
            markable,
            reference,
            ..
        } => {
            add(objects, Value::Reference(markable))?;
            add(objects, Value::Reference(reference))
        }
        _ => Ok(()),
    }
}

fn add_control<'a>(objects: &mut Vec<u64>, control: &Control<'a>) -> Result<(), AllocError> {
    match control {
        Control::Argues(purpose, before, _) => {
            add_purpose(objects, *purpose)?;
            add_all(objects, before)
        }
        Control::Invokes(_, o, vs) | Control::Opens(_, o, vs) | Control::Enters(_, o, vs) => {
            add(objects, *o)?;
            add_all(objects, vs)
        }
        Control::Gives(v) => add(objects, *v),
        Control::Ends(c) => add_completion(objects, *c),
        Control::Asks(action, _) => add_action(objects, *action),
        _ => Ok(()),
    }
}

fn add_phase<'a>(objects: &mut Vec<u64>, phase: &Phase<'a>) -> Result<(), AllocError> {
    match phase {
        Phase::Works(Bottom::Making(_, o)) | Phase::Names(_, o) => add(objects, *o),
        Phase::ReturnsWith(Some(v)) => add(objects, *v),
        _ => Ok(()),
    }
}

fn add_work<'a>(objects: &mut Vec<u64>, work: &Pending<'a>) -> Result<(), AllocError> {
    add_all(objects, &work.locals)?;
    for frame in &work.frames {
        add_frame(objects, frame)?;
    }
    add_control(objects, &work.control)
}

/// The objects that what a thread still has to do names, in order. A body that has ended names none.
pub(crate) fn objects_of<'a>(alloc: Global, thread: &Thread<'a>) -> Result<Vec<u64>, AllocError> {
    let mut objects = Vec::new(alloc);
    add_phase(&mut objects, &thread.phase)?;
    if let Phase::Works(_) = thread.phase {
        add_work(&mut objects, &thread.work)?;
    }
    Ok(objects)
}
