// Actions with other numbers.

ghost use Rattle.std.specs.Prelude.{◌≡◌, ℕ, IfOk, IfSome};
ghost use Rattle.ls_meaning.specs.Renamings.{renamed_action};
ghost use Rattle.ls_renaming.specs.Seen.{names_of};

use crate::names::Names;
use ls_events::action::Action;
use ls_events::value::Value;
use std::alloc::AllocError;

// An action on a field, an item, a name or a new object.
fn rename_access(names: &Names, action: Action<Value>) -> Result<Option<Action<Value>>, AllocError>
    ensures { IfOk result (λ r. IfSome r (λ a. a ≡ renamed_action (names_of names.now) action)) }
{
    match action {
        Action::ReadField { object, field } => Ok(Some(Action::ReadField {
            object: names.number(object)?,
            field,
        })),
        Action::WriteField {
            object,
            field,
            value,
        } => Ok(Some(Action::WriteField {
            object: names.number(object)?,
            field,
            value: names.value(value)?,
        })),
        Action::ReadItem { array, index } => Ok(Some(Action::ReadItem {
            array: names.number(array)?,
            index,
        })),
        Action::WriteItem {
            array,
            index,
            value,
        } => Ok(Some(Action::WriteItem {
            array: names.number(array)?,
            index,
            value: names.value(value)?,
        })),
        Action::WriteName(name, value) => Ok(Some(Action::WriteName(name, names.value(value)?))),
        Action::NewMarkable(value) => Ok(Some(Action::NewMarkable(names.value(value)?))),
        _ => Ok(None),
    }
}

// An action on a lock, a monitor or a markable.
fn rename_holding(names: &Names, action: Action<Value>) -> Result<Option<Action<Value>>, AllocError>
    ensures { IfOk result (λ r. IfSome r (λ a. a ≡ renamed_action (names_of names.now) action)) }
{
    match action {
        Action::Lock(o) => Ok(Some(Action::Lock(names.number(o)?))),
        Action::Unlock(o) => Ok(Some(Action::Unlock(names.number(o)?))),
        Action::TryLock(o) => Ok(Some(Action::TryLock(names.number(o)?))),
        Action::IsHeld(o) => Ok(Some(Action::IsHeld(names.number(o)?))),
        Action::LockMonitor(o) => Ok(Some(Action::LockMonitor(names.number(o)?))),
        Action::UnlockMonitor(o) => Ok(Some(Action::UnlockMonitor(names.number(o)?))),
        Action::ReadPair(o) => Ok(Some(Action::ReadPair(names.number(o)?))),
        _ => Ok(None),
    }
}

// An action that writes a markable.
fn rename_marking(names: &Names, action: Action<Value>) -> Result<Option<Action<Value>>, AllocError>
    ensures { IfOk result (λ r. IfSome r (λ a. a ≡ renamed_action (names_of names.now) action)) }
{
    match action {
        Action::SetPair(o, v) => Ok(Some(Action::SetPair(names.number(o)?, names.value(v)?))),
        Action::SwapPair {
            markable,
            expected,
            new,
        } => Ok(Some(Action::SwapPair {
            markable: names.number(markable)?,
            expected: names.value(expected)?,
            new: names.value(new)?,
        })),
        Action::AttemptMark {
            markable,
            reference,
            mark,
        } => Ok(Some(Action::AttemptMark {
            markable: names.number(markable)?,
            reference: names.number(reference)?,
            mark,
        })),
        Action::Return(call, v) => Ok(Some(Action::Return(call, names.result(v)?))),
        _ => Ok(None),
    }
}

// An action that names no object.
fn nameless(action: Action<Value>) -> Option<Action<Value>>
    ensures { IfSome result (λ a. (names : ℕ → ℕ) → a ≡ renamed_action names action) }
{
    match action {
        Action::ReadName(_)
        | Action::New(_)
        | Action::NewLock
        | Action::NewArray(_)
        | Action::Turn
        | Action::Enter(_)
        | Action::Call(_)
        | Action::Trap(_, _) => Some(action),
        _ => None,
    }
}

/// An action with other numbers. It is refused only if there is none below 2^64.
pub fn rename_action(names: &Names, action: Action<Value>) -> Result<Action<Value>, AllocError>
    ensures { IfOk result (λ a. a ≡ renamed_action (names_of names.now) action) }
{
    if let Some(renamed) = rename_access(names, action)? {
        return Ok(renamed);
    }
    if let Some(renamed) = rename_holding(names, action)? {
        return Ok(renamed);
    }
    if let Some(renamed) = rename_marking(names, action)? {
        return Ok(renamed);
    }
    match nameless(action) {
        None => Err(AllocError),
        Some(renamed) => Ok(renamed),
    }
}
