// Whether actions are the same.

ghost use Rattle.std.specs.Prelude.{◌≡◌, IsTrue};

use crate::values::{is_same_kind, is_same_result};
use ls_events::action::Action;
use ls_events::same::is_same_value;
use ls_events::value::Value;

// Whether an action on a field or an item is the other.
fn is_same_access(action: Action<Value>, other: Action<Value>) -> bool
    ensures { IsTrue result → action ≡ other }
{
    match (action, other) {
        (
            Action::ReadField {
                object: a,
                field: f,
            },
            Action::ReadField {
                object: b,
                field: g,
            },
        ) => a == b && f == g,
        (
            Action::WriteField {
                object: a,
                field: f,
                value: v,
            },
            Action::WriteField {
                object: b,
                field: g,
                value: w,
            },
        ) => a == b && f == g && is_same_value(v, w),
        (Action::ReadItem { array: a, index: i }, Action::ReadItem { array: b, index: j }) => {
            a == b && i == j
        }
        (
            Action::WriteItem {
                array: a,
                index: i,
                value: v,
            },
            Action::WriteItem {
                array: b,
                index: j,
                value: w,
            },
        ) => a == b && i == j && is_same_value(v, w),
        _ => false,
    }
}

// Whether an action on a setup name, or a making, is the other.
fn is_same_making(action: Action<Value>, other: Action<Value>) -> bool
    ensures { IsTrue result → action ≡ other }
{
    match (action, other) {
        (Action::ReadName(a), Action::ReadName(b)) => a == b,
        (Action::WriteName(a, v), Action::WriteName(b, w)) => a == b && is_same_value(v, w),
        (Action::New(a), Action::New(b)) => a == b,
        (Action::NewLock, Action::NewLock) => true,
        (Action::NewMarkable(v), Action::NewMarkable(w)) => is_same_value(v, w),
        (Action::NewArray(a), Action::NewArray(b)) => a == b,
        _ => false,
    }
}

// Whether an action on a lock or a monitor is the other.
fn is_same_locking(action: Action<Value>, other: Action<Value>) -> bool
    ensures { IsTrue result → action ≡ other }
{
    match (action, other) {
        (Action::Lock(a), Action::Lock(b)) => a == b,
        (Action::Unlock(a), Action::Unlock(b)) => a == b,
        (Action::TryLock(a), Action::TryLock(b)) => a == b,
        (Action::IsHeld(a), Action::IsHeld(b)) => a == b,
        (Action::LockMonitor(a), Action::LockMonitor(b)) => a == b,
        (Action::UnlockMonitor(a), Action::UnlockMonitor(b)) => a == b,
        _ => false,
    }
}

// Whether an action on a markable is the other.
fn is_same_marking(action: Action<Value>, other: Action<Value>) -> bool
    ensures { IsTrue result → action ≡ other }
{
    match (action, other) {
        (Action::ReadPair(a), Action::ReadPair(b)) => a == b,
        (Action::SetPair(a, v), Action::SetPair(b, w)) => a == b && is_same_value(v, w),
        (
            Action::SwapPair {
                markable: a,
                expected: v,
                new: x,
            },
            Action::SwapPair {
                markable: b,
                expected: w,
                new: y,
            },
        ) => a == b && is_same_value(v, w) && is_same_value(x, y),
        (
            Action::AttemptMark {
                markable: a,
                reference: r,
                mark: m,
            },
            Action::AttemptMark {
                markable: b,
                reference: s,
                mark: n,
            },
        ) => a == b && r == s && m == n,
        _ => false,
    }
}

// Whether a turn, an entering or an event is the other.
fn is_same_event(action: Action<Value>, other: Action<Value>) -> bool
    ensures { IsTrue result → action ≡ other }
{
    match (action, other) {
        (Action::Turn, Action::Turn) => true,
        (Action::Enter(a), Action::Enter(b)) => a == b,
        (Action::Call(a), Action::Call(b)) => a == b,
        (Action::Return(a, v), Action::Return(b, w)) => a == b && is_same_result(v, w),
        (Action::Trap(a, k), Action::Trap(b, l)) => a == b && is_same_kind(k, l),
        _ => false,
    }
}

/// Whether an action is the other. True only where it is.
pub fn is_same_action(action: Action<Value>, other: Action<Value>) -> bool
    ensures { IsTrue result → action ≡ other }
{
    is_same_access(action, other)
        || is_same_making(action, other)
        || is_same_locking(action, other)
        || is_same_marking(action, other)
        || is_same_event(action, other)
}
