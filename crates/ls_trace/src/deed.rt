// What a thread does in a step or waits for, but for the values in it.

ghost use Rattle.std.specs.Prelude.{◌≡◌, ℕ, IfSome, List, Some};
ghost use Rattle.ls_labels.specs.Labels.{label_at};
ghost use Rattle.ls_labels.specs.Names.{Names};
ghost use Rattle.ls_labels.specs.Threads.{wait_text};
ghost use Rattle.ls_labels.specs.declared.label.Label.{Label};
ghost use Rattle.ls_source.specs.Shown.{progress_of};
ghost use Rattle.ls_trace.specs.Deeds.{deed_words, head_text};

use ls_events::action::Action;
use ls_events::value::Value;
use ls_labels::threads::owner_of;
use ls_source::run::SourceRun;
use std::alloc::AllocError;

/// What a thread does, or what it waits for.
#[derive(Copy, PartialEq, Eq)]
pub enum DeedKind {
    ReadsField,
    WritesField,
    ReadsName,
    Turns,
    Enters,
    Locks,
    Unlocks,
    Tries,
    AsksIfHeld,
    LocksMonitor,
    UnlocksMonitor,
    ReadsPair,
    WaitsForLock,
    WaitsForMonitor,
}

impl Clone for DeedKind {
    fn clone(&self) -> Result<DeedKind, AllocError> {
        Ok(*self)
    }
}

/// What is done, to which object, and the number of a field, a setup name, a method or the thread that owns the object.
/// Where there is none, it is 0.
#[derive(Copy, PartialEq, Eq)]
pub struct Deed {
    pub(crate) kind: DeedKind,
    pub(crate) object: u64,
    pub(crate) part: usize,
}

impl Clone for Deed {
    fn clone(&self) -> Result<Deed, AllocError> {
        Ok(*self)
    }
}

#[inline(always)]
fn of_kind(kind: DeedKind, object: u64, part: usize) -> Option<Deed>
    ensures { result ≡ Some (record { kind = kind; object = object; part = part }) }
{
    Some(Deed { kind, object, part })
}

/// What an action is but for the value that it writes, or none where its text isn't kept.
#[inline(always)]
pub(crate) fn deed_of(action: &Action<Value>) -> Option<Deed>
    ensures { (names : Names) (labels : List Label) (thread : ℕ) → IfSome result (λ d.
        deed_words names (label_at labels d.object) d ≡ head_text names labels thread action.now) }
{
    match action {
        Action::ReadField { object, field } => of_kind(DeedKind::ReadsField, *object, *field),
        Action::WriteField { object, field, .. } => of_kind(DeedKind::WritesField, *object, *field),
        Action::ReadName(name) => of_kind(DeedKind::ReadsName, 0, *name),
        Action::Turn => of_kind(DeedKind::Turns, 0, 0),
        Action::Enter(method) => of_kind(DeedKind::Enters, 0, *method),
        Action::Lock(object) => of_kind(DeedKind::Locks, *object, 0),
        Action::Unlock(object) => of_kind(DeedKind::Unlocks, *object, 0),
        Action::TryLock(object) => of_kind(DeedKind::Tries, *object, 0),
        Action::IsHeld(object) => of_kind(DeedKind::AsksIfHeld, *object, 0),
        Action::LockMonitor(object) => of_kind(DeedKind::LocksMonitor, *object, 0),
        Action::UnlockMonitor(object) => of_kind(DeedKind::UnlocksMonitor, *object, 0),
        Action::ReadPair(object) => of_kind(DeedKind::ReadsPair, *object, 0),
        _ => None,
    }
}

/// What a thread waits for, by the action that it asks for; none if that is on no lock or monitor that a thread owns.
#[inline(always)]
pub(crate) fn wait_of(run: &SourceRun, action: &Action<Value>) -> Option<Deed>
    ensures { (names : Names) (labels : List Label) → IfSome result (λ d.
        deed_words names (label_at labels d.object) d
        ≡ wait_text names labels (progress_of run.now).state.store action.now) }
{
    match action {
        Action::Lock(lock) => match owner_of(run.thing(*lock)) {
            Some(owner) => of_kind(DeedKind::WaitsForLock, *lock, owner),
            None => None,
        },
        Action::LockMonitor(object) => match owner_of(run.thing(*object)) {
            Some(owner) => of_kind(DeedKind::WaitsForMonitor, *object, owner),
            None => None,
        },
        _ => None,
    }
}
