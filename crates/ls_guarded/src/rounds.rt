// Which bodies are a lock, what is guarded, and the unlock.

ghost use Rattle.std.specs.Prelude.{◌↔◌, IsTrue, map};
ghost use Rattle.ls_checked.specs.Plain.{plain_class, plain_statement, statements_of};
ghost use Rattle.ls_guarded.specs.Marks.{IsMarked, OnAny, OnOthers, OnThis};
ghost use Rattle.ls_guarded.specs.Rounds.{IsFreed, IsFreedRun, IsGuardedBody, IsGuardedRun, IsHeldRun, IsMakingBody};
ghost use Rattle.ls_guarded.specs.Rounds.{IsMakingRun, IsMonitorBlock, IsMonitorBody, IsMonitorInner, IsMonitorRun};
ghost use Rattle.ls_guarded.specs.Rounds.{IsRound, IsUnlocked};

use crate::clean::{run_clean, runs_clean};
use crate::forms::{
    held, is_after, is_field_setting, is_free, is_lock, is_lock_making, is_setting, is_slot,
    is_unlocking, set_to_this,
};
use crate::marks::Callees;
use crate::plain::{run_plain, runs_plain};
use ls_checked::tree::{Class, Statement};

fn is_freed(marks: &[bool], classes: &[Class], slot: usize, class: usize, s: &Statement) -> bool
    ensures { IsTrue result ↔
        IsFreed (IsMarked marks.now) (map plain_class classes.now) slot class (plain_statement s.now) }
{
    match s {
        Statement::Try(inner, last) => {
            is_free(slot, class, last) && runs_plain(marks, classes, slot, inner)
        }
        _ => false,
    }
}

fn is_freed_run(
    marks: &[bool],
    classes: &[Class],
    slot: usize,
    class: usize,
    ss: &[Statement],
) -> bool
    ensures { IsTrue result ↔
        IsFreedRun (IsMarked marks.now) (map plain_class classes.now) slot class (statements_of ss.now) }
{
    match ss {
        [s, rest @ ..] => rest.is_empty() && is_freed(marks, classes, slot, class, s),
        [] => false,
    }
}

fn is_held_run(marks: &[bool], classes: &[Class], slot: usize, ss: &[Statement]) -> bool
    ensures { IsTrue result ↔
        IsHeldRun (IsMarked marks.now) (map plain_class classes.now) slot (statements_of ss.now) }
{
    match ss {
        [s, rest @ ..] => match held(slot, s) {
            Some(class) => is_freed_run(marks, classes, slot, class, rest),
            None => false,
        },
        [] => false,
    }
}

fn is_monitor_run(marks: &[bool], classes: &[Class], slots: usize, ss: &[Statement]) -> bool
    ensures { IsTrue result ↔
        IsMonitorRun (IsMarked marks.now) (map plain_class classes.now) slots (statements_of ss.now) }
{
    match ss {
        [s, rest @ ..] => match set_to_this(s) {
            Some(slot) => slot < slots && is_held_run(marks, classes, slot, rest),
            None => false,
        },
        [] => false,
    }
}

#[tactic(auto, using(ls_checked::proofs::Rows::block_made))]
fn is_monitor_inner(marks: &[bool], classes: &[Class], slots: usize, s: &Statement) -> bool
    ensures { IsTrue result ↔
        IsMonitorInner (IsMarked marks.now) (map plain_class classes.now) slots (plain_statement s.now) }
{
    match s {
        Statement::Block(run) => is_monitor_run(marks, classes, slots, run),
        _ => false,
    }
}

fn is_monitor_block(marks: &[bool], classes: &[Class], slots: usize, ss: &[Statement]) -> bool
    ensures { IsTrue result ↔
        IsMonitorBlock (IsMarked marks.now) (map plain_class classes.now) slots (statements_of ss.now) }
{
    match ss {
        [s, rest @ ..] => rest.is_empty() && is_monitor_inner(marks, classes, slots, s),
        [] => false,
    }
}

/// Whether a body is a synchronized block on `this` with something plain in it.
#[tactic(auto, using(ls_checked::proofs::Rows::block_made))]
pub fn is_monitor_body(marks: &[bool], classes: &[Class], slots: usize, s: &Statement) -> bool
    ensures { IsTrue result ↔
        IsMonitorBody (IsMarked marks.now) (map plain_class classes.now) slots (plain_statement s.now) }
{
    match s {
        Statement::Block(ss) => is_monitor_block(marks, classes, slots, ss),
        _ => false,
    }
}

fn is_unlocked(callees: &Callees, classes: &[Class], c: usize, f: usize, s: &Statement) -> bool
    ensures { IsTrue result ↔
        IsUnlocked (OnAny callees.now) (OnThis callees.now) (OnOthers callees.now) (map plain_class classes.now) c f
        (plain_statement s.now) }
{
    match s {
        Statement::Try(inner, last) => {
            is_unlocking(c, f, last)
                && runs_plain(&callees.all, classes, 0, inner)
                && runs_clean(callees, classes, f, true, inner)
        }
        _ => false,
    }
}

fn is_round(callees: &Callees, classes: &[Class], c: usize, f: usize, ss: &[Statement]) -> bool
    ensures { IsTrue result ↔
        IsRound (OnAny callees.now) (OnThis callees.now) (OnOthers callees.now) (map plain_class classes.now) c f
        (statements_of ss.now) }
{
    match ss {
        [first, rest @ ..] => { is_unlocked(callees, classes, c, f, first) && is_after(rest) }
        [] => false,
    }
}

fn is_guarded_run(
    callees: &Callees,
    classes: &[Class],
    c: usize,
    f: usize,
    ss: &[Statement],
) -> bool
    ensures { IsTrue result ↔
        IsGuardedRun (OnAny callees.now) (OnThis callees.now) (OnOthers callees.now) (map plain_class classes.now) c f
        (statements_of ss.now) }
{
    match ss {
        [first, rest @ ..] => {
            if is_setting(first) {
                is_guarded_run(callees, classes, c, f, rest)
            } else {
                is_lock(c, f, first) && is_round(callees, classes, c, f, rest)
            }
        }
        [] => false,
    }
}

/// Whether a body sets locals, takes the lock in a field of `this`, does something plain and clean, and gives it back.
#[tactic(auto, using(ls_checked::proofs::Rows::block_made))]
pub fn is_guarded_body(
    callees: &Callees,
    classes: &[Class],
    c: usize,
    f: usize,
    s: &Statement,
) -> bool
    ensures { IsTrue result ↔
        IsGuardedBody (OnAny callees.now) (OnThis callees.now) (OnOthers callees.now) (map plain_class classes.now) c f
        (plain_statement s.now) }
{
    match s {
        Statement::Block(ss) => is_guarded_run(callees, classes, c, f, ss),
        _ => false,
    }
}

fn is_making_run(callees: &Callees, classes: &[Class], c: usize, f: usize, ss: &[Statement]) -> bool
    ensures { IsTrue result ↔
        IsMakingRun (OnAny callees.now) (OnThis callees.now) (OnOthers callees.now) (map plain_class classes.now) c f
        (statements_of ss.now) }
{
    match ss {
        [first, rest @ ..] => {
            if is_field_setting(first) {
                is_making_run(callees, classes, c, f, rest)
            } else {
                is_lock_making(f, first)
                    && run_plain(&callees.all, classes, 0, rest)
                    && run_clean(callees, classes, f, true, rest)
            }
        }
        [] => false,
    }
}

/// Whether the body of a constructor sets fields, makes the lock, and goes on with what is plain and clean.
#[tactic(auto, using(ls_checked::proofs::Rows::block_made))]
pub fn is_making_body(
    callees: &Callees,
    classes: &[Class],
    c: usize,
    f: usize,
    s: &Statement,
) -> bool
    ensures { IsTrue result ↔
        IsMakingBody (OnAny callees.now) (OnThis callees.now) (OnOthers callees.now) (map plain_class classes.now) c f
        (plain_statement s.now) }
{
    match s {
        Statement::Block(ss) => is_making_run(callees, classes, c, f, ss),
        _ => false,
    }
}
