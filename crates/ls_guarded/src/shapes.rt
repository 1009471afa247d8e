// Which bodies are a lock, whatever, and the unlock: the shape alone.

ghost use Rattle.std.specs.Prelude.{◌≡◌, ◌↔◌, ℕ, IfNone, IsTrue};
ghost use Rattle.ls_checked.specs.CheckedTree.{Field, Slot};
ghost use Rattle.ls_checked.specs.Plain.{plain, plain_statement, statements_of};
ghost use Rattle.ls_guarded.specs.Rounds.{lock_field};
ghost use Rattle.ls_guarded.specs.Shapes.{HoldsBlock, HoldsInner, HoldsLast, HoldsLock, HoldsMonitor, HoldsRun};
ghost use Rattle.ls_guarded.specs.Shapes.{HoldsThen, HoldsTried, LocksRound, LocksRun, LocksTried};

use crate::forms::{
    held, is_after, is_free, is_lock, is_setting, is_slot, is_unlocking, set_to_this,
};
use ls_checked::tree::{Called, Expression, Statement};

// ---- monitors

fn holds_tried(slot: usize, class: usize, s: &Statement) -> bool
    ensures { IsTrue result ↔ HoldsTried slot class (plain_statement s.now) }
{
    match s {
        Statement::Try(_, last) => is_free(slot, class, last),
        _ => false,
    }
}

fn holds_last(slot: usize, class: usize, ss: &[Statement]) -> bool
    ensures { IsTrue result ↔ HoldsLast slot class (statements_of ss.now) }
{
    match ss {
        [s, rest @ ..] => rest.is_empty() && holds_tried(slot, class, s),
        [] => false,
    }
}

fn holds_then(slot: usize, ss: &[Statement]) -> bool
    ensures { IsTrue result ↔ HoldsThen slot (statements_of ss.now) }
{
    match ss {
        [s, rest @ ..] => match held(slot, s) {
            Some(class) => holds_last(slot, class, rest),
            None => false,
        },
        [] => false,
    }
}

fn holds_run(ss: &[Statement]) -> bool
    ensures { IsTrue result ↔ HoldsRun (statements_of ss.now) }
{
    match ss {
        [s, rest @ ..] => match set_to_this(s) {
            Some(slot) => holds_then(slot, rest),
            None => false,
        },
        [] => false,
    }
}

#[tactic(auto, using(ls_checked::proofs::Rows::block_made))]
fn holds_inner(s: &Statement) -> bool
    ensures { IsTrue result ↔ HoldsInner (plain_statement s.now) }
{
    match s {
        Statement::Block(ss) => holds_run(ss),
        _ => false,
    }
}

fn holds_block(ss: &[Statement]) -> bool
    ensures { IsTrue result ↔ HoldsBlock (statements_of ss.now) }
{
    match ss {
        [s, rest @ ..] => rest.is_empty() && holds_inner(s),
        [] => false,
    }
}

/// Whether a body is a synchronized block on `this`, whatever is in it.
#[tactic(auto, using(ls_checked::proofs::Rows::block_made))]
pub fn holds_monitor(s: &Statement) -> bool
    ensures { IsTrue result ↔ HoldsMonitor (plain_statement s.now) }
{
    match s {
        Statement::Block(ss) => holds_block(ss),
        _ => false,
    }
}

// ---- a lock in a field

fn locks_tried(c: usize, f: usize, s: &Statement) -> bool
    ensures { IsTrue result ↔ LocksTried c f (plain_statement s.now) }
{
    match s {
        Statement::Try(_, last) => is_unlocking(c, f, last),
        _ => false,
    }
}

fn locks_round(c: usize, f: usize, ss: &[Statement]) -> bool
    ensures { IsTrue result ↔ LocksRound c f (statements_of ss.now) }
{
    match ss {
        [s, rest @ ..] => locks_tried(c, f, s) && is_after(rest),
        [] => false,
    }
}

fn locks_run(c: usize, f: usize, ss: &[Statement]) -> bool
    ensures { IsTrue result ↔ LocksRun c f (statements_of ss.now) }
{
    match ss {
        [s, rest @ ..] => {
            if is_setting(s) {
                locks_run(c, f, rest)
            } else {
                is_lock(c, f, s) && locks_round(c, f, rest)
            }
        }
        [] => false,
    }
}

/// Whether a body sets locals, takes the lock in a field of `this`, does whatever, and gives the lock back.
#[tactic(auto, using(ls_checked::proofs::Rows::block_made))]
pub fn holds_lock(c: usize, f: usize, s: &Statement) -> bool
    ensures { IsTrue result ↔ HoldsLock c f (plain_statement s.now) }
{
    match s {
        Statement::Block(ss) => locks_run(c, f, ss),
        _ => false,
    }
}

// The field of `this` that an expression reads.
fn field_in(e: &Expression) -> Option<usize>
    ensures { IfNone result ((c f : ℕ) → plain e.now ≡ Field (Slot 0) c f → ⊥) }
{
    match e {
        Expression::Field { target, field, .. } => {
            if is_slot(0, target) {
                Some(*field)
            } else {
                None
            }
        }
        _ => None,
    }
}

// The field of `this` whose lock is taken.
fn taken(s: &Statement) -> Option<usize>
    ensures { IfNone result ((c f : ℕ) → plain_statement s.now ≡ lock_field c f → ⊥) }
{
    match s {
        Statement::Evaluate(Expression::Call(target, Called::LockIt, _)) => field_in(target),
        _ => None,
    }
}

#[tactic(auto, using(crate::proofs::Holding::no_run))]
fn lock_in_run(ss: &[Statement]) -> Option<usize>
    ensures { IfNone result ((c f : ℕ) → LocksRun c f (statements_of ss.now) → ⊥) }
{
    match ss {
        [s, rest @ ..] => match taken(s) {
            Some(f) => Some(f),
            None => lock_in_run(rest),
        },
        [] => None,
    }
}

/// The field whose lock is the first that is taken in a statement of a body.
#[tactic(auto, using(ls_checked::proofs::Rows::block_made, crate::proofs::Holding::no_block))]
pub fn lock_in(s: &Statement) -> Option<usize>
    ensures { IfNone result ((c f : ℕ) → HoldsLock c f (plain_statement s.now) → ⊥) }
{
    match s {
        Statement::Block(ss) => lock_in_run(ss),
        _ => None,
    }
}
