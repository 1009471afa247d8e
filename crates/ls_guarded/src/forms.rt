// Single statements and expressions of a lock and an unlock, and settings of locals and fields.

ghost use Rattle.std.specs.Prelude.{◌≡◌, ◌↔◌, ℕ, IfNone, IfSome, IsTrue};
ghost use Rattle.ls_checked.specs.CheckedTree.{Block, Done, End, Field, MakeLock, SetField, SetSlot, Slot, Then};
ghost use Rattle.ls_checked.specs.Plain.{all_plain, plain, plain_statement, statements_of};
ghost use Rattle.ls_one_at_a_time.specs.Locked.{IsAfter, IsReturn, IsSilent};
ghost use Rattle.ls_guarded.specs.Rounds.{IsFieldSetting, IsSetting, free_monitor, hold_monitor, lock_field};
ghost use Rattle.ls_guarded.specs.Rounds.{unlock_field};

use crate::clean::names_none;
use ls_checked::tree::{Called, Expression, Expressions, Statement};

fn is_end(es: &Expressions) -> bool
    ensures { IsTrue result ↔ (all_plain es.now ≡ End) }
{
    match es {
        Expressions::End => true,
        Expressions::More(..) => false,
    }
}

pub(crate) fn is_slot(slot: usize, e: &Expression) -> bool
    ensures { IsTrue result ↔ (plain e.now ≡ Slot slot) }
{
    match e {
        Expression::Slot(n) => *n == slot,
        _ => false,
    }
}

fn is_field(c: usize, f: usize, e: &Expression) -> bool
    ensures { IsTrue result ↔ (plain e.now ≡ Field (Slot 0) c f) }
{
    match e {
        Expression::Field {
            target,
            class,
            field,
        } => *class == c && *field == f && is_slot(0, target),
        _ => false,
    }
}

// The class in whose name the monitor of what a slot holds is taken.
pub(crate) fn held(slot: usize, s: &Statement) -> Option<usize>
    ensures some { IfSome result (λ class. plain_statement s.now ≡ hold_monitor slot class) }
    ensures none { IfNone result ((class : ℕ) → plain_statement s.now ≡ hold_monitor slot class → ⊥) }
{
    match s {
        Statement::Evaluate(Expression::Call(target, Called::HoldMonitor(class), es)) => {
            if is_slot(slot, target) && is_end(es) {
                Some(*class)
            } else {
                None
            }
        }
        _ => None,
    }
}

pub(crate) fn is_free(slot: usize, class: usize, s: &Statement) -> bool
    ensures { IsTrue result ↔ (plain_statement s.now ≡ free_monitor slot class) }
{
    match s {
        Statement::Evaluate(Expression::Call(target, Called::FreeMonitor(c), es)) => {
            *c == class && is_slot(slot, target) && is_end(es)
        }
        _ => false,
    }
}

// The slot that is set to `this`.
pub(crate) fn set_to_this(s: &Statement) -> Option<usize>
    ensures some { IfSome result (λ slot. plain_statement s.now ≡ SetSlot slot (Slot 0)) }
    ensures none { IfNone result ((slot : ℕ) → plain_statement s.now ≡ SetSlot slot (Slot 0) → ⊥) }
{
    match s {
        Statement::SetSlot(slot, e) => { if is_slot(0, e) { Some(*slot) } else { None } }
        _ => None,
    }
}

pub(crate) fn is_lock(c: usize, f: usize, s: &Statement) -> bool
    ensures { IsTrue result ↔ (plain_statement s.now ≡ lock_field c f) }
{
    match s {
        Statement::Evaluate(Expression::Call(target, Called::LockIt, es)) => {
            is_field(c, f, target) && is_end(es)
        }
        _ => false,
    }
}

fn is_unlock(c: usize, f: usize, s: &Statement) -> bool
    ensures { IsTrue result ↔ (plain_statement s.now ≡ unlock_field c f) }
{
    match s {
        Statement::Evaluate(Expression::Call(target, Called::UnlockIt, es)) => {
            is_field(c, f, target) && is_end(es)
        }
        _ => false,
    }
}

#[tactic(auto, using(ls_checked::proofs::Rows::block_made))]
pub(crate) fn is_unlocking(c: usize, f: usize, s: &Statement) -> bool
    ensures { IsTrue result ↔ (plain_statement s.now ≡ Block (Then (unlock_field c f) Done)) }
{
    match s {
        Statement::Block(ss) => is_only_unlock(c, f, ss),
        _ => false,
    }
}

fn is_only_unlock(c: usize, f: usize, ss: &[Statement]) -> bool
    ensures { IsTrue result ↔ (statements_of ss.now ≡ Then (unlock_field c f) Done) }
{
    match ss {
        [s, rest @ ..] => rest.is_empty() && is_unlock(c, f, s),
        [] => false,
    }
}

/// Whether an expression is a constant that names no object, or a slot other than `this`.
#[tactic(auto, using(crate::proofs::Silent::silent_slot))]
fn is_silent(e: &Expression) -> bool
    ensures { IsTrue result ↔ IsSilent (plain e.now) }
{
    match e {
        Expression::Literal(v) => names_none(*v),
        Expression::Slot(n) => *n != 0,
        _ => false,
    }
}

pub(crate) fn is_setting(s: &Statement) -> bool
    ensures { IsTrue result ↔ IsSetting (plain_statement s.now) }
{
    match s {
        Statement::SetSlot(n, e) => 0 != *n && is_silent(e),
        _ => false,
    }
}

pub(crate) fn is_field_setting(s: &Statement) -> bool
    ensures { IsTrue result ↔ IsFieldSetting (plain_statement s.now) }
{
    match s {
        Statement::SetField { target, value, .. } => is_slot(0, target) && is_silent(value),
        _ => false,
    }
}

fn is_return(s: &Statement) -> bool
    ensures { IsTrue result ↔ IsReturn (plain_statement s.now) }
{
    match s {
        Statement::ReturnNothing => true,
        Statement::ReturnValue(e) => is_silent(e),
        _ => false,
    }
}

pub(crate) fn is_after(ss: &[Statement]) -> bool
    ensures { IsTrue result ↔ IsAfter (statements_of ss.now) }
{
    match ss {
        [] => true,
        [s, rest @ ..] => rest.is_empty() && is_return(s),
    }
}

pub(crate) fn is_lock_making(f: usize, s: &Statement) -> bool
    ensures { IsTrue result ↔ plain_statement s.now ≡ SetField (Slot 0) f MakeLock }
{
    match s {
        Statement::SetField {
            target,
            field,
            value: Expression::MakeLock,
        } => *field == f && is_slot(0, target),
        _ => false,
    }
}
