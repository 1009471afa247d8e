// Whether the object is no value in expressions and statements, and one of its fields is never written.

ghost use Rattle.std.specs.Prelude.{◌↔◌, IsTrue, map};
ghost use Rattle.ls_checked.specs.Plain.{all_plain, plain, plain_class, plain_statement, statements_of};
ghost use Rattle.ls_one_at_a_time.specs.Clean.{AreClean, IsClean, IsOperation, IsOwn, IsPlace, IsThis, RunClean};
ghost use Rattle.ls_one_at_a_time.specs.Clean.{RunsClean};
ghost use Rattle.ls_one_at_a_time.specs.Clean.{IsValueSlot};
ghost use Rattle.ls_meaning.specs.Values.{reference_of};
ghost use Rattle.std.specs.Prelude.{◌≡◌};
ghost use Rattle.ls_guarded.specs.Marks.{IsMarked, OnOthers, OnThis};

use crate::marks::{Callees, is_marked};
use ls_checked::tree::{Called, Class, Expression, Expressions, Statement};
use ls_events::value::Value;
use ls_source_store::lookups::constructor_of;

/// Whether a value names no object.
pub fn names_none(value: Value) -> bool
    ensures { IsTrue result ↔ (reference_of value ≡ 0) }
{
    match value {
        Value::Int(_) | Value::Boolean(_) => true,
        Value::Reference(object) => object == 0,
        Value::Pair { reference, .. } => reference == 0,
    }
}

/// Whether a marked method is called, or what touches no lock.
pub fn is_operation(marks: &[bool], called: Called) -> bool
    ensures { IsTrue result ↔ IsOperation (IsMarked marks.now) called }
{
    match called {
        Called::Method(m) => is_marked(marks, m),
        Called::LockIt
        | Called::UnlockIt
        | Called::TryIt
        | Called::AskIt
        | Called::HoldMonitor(_)
        | Called::FreeMonitor(_) => false,
        Called::GetReference(_)
        | Called::IsMarked(_)
        | Called::GetBoth(_)
        | Called::SetBoth
        | Called::CompareAndSet
        | Called::Attempt => true,
    }
}

/// Whether a marked method is called.
pub fn is_own(marks: &[bool], called: Called) -> bool
    ensures { IsTrue result ↔ IsOwn (IsMarked marks.now) called }
{
    match called {
        Called::Method(m) => is_marked(marks, m),
        _ => false,
    }
}

/// Whether an expression is `this`, where that is the object.
pub fn is_this(this: bool, e: &Expression) -> bool
    ensures { IsTrue result ↔ IsThis this (plain e.now) }
{
    match e {
        Expression::Slot(n) => *n == 0 && this,
        _ => false,
    }
}

/// Whether a slot isn't the object.
pub fn is_value_slot(this: bool, slot: usize) -> bool
    ensures { IsTrue result ↔ IsValueSlot this slot }
{
    !this || slot != 0
}

/// Whether the object is no value in an expression.
#[cycle(expressions)]
pub fn is_clean(callees: &Callees, classes: &[Class], f: usize, this: bool, e: &Expression) -> bool
    ensures { IsTrue result ↔
        IsClean (OnThis callees.now) (OnOthers callees.now) (map plain_class classes.now) f this (plain e.now) }
{
    match e {
        Expression::Literal(value) => names_none(*value),
        Expression::Slot(n) => is_value_slot(this, *n),
        Expression::MakeLock => true,
        Expression::Field { target, .. } => is_this(this, target)
            || is_clean(callees, classes, f, this, target),
        Expression::Item(a, b) | Expression::Binary(_, a, b) => {
            is_clean(callees, classes, f, this, a) && is_clean(callees, classes, f, this, b)
        }
        Expression::And(a, b) | Expression::Or(a, b) => {
            is_clean(callees, classes, f, this, a) && is_clean(callees, classes, f, this, b)
        }
        Expression::Negate(a) | Expression::Not(a) | Expression::MakeArray(a) => {
            is_clean(callees, classes, f, this, a)
        }
        Expression::Call(a, called, es) => {
            ((is_this(this, a) && is_own(&callees.own, *called))
                || (is_clean(callees, classes, f, this, a)
                    && is_operation(&callees.others, *called)))
                && are_clean(callees, classes, f, this, es)
        }
        Expression::MakeObject(class, es) => is_marked(
            &callees.others,
            constructor_of(classes, *class),
        ) && are_clean(callees, classes, f, this, es),
        Expression::MakeMarkable(_, es) => are_clean(callees, classes, f, this, es),
    }
}

/// Whether it is none in arguments.
#[cycle(expressions)]
pub fn are_clean(
    callees: &Callees,
    classes: &[Class],
    f: usize,
    this: bool,
    es: &Expressions,
) -> bool
    ensures { IsTrue result ↔
        AreClean (OnThis callees.now) (OnOthers callees.now) (map plain_class classes.now) f this (all_plain es.now) }
{
    match es {
        Expressions::End => true,
        Expressions::More(e, rest) => is_clean(callees, classes, f, this, e)
            && are_clean(callees, classes, f, this, rest),
    }
}

/// Whether a field of an object may be written: another one of `this`, or any of another object.
pub fn is_place(
    callees: &Callees,
    classes: &[Class],
    f: usize,
    this: bool,
    e: &Expression,
    field: usize,
) -> bool
    ensures { IsTrue result ↔
        IsPlace (OnThis callees.now) (OnOthers callees.now) (map plain_class classes.now) f this (plain e.now) field }
{
    (is_this(this, e) && field != f) || is_clean(callees, classes, f, this, e)
}

/// Whether the object is no value in a statement, and its field isn't written there.
#[cycle(statements)]
#[tactic(auto, using(ls_checked::proofs::Rows::block_made))]
pub fn runs_clean(callees: &Callees, classes: &[Class], f: usize, this: bool, s: &Statement) -> bool
    ensures { IsTrue result ↔
        RunsClean (OnThis callees.now) (OnOthers callees.now) (map plain_class classes.now) f this
        (plain_statement s.now) }
{
    match s {
        Statement::Block(ss) => run_clean(callees, classes, f, this, ss),
        Statement::SetSlot(n, e) => is_value_slot(this, *n)
            && is_clean(callees, classes, f, this, e),
        Statement::Evaluate(e) | Statement::ReturnValue(e) => {
            is_clean(callees, classes, f, this, e)
        }
        Statement::SetField {
            target,
            field,
            value,
        } => is_place(callees, classes, f, this, target, *field)
            && is_clean(callees, classes, f, this, value),
        Statement::AddField {
            target,
            field,
            value,
        } => is_place(callees, classes, f, this, target, *field)
            && is_clean(callees, classes, f, this, value),
        Statement::SetItem {
            array,
            index,
            value,
        } => is_clean(callees, classes, f, this, array)
            && is_clean(callees, classes, f, this, index)
            && is_clean(callees, classes, f, this, value),
        Statement::If(e, a, b) => is_clean(callees, classes, f, this, e)
            && runs_clean(callees, classes, f, this, a)
            && runs_clean(callees, classes, f, this, b),
        Statement::While(e, a) => is_clean(callees, classes, f, this, e)
            && runs_clean(callees, classes, f, this, a),
        Statement::Break(_) | Statement::Continue(_) | Statement::ReturnNothing => true,
        Statement::Try(a, b) => runs_clean(callees, classes, f, this, a)
            && runs_clean(callees, classes, f, this, b),
    }
}

/// Whether it is none in statements.
#[cycle(statements)]
pub fn run_clean(
    callees: &Callees,
    classes: &[Class],
    f: usize,
    this: bool,
    ss: &[Statement],
) -> bool
    ensures { IsTrue result ↔
        RunClean (OnThis callees.now) (OnOthers callees.now) (map plain_class classes.now) f this
        (statements_of ss.now) }
{
    for s in ss {
        if !runs_clean(callees, classes, f, this, s) {
            return false;
        }
    }
    true
}
