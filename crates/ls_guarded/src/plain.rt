// Whether expressions and statements touch no monitor, wait for no lock, and call marked methods alone.

ghost use Rattle.std.specs.Prelude.{◌↔◌, IsTrue, map};
ghost use Rattle.ls_checked.specs.Plain.{all_plain, plain, plain_class, plain_statement, statements_of};
ghost use Rattle.ls_one_at_a_time.specs.Inner.{ArePlain, IsPlain, MayCall, RunPlain, RunsPlain};
ghost use Rattle.ls_guarded.specs.Marks.{IsMarked};

use crate::marks::is_marked;
use ls_checked::tree::{Called, Class, Expression, Expressions, Statement};
use ls_source_store::lookups::constructor_of;

/// Whether what a call runs is a marked method, or neither waits nor is of a monitor.
pub fn may_call(marks: &[bool], classes: &[Class], called: Called) -> bool
    ensures { IsTrue result ↔ MayCall (IsMarked marks.now) (map plain_class classes.now) called }
{
    match called {
        Called::Method(m) => is_marked(marks, m),
        Called::LockIt | Called::HoldMonitor(_) | Called::FreeMonitor(_) => false,
        Called::UnlockIt
        | Called::TryIt
        | Called::AskIt
        | Called::GetReference(_)
        | Called::IsMarked(_)
        | Called::GetBoth(_)
        | Called::SetBoth
        | Called::CompareAndSet
        | Called::Attempt => true,
    }
}

/// Whether an expression is so.
#[cycle(expressions)]
pub fn is_plain(marks: &[bool], classes: &[Class], e: &Expression) -> bool
    ensures { IsTrue result ↔ IsPlain (IsMarked marks.now) (map plain_class classes.now) (plain e.now) }
{
    match e {
        Expression::Literal(_) | Expression::Slot(_) | Expression::MakeLock => true,
        Expression::Field { target, .. } => is_plain(marks, classes, target),
        Expression::Item(a, b) | Expression::Binary(_, a, b) => is_plain(marks, classes, a)
            && is_plain(marks, classes, b),
        Expression::And(a, b) | Expression::Or(a, b) => is_plain(marks, classes, a)
            && is_plain(marks, classes, b),
        Expression::Negate(a) | Expression::Not(a) | Expression::MakeArray(a) => is_plain(
            marks, classes, a,
        ),
        Expression::Call(a, called, es) => is_plain(marks, classes, a)
            && may_call(marks, classes, *called)
            && are_plain(marks, classes, es),
        Expression::MakeObject(class, es) => is_marked(marks, constructor_of(classes, *class))
            && are_plain(marks, classes, es),
        Expression::MakeMarkable(_, es) => are_plain(marks, classes, es),
    }
}

/// Whether arguments are so.
#[cycle(expressions)]
pub fn are_plain(marks: &[bool], classes: &[Class], es: &Expressions) -> bool
    ensures { IsTrue result ↔ ArePlain (IsMarked marks.now) (map plain_class classes.now) (all_plain es.now) }
{
    match es {
        Expressions::End => true,
        Expressions::More(e, others) => is_plain(marks, classes, e)
            && are_plain(marks, classes, others),
    }
}

/// Whether a statement is so, and never assigns a slot.
#[cycle(statements)]
#[tactic(auto, using(ls_checked::proofs::Rows::block_made))]
pub fn runs_plain(marks: &[bool], classes: &[Class], slot: usize, s: &Statement) -> bool
    ensures { IsTrue result ↔
        RunsPlain (IsMarked marks.now) (map plain_class classes.now) slot (plain_statement s.now) }
{
    match s {
        Statement::Block(ss) => run_plain(marks, classes, slot, ss),
        Statement::SetSlot(n, e) => slot != *n && is_plain(marks, classes, e),
        Statement::Evaluate(e) | Statement::ReturnValue(e) => is_plain(marks, classes, e),
        Statement::SetField { target, value, .. } => is_plain(marks, classes, target)
            && is_plain(marks, classes, value),
        Statement::AddField { target, value, .. } => is_plain(marks, classes, target)
            && is_plain(marks, classes, value),
        Statement::SetItem {
            array,
            index,
            value,
        } => is_plain(marks, classes, array)
            && is_plain(marks, classes, index)
            && is_plain(marks, classes, value),
        Statement::If(e, a, b) => is_plain(marks, classes, e)
            && runs_plain(marks, classes, slot, a)
            && runs_plain(marks, classes, slot, b),
        Statement::While(e, a) => is_plain(marks, classes, e)
            && runs_plain(marks, classes, slot, a),
        Statement::Break(_) | Statement::Continue(_) | Statement::ReturnNothing => true,
        Statement::Try(a, b) => runs_plain(marks, classes, slot, a)
            && runs_plain(marks, classes, slot, b),
    }
}

/// Whether statements are so.
#[cycle(statements)]
pub fn run_plain(marks: &[bool], classes: &[Class], slot: usize, ss: &[Statement]) -> bool
    ensures { IsTrue result ↔ RunPlain (IsMarked marks.now) (map plain_class classes.now) slot (statements_of ss.now) }
{
    for s in ss {
        if !runs_plain(marks, classes, slot, s) {
            return false;
        }
    }
    true
}
