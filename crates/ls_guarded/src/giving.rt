// Which methods may give back a lock that another call has taken.

ghost use Rattle.std.specs.Prelude.{◌≡◌, IfOk, length, map};
ghost use Rattle.ls_checked.specs.Plain.{all_plain, plain, plain_class, plain_file, plain_statement, statements_of};
ghost use Rattle.ls_guarded.specs.Giving.{gives_back, is_used, marks_within, next_marks, uses_by, uses_by_all};
ghost use Rattle.ls_guarded.specs.Giving.{uses_in, uses_in_all};

use crate::marks::is_marked;
use ls_checked::tree::{Called, Class, Expression, Expressions, File, Statement};
use ls_source_store::lookups::constructor_of;
use std::alloc::{AllocError, Global};

/// What a call may do with a lock.
#[derive(Copy)]
pub enum LockUse {
    /// It takes one, by `lock()` or `tryLock()`.
    Takes,
    /// It gives one back, by `unlock()`.
    GivesBack,
}

impl Clone for LockUse {
    fn clone(&self) -> Result<LockUse, AllocError> {
        Ok(*self)
    }
}

/// Whether a lock is used so, or a marked method is called.
fn is_used(how: LockUse, marks: &[bool], called: Called) -> bool
    ensures { result ≡ is_used how marks.now called }
{
    match called {
        Called::Method(m) => is_marked(marks, m),
        Called::LockIt | Called::TryIt => matches!(how, LockUse::Takes),
        Called::UnlockIt => matches!(how, LockUse::GivesBack),
        Called::AskIt
        | Called::HoldMonitor(_)
        | Called::FreeMonitor(_)
        | Called::GetReference(_)
        | Called::IsMarked(_)
        | Called::GetBoth(_)
        | Called::SetBoth
        | Called::CompareAndSet
        | Called::Attempt => false,
    }
}

/// Whether that is so in an expression.
#[cycle(expressions)]
fn uses_in(how: LockUse, marks: &[bool], classes: &[Class], e: &Expression) -> bool
    ensures { result ≡ uses_in how marks.now (map plain_class classes.now) (plain e.now) }
{
    match e {
        Expression::Literal(_) | Expression::Slot(_) | Expression::MakeLock => false,
        Expression::Field { target, .. } => uses_in(how, marks, classes, target),
        Expression::Item(a, b) | Expression::Binary(_, a, b) => uses_in(how, marks, classes, a)
            || uses_in(how, marks, classes, b),
        Expression::And(a, b) | Expression::Or(a, b) => uses_in(how, marks, classes, a)
            || uses_in(how, marks, classes, b),
        Expression::Negate(a) | Expression::Not(a) | Expression::MakeArray(a) => uses_in(
            how, marks, classes, a,
        ),
        Expression::Call(a, called, es) => uses_in(how, marks, classes, a)
            || is_used(how, marks, *called)
            || uses_in_all(how, marks, classes, es),
        Expression::MakeObject(class, es) => is_marked(marks, constructor_of(classes, *class))
            || uses_in_all(how, marks, classes, es),
        Expression::MakeMarkable(_, es) => uses_in_all(how, marks, classes, es),
    }
}

/// Whether it is so in one of some arguments.
#[cycle(expressions)]
fn uses_in_all(how: LockUse, marks: &[bool], classes: &[Class], es: &Expressions) -> bool
    ensures { result ≡ uses_in_all how marks.now (map plain_class classes.now) (all_plain es.now) }
{
    match es {
        Expressions::End => false,
        Expressions::More(e, others) => uses_in(how, marks, classes, e)
            || uses_in_all(how, marks, classes, others),
    }
}

/// Whether it is so in a statement.
#[cycle(statements)]
#[tactic(auto, using(ls_checked::proofs::Rows::block_made))]
fn uses_by(how: LockUse, marks: &[bool], classes: &[Class], s: &Statement) -> bool
    ensures { result ≡ uses_by how marks.now (map plain_class classes.now) (plain_statement s.now) }
{
    match s {
        Statement::Block(ss) => uses_by_all(how, marks, classes, ss),
        Statement::SetSlot(_, e) | Statement::Evaluate(e) | Statement::ReturnValue(e) => uses_in(
            how, marks, classes, e,
        ),
        Statement::SetField { target, value, .. } => uses_in(how, marks, classes, target)
            || uses_in(how, marks, classes, value),
        Statement::AddField { target, value, .. } => uses_in(how, marks, classes, target)
            || uses_in(how, marks, classes, value),
        Statement::SetItem {
            array,
            index,
            value,
        } => uses_in(how, marks, classes, array)
            || uses_in(how, marks, classes, index)
            || uses_in(how, marks, classes, value),
        Statement::If(e, a, b) => uses_in(how, marks, classes, e)
            || uses_by(how, marks, classes, a)
            || uses_by(how, marks, classes, b),
        Statement::While(e, a) => uses_in(how, marks, classes, e)
            || uses_by(how, marks, classes, a),
        Statement::Break(_) | Statement::Continue(_) | Statement::ReturnNothing => false,
        Statement::Try(a, b) => uses_by(how, marks, classes, a) || uses_by(how, marks, classes, b),
    }
}

/// Whether it is so in one of some statements.
#[cycle(statements)]
fn uses_by_all(how: LockUse, marks: &[bool], classes: &[Class], ss: &[Statement]) -> bool
    ensures { result ≡ uses_by_all how marks.now (map plain_class classes.now) (statements_of ss.now) }
{
    for s in ss {
        if uses_by(how, marks, classes, s) {
            return true;
        }
    }
    false
}

/// A mark for each method: whether it uses a lock so itself, or calls a marked method. The only refusal is that memory
/// ran out.
fn next_marks(
    alloc: Global,
    how: LockUse,
    file: &File,
    marks: &[bool],
) -> Result<Vec<bool>, AllocError>
    ensures { IfOk result (λ next. next.items ≡ next_marks how (plain_file file.now) marks.now) }
{
    let mut next = Vec::with_capacity(alloc, file.methods.len())?;
    for method in &file.methods {
        next.push(uses_by(how, marks, &file.classes, &method.body))?;
    }
    Ok(next)
}

/// A mark for each method: whether it uses a lock so, itself or by what it calls. The only refusal is that memory ran
/// out.
fn marks_of(alloc: Global, how: LockUse, file: &File) -> Result<Vec<bool>, AllocError>
    ensures { IfOk result (λ marks. marks.items ≡
        marks_within how (plain_file file.now) (length file.now.methods.items)) }
{
    let mut marks = Vec::new(alloc);
    for _ in 0..file.methods.len() {
        marks = next_marks(alloc, how, file, marks.as_slice())?;
    }
    Ok(marks)
}

/// Whether a method may give back a lock that another call has taken: it unlocks, itself or by what it calls, and takes
/// no lock. The only refusal is that memory ran out.
pub fn gives_back(alloc: Global, file: &File, method: usize) -> Result<bool, AllocError>
    ensures { IfOk result (λ gives. gives ≡ gives_back (plain_file file.now) method) }
{
    let gives = marks_of(alloc, LockUse::GivesBack, file)?;
    let takes = marks_of(alloc, LockUse::Takes, file)?;
    Ok(is_marked(gives.as_slice(), method) && !is_marked(takes.as_slice(), method))
}
