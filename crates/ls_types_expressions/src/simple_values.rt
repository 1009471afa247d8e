// Simple forms: assignments, what is added to a variable, calls.

ghost use Rattle.std.specs.Prelude.{◌≡◌, ◌++◌, IfOk, List, map};
ghost use Rattle.ls_checked.specs.CheckedTree as checked;
ghost use Rattle.ls_checked.specs.declared.tree.Operator.TheVariants as operators;
ghost use Rattle.ls_checked.specs.Plain.{plain, plain_statement};
ghost use Rattle.ls_types_elaboration.specs.Elaborated.{with_ok, each};
ghost use Rattle.ls_types_elaboration.specs.StaticTypes.{of_type};
ghost use Rattle.ls_types_elaboration.specs.Trees.{span_of};
ghost use Rattle.ls_events.specs.declared.value.ValueType.TheVariants.{Int as int_type};
ghost use Rattle.ls_types_elaboration.specs.declared.static_types.Static.TheVariants.{Of};
ghost use Rattle.ls_types_elaboration.specs.TypedExpressions.{typed};
ghost use Rattle.ls_types_elaboration.specs.TypedStatements.{counter, added, addition, step, simple, simples};
ghost use Rattle.ls_types_elaboration.specs.TypedStatements.{one_simple, unwrapped};
ghost use Rattle.ls_types_elaboration.specs.Placed.{placed};
ghost use Rattle.ls_types_elaboration.specs.PlacedStatements.{placed_simple};
ghost use Rattle.ls_types_tables.specs.ByName.{known_of};
ghost use Rattle.ls_types_expressions.specs.Views.{locals_of, counter_of, plain_counter};
ghost use Rattle.ls_types_elaboration.specs.Answers.{Gives};

use crate::assignments::{assignment, left_side};
use crate::expressions::{fitting, typed};
use crate::places::span_of;
use crate::site::Site;
use ls_checked::tree::{Expression, Operator, Statement};
use ls_events::value::{Value, ValueType};
use ls_lexer::token::Span;
use ls_together::two;
use ls_tree::tree::{Expression as Parsed, Simple};
use ls_types_elaboration::mismatch::Mismatch;
use ls_types_elaboration::rule::{Broken, CheckFault, Rule, broken_at};
use ls_types_elaboration::static_types::{Static, Typed};
use ls_types_elaboration::together::also;
use std::alloc::{AllocError, Global};

/// What is added to: a local, or a field of an object.
#[derive(Drop)]
pub enum Counter {
    Slot(usize),
    Field { target: Expression, field: usize },
}

// A value of another type where an `int` is wanted.
fn no_integer(found: ValueType, span: Span) -> Broken
    ensures { result ≡ record { rule = of_type int_type (Of found); span = span } }
{
    let mismatch = Mismatch::Type {
        wanted: ValueType::Int,
        found: Static::Of(found),
    };
    broken_at(Rule::WrongType(mismatch), span)
}

fn counter_at(span: Span, x: Typed) -> Result<Counter, Broken>
    ensures { plain_counter result ≡ counter span (plain x.expression) x.of }
{
    let Static::Of(value_type) = x.of else {
        return Err(broken_at(Rule::NotAssignable, span));
    };
    match x.expression {
        Expression::Slot(0) => Err(broken_at(Rule::NotAssignable, span)),
        Expression::Slot(n) => match value_type {
            ValueType::Int => Ok(Counter::Slot(n)),
            _ => Err(no_integer(value_type, span)),
        },
        Expression::Field { target, field, .. } => match value_type {
            ValueType::Int => Ok(Counter::Field {
                target: Box::into_inner(target),
                field,
            }),
            _ => Err(no_integer(value_type, span)),
        },
        Expression::Item(..) => Err(no_integer(value_type, span)),
        _ => Err(broken_at(Rule::NotAssignable, span)),
    }
}

fn sum(alloc: Global, a: Expression, b: Expression) -> Result<Expression, AllocError>
    ensures { IfOk result (λ e. plain e ≡ checked.Binary operators.Add (plain a) (plain b)) }
{
    let (a, b) = two(alloc, a, b)?;
    Ok(Expression::Binary(Operator::Add, a, b))
}

fn added(alloc: Global, to: Counter, v: Expression) -> Result<Statement, AllocError>
    ensures { IfOk result (λ s. plain_statement s ≡ added (counter_of to) (plain v)) }
{
    match to {
        Counter::Slot(n) => {
            let value = sum(alloc, Expression::Slot(n), v)?;
            Ok(Statement::SetSlot(n, value))
        }
        Counter::Field { target, field } => Ok(Statement::AddField {
            target,
            field,
            value: v,
        }),
    }
}

// What `++` adds, or else what `--` adds.
fn step(up: bool) -> Expression
    ensures { plain result ≡ step up }
{
    if up {
        Expression::Literal(Value::Int(1))
    } else {
        Expression::Literal(Value::Int(-1))
    }
}

// The variable to which a form adds.
fn counted(site: Site, target: &Parsed) -> Result<Counter, CheckFault>
    ensures { Gives counter_of result
        (with_ok (typed (known_of site.entry.known) (locals_of site.entry) (unwrapped (placed target.now)))
        (λ x. counter (span_of (placed target.now)) x.expression x.static)) }
{
    let x = left_side(site, target)?;
    let to = counter_at(span_of(target), x)?;
    Ok(to)
}

/// A simple form. Refused only by a broken rule, or if memory runs out.
pub fn simple(site: Site, s: &Simple) -> Result<Statement, CheckFault>
    ensures { Gives plain_statement result
        (simple (known_of site.entry.known) (locals_of site.entry) (placed_simple s.now)) }
{
    match s {
        Simple::Assign { target, value } => assignment(site, target, value),
        Simple::Add { target, value } => {
            let to = counted(site, target)?;
            let (to, v) = also(to, fitting(site, ValueType::Int, value))?;
            Ok(added(site.alloc, to, v)?)
        }
        Simple::Count { up, target, .. } => {
            let to = counted(site, target)?;
            Ok(added(site.alloc, to, step(*up))?)
        }
        Simple::Evaluate(e) => {
            let x = typed(site, e)?;
            Ok(Statement::Evaluate(x.expression))
        }
    }
}

// One more simple form.
fn one_simple(site: Site, front: &mut Vec<Statement>, s: &Simple) -> Result<(), CheckFault>
    ensures { Gives (λ _. map plain_statement front.new.items) result
        (one_simple (known_of site.entry.known) (locals_of site.entry) (map plain_statement front.old.items)
        (placed_simple s.now)) }
{
    let s = simple(site, s)?;
    front.push(s)?;
    Ok(())
}

/// Simple forms, one after another. Refused only by a broken rule, or if memory runs out.
pub fn simples(site: Site, ss: &[Simple]) -> Result<Vec<Statement>, CheckFault>
    ensures { Gives (λ v. map plain_statement v.items) result
        (simples (known_of site.entry.known) (locals_of site.entry) (map placed_simple ss.now)) }
{
    let mut front = Vec::new(site.alloc);
    for s in ss {
        one_simple(site, &mut front, s)?;
    }
    Ok(front)
}
