// The operators on typed operands.

ghost use Rattle.std.specs.Prelude.{◌≡◌, if◌then◌else◌};
ghost use Rattle.ls_tree.specs.declared.tree.BinaryOp.TheVariants.{And as and_written, Or as or_written};
ghost use Rattle.ls_types_elaboration.specs.Operators.{unary_of, binary_of, computed, compared};
ghost use Rattle.ls_types_elaboration.specs.StaticTypes.{comparable, Typed as the_typed};
ghost use Rattle.ls_types_elaboration.specs.Elaborated.{Elaborated, broken};
ghost use Rattle.ls_types_elaboration.specs.declared.mismatch.Mismatch.TheVariants as mismatches;
ghost use Rattle.ls_types_elaboration.specs.declared.rule.Rule.TheVariants.{WrongType};
ghost use Rattle.ls_types_elaboration.specs.Answers.{Gives, typed_of, unless_refused};

use ls_checked::tree::{Expression, Operator};
use ls_events::value::ValueType;
use ls_lexer::token::Span;
use ls_together::two;
use ls_tree::tree::{BinaryOp, UnaryOp};
use ls_types_elaboration::mismatch::Mismatch;
use ls_types_elaboration::rule::{Broken, CheckFault, Rule, broken_at};
use ls_types_elaboration::static_types::{Static, Typed, as_type, as_value, comparable, typed_as};
use ls_types_elaboration::together::also;
use std::alloc::{AllocError, Global};

/// The span of a binary expression, and the spans of its operands.
#[derive(Copy)]
pub struct Spans {
    pub whole: Span,
    pub left: Span,
    pub right: Span,
}

impl Clone for Spans {
    fn clone(&self) -> Result<Spans, AllocError> {
        Ok(*self)
    }
}

/// A unary operator on an operand with this span. If the operand doesn't fit, the rule `WrongType` is broken. Else the
/// only refusal is that memory ran out.
pub fn unary_of(alloc: Global, op: UnaryOp, span: Span, x: Typed) -> Result<Typed, CheckFault>
    ensures { Gives typed_of result (unary_of op span (typed_of x)) }
{
    match op {
        UnaryOp::Minus => {
            let e = as_type(ValueType::Int, span, x)?;
            Ok(typed_as(ValueType::Int, Expression::Negate(Box::new(alloc, e)?)))
        }
        UnaryOp::Not => {
            let e = as_type(ValueType::Boolean, span, x)?;
            Ok(typed_as(ValueType::Boolean, Expression::Not(Box::new(alloc, e)?)))
        }
    }
}

// Ints on both sides.
fn computed(
    alloc: Global,
    t: ValueType,
    op: Operator,
    spans: Spans,
    x: Typed,
    y: Typed,
) -> Result<Typed, CheckFault>
    ensures { Gives typed_of result (computed t op spans.left spans.right (typed_of x) (typed_of y)) }
{
    let (y, a) = also(y, as_type(ValueType::Int, spans.left, x))?;
    let (a, b) = also(a, as_type(ValueType::Int, spans.right, y))?;
    let (a, b) = two(alloc, a, b)?;
    Ok(typed_as(t, Expression::Binary(op, a, b)))
}

fn may_compare(span: Span, x: Static, y: Static) -> Result<(), Broken>
    ensures { (go : Elaborated the_typed) → (if comparable x y then go else broken
        (WrongType (mismatches.Operands x y)) span) ≡
        unless_refused result go }
{
    if comparable(x, y) {
        Ok(())
    } else {
        let mismatch = Mismatch::Operands { left: x, right: y };
        Err(broken_at(Rule::WrongType(mismatch), span))
    }
}

// Two values that may be compared.
fn compared(
    alloc: Global,
    op: Operator,
    spans: Spans,
    x: Typed,
    y: Typed,
) -> Result<Typed, CheckFault>
    ensures { Gives typed_of result (compared op spans.whole spans.left spans.right (typed_of x) (typed_of y)) }
{
    let (y, x) = also(y, as_value(spans.left, x))?;
    let (x, y) = also(x, as_value(spans.right, y))?;
    let fits = may_compare(spans.whole, x.of, y.of);
    let ((x, y), _) = also((x, y), fits)?;
    let (a, b) = two(alloc, x.expression, y.expression)?;
    Ok(typed_as(ValueType::Boolean, Expression::Binary(op, a, b)))
}

// Truth values on both sides of `&&` or `||`.
fn decided(alloc: Global, and: bool, spans: Spans, x: Typed, y: Typed) -> Result<Typed, CheckFault>
    ensures { Gives typed_of result
        (binary_of (if and then and_written else or_written) spans.whole spans.left spans.right (typed_of x)
        (typed_of y)) }
{
    let (y, a) = also(y, as_type(ValueType::Boolean, spans.left, x))?;
    let (a, b) = also(a, as_type(ValueType::Boolean, spans.right, y))?;
    let (a, b) = two(alloc, a, b)?;
    if and {
        Ok(typed_as(ValueType::Boolean, Expression::And(a, b)))
    } else {
        Ok(typed_as(ValueType::Boolean, Expression::Or(a, b)))
    }
}

/// A binary operator with its operands. If an operand doesn't fit, the rule `WrongType` is broken. Else the only
/// refusal is that memory ran out.
pub fn binary_of(
    alloc: Global,
    op: BinaryOp,
    spans: Spans,
    x: Typed,
    y: Typed,
) -> Result<Typed, CheckFault>
    ensures { Gives typed_of result (binary_of op spans.whole spans.left spans.right (typed_of x) (typed_of y)) }
{
    match op {
        BinaryOp::Or => decided(alloc, false, spans, x, y),
        BinaryOp::And => decided(alloc, true, spans, x, y),
        BinaryOp::Equal => compared(alloc, Operator::Equal, spans, x, y),
        BinaryOp::NotEqual => compared(alloc, Operator::NotEqual, spans, x, y),
        BinaryOp::Less => computed(alloc, ValueType::Boolean, Operator::Less, spans, x, y),
        BinaryOp::Greater => computed(alloc, ValueType::Boolean, Operator::Greater, spans, x, y),
        BinaryOp::LessEqual => computed(
            alloc,
            ValueType::Boolean,
            Operator::LessEqual,
            spans,
            x,
            y,
        ),
        BinaryOp::GreaterEqual => {
            computed(
                alloc,
                ValueType::Boolean,
                Operator::GreaterEqual,
                spans,
                x,
                y,
            )
        }
        BinaryOp::Add => computed(alloc, ValueType::Int, Operator::Add, spans, x, y),
        BinaryOp::Subtract => computed(alloc, ValueType::Int, Operator::Subtract, spans, x, y),
        BinaryOp::Multiply => computed(alloc, ValueType::Int, Operator::Multiply, spans, x, y),
        BinaryOp::Divide => computed(alloc, ValueType::Int, Operator::Divide, spans, x, y),
        BinaryOp::Remainder => computed(alloc, ValueType::Int, Operator::Remainder, spans, x, y),
    }
}
