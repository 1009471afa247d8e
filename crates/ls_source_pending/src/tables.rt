// The locals of a body when it is entered, what it answers without a value, and expressions that are known at once.

ghost use Rattle.std.specs.Prelude.{◌≡◌, ◌∷◌, Some, IfOk};
ghost use Rattle.ls_checked.specs.Plain.{plain};
ghost use Rattle.ls_meaning.specs.Methods.{frame, answer_without};
ghost use Rattle.ls_source_pending.specs.ExpressionMoves.{at_hand, computed, near, known};

use ls_checked::tree::{Expression, Operator};
use ls_events::value::{Value, ValueType};
use ls_source_store::value::{divides_by_zero, operated, start_of, starts_of, value_at};
use std::alloc::{AllocError, Global};

/// The slots of a method when it is entered. The only refusal is that memory ran out.
pub fn frame(
    alloc: Global,
    types: &[ValueType],
    this: Value,
    values: &[Value],
) -> Result<Vec<Value>, AllocError>
    ensures { IfOk result (λ v. v.items ≡ frame types.now (this ∷ values.now)) }
{
    let mut all = Vec::new(alloc);
    all.push(this)?;
    all.extend_from_slice(values)?;
    if all.len() < types.len() {
        let locals = starts_of(alloc, &types[all.len()..])?;
        all.extend_from_slice(&locals)?;
    }
    Ok(all)
}

/// What a call answers if its body completes without a value.
pub fn answer_without(answered: Option<ValueType>) -> Value
    ensures { result ≡ answer_without answered }
{
    match answered {
        None => Value::Reference(0),
        Some(t) => start_of(t),
    }
}

/// The value of an operand at hand: a literal or a local.
#[inline(always)]
pub fn at_hand(locals: &[Value], e: &Expression) -> Option<Value>
    ensures { result ≡ at_hand (plain e.now) locals.now }
{
    match e {
        Expression::Literal(v) => Some(*v),
        Expression::Slot(n) => Some(value_at(locals, *n)),
        _ => None,
    }
}

// What an operator computes, unless it divides by 0.
#[inline(always)]
fn undivided(op: Operator, x: Value, y: Value) -> Option<Value>
    ensures { result ≡ computed op (Some x) (Some y) }
{
    if divides_by_zero(op, y) {
        None
    } else {
        Some(operated(op, x, y))
    }
}

// What an operator computes of operands at hand.
fn operated_at_hand(locals: &[Value], op: Operator, a: &Expression, b: &Expression) -> Option<Value>
    ensures { result ≡ computed op (at_hand (plain a.now) locals.now) (at_hand (plain b.now) locals.now) }
{
    match at_hand(locals, a) {
        None => None,
        Some(x) => match at_hand(locals, b) {
            None => None,
            Some(y) => undivided(op, x, y),
        },
    }
}

// The value of an operand at hand, or of an operator on such operands.
#[inline(always)]
fn near(locals: &[Value], e: &Expression) -> Option<Value>
    ensures { result ≡ near (plain e.now) locals.now }
{
    match e {
        Expression::Literal(v) => Some(*v),
        Expression::Slot(n) => Some(value_at(locals, *n)),
        Expression::Binary(op, a, b) => operated_at_hand(locals, *op, a, b),
        _ => None,
    }
}

// What an operator computes, if its operands are near.
fn operated_at_once(locals: &[Value], op: Operator, a: &Expression, b: &Expression) -> Option<Value>
    ensures { result ≡ computed op (near (plain a.now) locals.now) (near (plain b.now) locals.now) }
{
    match near(locals, a) {
        None => None,
        Some(x) => match near(locals, b) {
            None => None,
            Some(y) => undivided(op, x, y),
        },
    }
}

/// The value of an expression that asks for nothing and is found at once: a literal, a local, or an operator whose
/// operands are such, or operators on such.
#[inline(always)]
pub fn known(locals: &[Value], e: &Expression) -> Option<Value>
    ensures { result ≡ known (plain e.now) locals.now }
{
    match e {
        Expression::Literal(v) => Some(*v),
        Expression::Slot(number) => Some(value_at(locals, *number)),
        Expression::Binary(op, a, b) => operated_at_once(locals, *op, a, b),
        _ => None,
    }
}
