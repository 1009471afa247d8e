// Whether the constants of expressions and statements name no object.

ghost use Rattle.std.specs.Prelude.{IsTrue};
ghost use Rattle.ls_checked.specs.Plain.{all_plain, plain, plain_statement, statements_of};
ghost use Rattle.ls_meaning.specs.Constants.{AllConstant, HasConstants, HaveConstants, IsConstant, UseConstants};
ghost use Rattle.ls_meaning.specs.Constants.{UsesConstants};

use ls_checked::tree::{Expression, Expressions, Statement};
use ls_events::value::Value;

/// Whether a value is an int, a boolean or null.
pub fn is_constant(value: Value) -> bool
    ensures { IsTrue result → IsConstant value }
{
    match value {
        Value::Int(_) | Value::Boolean(_) => true,
        Value::Reference(object) => object == 0,
        Value::Pair { .. } => false,
    }
}

/// Whether values are ints, booleans or null.
pub fn are_constant(values: &[Value]) -> bool
    ensures { IsTrue result → AllConstant values.now }
{
    for value in values {
        if !is_constant(*value) {
            return false;
        }
    }
    true
}

/// Whether the constants of an expression name no object.
#[cycle(expressions)]
pub fn has_constants(e: &Expression) -> bool
    ensures { IsTrue result → HasConstants (plain e.now) }
{
    match e {
        Expression::Literal(value) => is_constant(*value),
        Expression::Slot(_) | Expression::MakeLock => true,
        Expression::Field { target, .. } => has_constants(target),
        Expression::Item(a, b) | Expression::Binary(_, a, b) => has_constants(a)
            && has_constants(b),
        Expression::And(a, b) | Expression::Or(a, b) => has_constants(a) && has_constants(b),
        Expression::Negate(a) | Expression::Not(a) | Expression::MakeArray(a) => has_constants(a),
        Expression::Call(a, _, es) => has_constants(a) && have_constants(es),
        Expression::MakeObject(_, es) | Expression::MakeMarkable(_, es) => have_constants(es),
    }
}

/// Whether those of arguments do.
#[cycle(expressions)]
pub fn have_constants(es: &Expressions) -> bool
    ensures { IsTrue result → HaveConstants (all_plain es.now) }
{
    match es {
        Expressions::End => true,
        Expressions::More(e, others) => has_constants(e) && have_constants(others),
    }
}

/// Whether those of a statement do.
#[cycle(statements)]
#[tactic(auto, using(ls_checked::proofs::Rows::block_made))]
pub fn uses_constants(s: &Statement) -> bool
    ensures { IsTrue result → UsesConstants (plain_statement s.now) }
{
    match s {
        Statement::Block(ss) => use_constants(ss),
        Statement::SetSlot(_, e) | Statement::Evaluate(e) | Statement::ReturnValue(e) =>
            has_constants(e),
        Statement::SetField { target, value, .. } => has_constants(target) && has_constants(value),
        Statement::AddField { target, value, .. } => has_constants(target) && has_constants(value),
        Statement::SetItem {
            array,
            index,
            value,
        } => has_constants(array) && has_constants(index) && has_constants(value),
        Statement::If(e, a, b) => has_constants(e) && uses_constants(a) && uses_constants(b),
        Statement::While(e, a) => has_constants(e) && uses_constants(a),
        Statement::Break(_) | Statement::Continue(_) | Statement::ReturnNothing => true,
        Statement::Try(a, b) => uses_constants(a) && uses_constants(b),
    }
}

/// Whether those of statements do.
#[cycle(statements)]
pub fn use_constants(ss: &[Statement]) -> bool
    ensures { IsTrue result → UseConstants (statements_of ss.now) }
{
    for s in ss {
        if !uses_constants(s) {
            return false;
        }
    }
    true
}
