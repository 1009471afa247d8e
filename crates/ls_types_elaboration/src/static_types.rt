// Types of expressions, and what fits where.

ghost use Rattle.std.specs.Prelude.{◌≡◌, Ok};
ghost use Rattle.ls_checked.specs.Plain.{plain};
ghost use Rattle.ls_types_elaboration.specs.StaticTypes.{fits, same_type, is_reference, comparable};
ghost use Rattle.ls_types_elaboration.specs.StaticTypes.{typed_as as typing, as_type, as_value, is_void, is_array};
ghost use Rattle.ls_types_elaboration.specs.StaticTypes.{as_array, result_type as the_result_type};
ghost use Rattle.ls_types_elaboration.specs.Answers.{typed_of, plain_typed, plain_expression};

use crate::mismatch::Mismatch;
use crate::rule::{Broken, Rule, broken_at};
use crate::together::passing;
use ls_checked::tree::Expression;
use ls_events::value::ValueType;
use ls_lexer::token::Span;

/// The type of an expression, the type of `null`, or the "type" of a call of a void method (JLS 4.1, 15.1).
#[derive(Clone, Copy, PartialEq, Eq)]
pub enum Static {
    Of(ValueType),
    NullType,
    Void,
}

/// An expression that is checked, and its type.
#[derive(Drop)]
pub struct Typed {
    pub expression: Expression,
    pub of: Static,
}

fn same_type(t: ValueType, u: ValueType) -> bool
    ensures { result ≡ same_type t u }
{
    match (t, u) {
        (ValueType::Int, ValueType::Int) => true,
        (ValueType::Boolean, ValueType::Boolean) => true,
        (ValueType::BooleanArray, ValueType::BooleanArray) => true,
        (ValueType::Class(m), ValueType::Class(n)) => m == n,
        (ValueType::Lock, ValueType::Lock) => true,
        (ValueType::Markable(m), ValueType::Markable(n)) => m == n,
        _ => false,
    }
}

fn is_reference(t: ValueType) -> bool
    ensures { result ≡ is_reference t }
{
    match t {
        ValueType::Int => false,
        ValueType::Boolean => false,
        _ => true,
    }
}

fn fits(t: ValueType, x: Static) -> bool
    ensures { result ≡ fits t x }
{
    match x {
        Static::Of(u) => same_type(t, u),
        Static::NullType => is_reference(t),
        Static::Void => false,
    }
}

/// Whether `==` may compare two values.
pub fn comparable(x: Static, y: Static) -> bool
    ensures { result ≡ comparable x y }
{
    match (x, y) {
        (Static::Of(t), y) => fits(t, y),
        (Static::NullType, Static::Of(t)) => is_reference(t),
        (Static::NullType, Static::NullType) => true,
        _ => false,
    }
}

/// An expression where a value of a type is wanted. If its type doesn't fit, the rule `WrongType` is broken at the
/// span.
pub fn as_type(t: ValueType, span: Span, x: Typed) -> Result<Expression, Broken>
    ensures { plain_expression result ≡ as_type t span (typed_of x) }
{
    let mismatch = Mismatch::Type {
        wanted: t,
        found: x.of,
    };
    passing(
        x.expression,
        fits(t, x.of),
        broken_at(Rule::WrongType(mismatch), span),
    )
}

fn is_void(x: Static) -> bool
    ensures { result ≡ is_void x }
{
    match x {
        Static::Void => true,
        _ => false,
    }
}

/// An expression where any value is wanted. If it has no value, the rule `WrongType` is broken at the span.
pub fn as_value(span: Span, x: Typed) -> Result<Typed, Broken>
    ensures { plain_typed result ≡ as_value span (typed_of x) }
{
    let value = !is_void(x.of);
    passing(
        x,
        value,
        broken_at(Rule::WrongType(Mismatch::NoValue), span),
    )
}

fn is_array(x: Static) -> bool
    ensures { result ≡ is_array x }
{
    match x {
        Static::Of(ValueType::BooleanArray) => true,
        _ => false,
    }
}

/// An expression where an array is wanted. If it is no array, the rule `WrongType` is broken at the span.
pub fn as_array(span: Span, x: Typed) -> Result<Expression, Broken>
    ensures { plain_expression result ≡ as_array span (typed_of x) }
{
    let mismatch = Mismatch::Type {
        wanted: ValueType::BooleanArray,
        found: x.of,
    };
    passing(
        x.expression,
        is_array(x.of),
        broken_at(Rule::WrongType(mismatch), span),
    )
}

/// An expression of a type.
pub fn typed_as(t: ValueType, expression: Expression) -> Typed
    ensures { typing t (plain expression) ≡ Ok (typed_of result) }
{
    Typed {
        expression,
        of: Static::Of(t),
    }
}

/// The type of a call of a method with this result.
pub fn result_type(result_type: Option<ValueType>) -> Static
    ensures { result ≡ the_result_type result_type }
{
    match result_type {
        None => Static::Void,
        Some(t) => Static::Of(t),
    }
}
