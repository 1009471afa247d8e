// Expressions: types, and what their names mean.

ghost use Rattle.std.specs.Prelude.{◌≡◌};
ghost use Rattle.ls_checked.specs.Plain.{plain, all_plain};
ghost use Rattle.ls_checked.specs.CheckedTree.{Expression as checked_expression, Field as checked_field};
ghost use Rattle.ls_types_elaboration.specs.Elaborated.{with_ok};
ghost use Rattle.ls_types_elaboration.specs.StaticTypes.{typed_as as typing};
ghost use Rattle.ls_types_elaboration.specs.TypedExpressions.{typed, passed, name_of, field_at, is_integer};
ghost use Rattle.ls_types_elaboration.specs.TypedExpressions.{integer_constant, call_of, number, fitting};
ghost use Rattle.ls_types_elaboration.specs.Trees.{Call as a_call, CallOn as a_call_on, New as a_new};
ghost use Rattle.ls_types_elaboration.specs.Trees.{NewMarkable as a_new_markable, Item as an_item};
ghost use Rattle.ls_types_elaboration.specs.Trees.{Binary as a_binary};
ghost use Rattle.ls_types_elaboration.specs.Placed.{placed, placed_name, placed_all, placed_target};
ghost use Rattle.ls_types_elaboration.specs.Placed.{call_of as call_written};
ghost use Rattle.ls_types_expressions.specs.Views.{locals_of};
ghost use Rattle.ls_types_elaboration.specs.Answers.{Gives, typed_of, member_of as known_member, plain_typed};
ghost use Rattle.ls_types_tables.specs.ByName.{known_of};

use crate::counting::counts_of;
use crate::operators::{Spans, binary_of, unary_of};
use crate::places::span_of;
use crate::site::Site;
use ls_checked::tree::{Expression, Expressions};
use ls_events::value::{Value, ValueType};
use ls_lexer::token::Span;
use ls_together::two;
use ls_tree::tree::{BinaryOp, Expression as Parsed, Name};
use ls_types_elaboration::known::{FoundField, local_named};
use ls_types_elaboration::members::{Member, made};
use ls_types_elaboration::mismatch::Counts;
use ls_types_elaboration::numbers::digits_of;
use ls_types_elaboration::rule::{Broken, CheckFault, Rule, broken_at, refused_at};
use ls_types_elaboration::static_types::{
    Static, Typed, as_array, as_type, as_value, result_type, typed_as,
};
use ls_types_elaboration::together::also;
use ls_types_tables::known::{Known, field_of};
use ls_types_tables::members::{maker_of, markable_maker, member_of, own_member};
use std::alloc::{AllocError, Global};

fn number(text: &str) -> Expression
    ensures { plain result ≡ number text.now }
{
    let n = digits_of(text.as_bytes());
    let value = if n < 2_147_483_648 {
        n as i32
    } else {
        i32::MIN
    };
    Expression::Literal(Value::Int(value))
}

// A local, else a field of the class to which the code belongs.
fn name_typed(site: Site, n: &Name) -> Result<Typed, CheckFault>
    ensures { Gives typed_of result (name_of (known_of site.entry.known) (locals_of site.entry) (placed_name n.now)) }
{
    match local_named(site.locals, n.text.as_str()) {
        Some(l) => Ok(typed_as(l.value_type, Expression::Slot(l.slot))),
        None => match field_of(site.known, site.known.own, n.text.as_str()) {
            None => Err(refused_at(Rule::UnknownName, n.span)),
            Some(f) => {
                let target = Box::new(site.alloc, Expression::Slot(0))?;
                let e = Expression::Field {
                    target,
                    class: site.known.own,
                    field: f.number,
                };
                Ok(typed_as(f.value_type, e))
            }
        },
    }
}

// The class of an object, and its field of a name.
fn field_in(known: Known, of: Static, n: &Name) -> Result<(usize, FoundField), Broken>
    ensures { (e : checked_expression) → field_at (known_of known.entry) of e (placed_name n.now) ≡
        with_ok result (λ p. typing p.1.value_type (checked_field e p.0 p.1.number)) }
{
    match of {
        Static::Of(ValueType::Class(class)) => match field_of(known, class, n.text.as_str()) {
            None => Err(broken_at(Rule::UnknownName, n.span)),
            Some(f) => Ok((class, f)),
        },
        _ => Err(broken_at(Rule::UnknownName, n.span)),
    }
}

// A field of an object.
fn field_at(alloc: Global, known: Known, x: Typed, n: &Name) -> Result<Typed, CheckFault>
    ensures { Gives typed_of result (field_at (known_of known.entry) x.of (plain x.expression) (placed_name n.now)) }
{
    let found = field_in(known, x.of, n);
    let (expression, (class, f)) = also(x.expression, found)?;
    let target = Box::new(alloc, expression)?;
    let e = Expression::Field {
        target,
        class,
        field: f.number,
    };
    Ok(typed_as(f.value_type, e))
}

// Whether an expression is the name `Integer`, if no local or field in scope has that name.
fn is_integer(site: Site, e: &Parsed) -> bool
    ensures { result ≡ is_integer (known_of site.entry.known) (locals_of site.entry) (placed e.now) }
{
    match e {
        Parsed::Name(n) => {
            let name = n.text.as_str();
            name == "Integer"
                && local_named(site.locals, name).is_none()
                && field_of(site.known, site.known.own, name).is_none()
        }
        _ => false,
    }
}

fn integer_constant(n: &Name) -> Result<Typed, Broken>
    ensures { plain_typed result ≡ integer_constant (placed_name n.now) }
{
    if n.text.as_str() == "MIN_VALUE" {
        let least = Expression::Literal(Value::Int(i32::MIN));
        Ok(typed_as(ValueType::Int, least))
    } else if n.text.as_str() == "MAX_VALUE" {
        let greatest = Expression::Literal(Value::Int(i32::MAX));
        Ok(typed_as(ValueType::Int, greatest))
    } else {
        Err(broken_at(Rule::UnknownName, n.span))
    }
}

// A call whose arguments are typed.
fn call_of(
    alloc: Global,
    m: Member,
    target: Expression,
    es: Expressions,
) -> Result<Typed, CheckFault>
    ensures { Gives typed_of result (call_of (known_member m) (plain target) (all_plain es)) }
{
    let (target, es) = two(alloc, target, es)?;
    Ok(Typed {
        expression: Expression::Call(target, m.called, es),
        of: result_type(m.result),
    })
}

/// An expression, with its type. Refused only by a broken rule, or if memory runs out.
#[cycle(expressions)]
pub fn typed(site: Site, e: &Parsed) -> Result<Typed, CheckFault>
    ensures { Gives typed_of result (typed (known_of site.entry.known) (locals_of site.entry) (placed e.now)) }
{
    match e {
        Parsed::Number { text, .. } => Ok(typed_as(ValueType::Int, number(text.as_str()))),
        Parsed::True(_) => Ok(typed_as(
            ValueType::Boolean,
            Expression::Literal(Value::Boolean(true)),
        )),
        Parsed::False(_) => Ok(typed_as(
            ValueType::Boolean,
            Expression::Literal(Value::Boolean(false)),
        )),
        Parsed::Null(_) => {
            let expression = Expression::Literal(Value::Reference(0));
            Ok(Typed {
                expression,
                of: Static::NullType,
            })
        }
        Parsed::This(_) => Ok(typed_as(ValueType::Class(site.known.own), Expression::Slot(0))),
        Parsed::Name(n) => name_typed(site, n),
        Parsed::Paren { inner, .. } => {
            let x = typed(site, inner)?;
            Ok(as_value(span_of(inner), x)?)
        }
        Parsed::Unary { op, operand, .. } => {
            let x = typed(site, operand)?;
            unary_of(site.alloc, *op, span_of(operand), x)
        }
        Parsed::Binary {
            op,
            left,
            right,
            span,
        } => binary(site, *op, left, right, *span),
        Parsed::Field { target, name, .. } => {
            if is_integer(site, target) {
                return Ok(integer_constant(name)?);
            }
            let x = typed(site, target)?;
            field_at(site.alloc, site.known, x, name)
        }
        Parsed::Call {
            target,
            name,
            arguments,
            span,
        } => { call(site, target, name, arguments, *span) }
        Parsed::Item { array, index, span } => item(site, array, index, *span),
        Parsed::New {
            class,
            arguments,
            span,
        } => { making(site, class, arguments, *span) }
        Parsed::NewMarkable {
            class,
            arguments,
            span,
        } => { markable(site, class, arguments, *span) }
        Parsed::NewArray { length, .. } => {
            let n = fitting(site, ValueType::Int, length)?;
            Ok(typed_as(
                ValueType::BooleanArray,
                Expression::MakeArray(Box::new(site.alloc, n)?),
            ))
        }
    }
}

#[cycle(expressions)]
fn binary(
    site: Site,
    op: BinaryOp,
    left: &Parsed,
    right: &Parsed,
    span: Span,
) -> Result<Typed, CheckFault>
    ensures { Gives typed_of result
        (typed (known_of site.entry.known) (locals_of site.entry)
        (a_binary op (placed left.now) (placed right.now) span)) }
{
    let x = typed(site, left)?;
    let y = typed(site, right);
    let (x, y) = also(x, y)?;
    let spans = Spans {
        whole: span,
        left: span_of(left),
        right: span_of(right),
    };
    binary_of(site.alloc, op, spans, x, y)
}

#[cycle(expressions)]
fn call(
    site: Site,
    target: &Option<Box<Parsed>>,
    n: &Name,
    arguments: &[Parsed],
    span: Span,
) -> Result<Typed, CheckFault>
    ensures { Gives typed_of result
        (typed (known_of site.entry.known) (locals_of site.entry)
        (call_written (placed_target target.now) (placed_name n.now) (placed_all arguments.now) span)) }
{
    match target {
        None => own_call(site, n, arguments, span),
        Some(target) => call_on(site, target, n, arguments, span),
    }
}

// A method of the class to which the code belongs.
#[cycle(expressions)]
fn own_call(site: Site, n: &Name, arguments: &[Parsed], span: Span) -> Result<Typed, CheckFault>
    ensures { Gives typed_of result
        (typed (known_of site.entry.known) (locals_of site.entry)
        (a_call (placed_name n.now) (placed_all arguments.now) span)) }
{
    let m = own_member(site.alloc, site.known, n)?;
    let counts = counts_of(&m.parameters, arguments);
    let es = passed(site, counts, &m.parameters, arguments, span);
    let (m, es) = also(m, es)?;
    call_of(site.alloc, m, Expression::Slot(0), es)
}

// A method of an object, or an operation of a lock or markable.
#[cycle(expressions)]
fn call_on(
    site: Site,
    target: &Parsed,
    n: &Name,
    arguments: &[Parsed],
    span: Span,
) -> Result<Typed, CheckFault>
    ensures { Gives typed_of result
        (typed (known_of site.entry.known) (locals_of site.entry)
        (a_call_on (placed target.now) (placed_name n.now) (placed_all arguments.now) span)) }
{
    let x = typed(site, target)?;
    let m = member_of(site.alloc, site.known, x.of, n);
    let (x, m) = also(x, m)?;
    let counts = counts_of(&m.parameters, arguments);
    let es = passed(site, counts, &m.parameters, arguments, span);
    let ((x, m), es) = also((x, m), es)?;
    call_of(site.alloc, m, x.expression, es)
}

// An element of an array.
#[cycle(expressions)]
fn item(site: Site, array: &Parsed, index: &Parsed, span: Span) -> Result<Typed, CheckFault>
    ensures { Gives typed_of result
        (typed (known_of site.entry.known) (locals_of site.entry)
        (an_item (placed array.now) (placed index.now) span)) }
{
    let x = typed(site, array)?;
    let a = as_array(span_of(array), x)?;
    let i = fitting(site, ValueType::Int, index);
    let (a, i) = also(a, i)?;
    let (a, i) = two(site.alloc, a, i)?;
    Ok(typed_as(ValueType::Boolean, Expression::Item(a, i)))
}

// An object or a lock.
#[cycle(expressions)]
fn making(site: Site, class: &Name, arguments: &[Parsed], span: Span) -> Result<Typed, CheckFault>
    ensures { Gives typed_of result
        (typed (known_of site.entry.known) (locals_of site.entry)
        (a_new (placed_name class.now) (placed_all arguments.now) span)) }
{
    let m = maker_of(site.alloc, site.known, class)?;
    let counts = counts_of(&m.parameters, arguments);
    let es = passed(site, counts, &m.parameters, arguments, span);
    let (m, es) = also(m, es)?;
    Ok(typed_as(m.value_type, made(site.alloc, m.makes, es)?))
}

#[cycle(expressions)]
fn markable(site: Site, class: &Name, arguments: &[Parsed], span: Span) -> Result<Typed, CheckFault>
    ensures { Gives typed_of result
        (typed (known_of site.entry.known) (locals_of site.entry)
        (a_new_markable (placed_name class.now) (placed_all arguments.now) span)) }
{
    let m = markable_maker(site.alloc, site.known, class)?;
    let counts = counts_of(&m.parameters, arguments);
    let es = passed(site, counts, &m.parameters, arguments, span);
    let (m, es) = also(m, es)?;
    Ok(typed_as(m.value_type, made(site.alloc, m.makes, es)?))
}

// The arguments of a call.
#[cycle(expressions)]
fn passed(
    site: Site,
    counts: Counts,
    types: &[ValueType],
    es: &[Parsed],
    span: Span,
) -> Result<Expressions, CheckFault>
    ensures { Gives all_plain result
        (passed (known_of site.entry.known) (locals_of site.entry) counts types.now (placed_all es.now) span) }
{
    match (types, es) {
        ([], []) => Ok(Expressions::End),
        ([], [_first, ..]) => Err(refused_at(Rule::WrongArguments(counts), span)),
        ([_, ..], []) => Err(refused_at(Rule::WrongArguments(counts), span)),
        ([t, ts @ ..], [e, es @ ..]) => {
            let a = fitting(site, *t, e)?;
            let rest = passed(site, counts, ts, es, span);
            let (a, rest) = also(a, rest)?;
            let (a, rest) = two(site.alloc, a, rest)?;
            Ok(Expressions::More(a, rest))
        }
    }
}

/// An expression where a value of a type is wanted. Refused only by a broken rule, or if memory runs out.
#[cycle(expressions)]
pub fn fitting(site: Site, t: ValueType, e: &Parsed) -> Result<Expression, CheckFault>
    ensures { Gives plain result (fitting (known_of site.entry.known) (locals_of site.entry) t (placed e.now)) }
{
    let x = typed(site, e)?;
    Ok(as_type(t, span_of(e), x)?)
}
