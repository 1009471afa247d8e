// Expressions that have no operands which need statements: literals, casts, parentheses, and what isn't restated.

use crate::arguments::my_number;
use crate::atomics::no_method;
use ls_java_tables::constants::literal_constant;
use ls_java_tables::kinds::is_number;
use ls_java_tables::remarks::{Stop, What, Why};
use ls_java_tables::restater::{Restater, note, refuse};
use ls_java_tables::ropes::Text;
use ls_java_tables::spelling::{fixed, in_parens, literal, nothing};
use ls_java_tables::values::{Constant, Kind, PRIMARY, Sort, Value};
use ls_java_tree::expressions::{Expression, ExpressionKind, Literal};
use ls_java_tree::names::Name;

// The greatest number that an int holds behind a minus.
const GREATEST: u64 = 2_147_483_648;

/// A literal (JLS 15.8.1).
pub fn literal_value(restater: &mut Restater, at: usize, written: Literal) -> Result<Value, Stop> {
    match written {
        Literal::Null => fixed(restater, "null", Kind::Null, at),
        Literal::Text => refuse(restater, at, Why::TextLiteral),
        Literal::Character => refuse(restater, at, Why::CharacterLiteral),
        Literal::Float => refuse(restater, at, Why::FloatLiteral),
        Literal::Long(value) if value > GREATEST => refuse(restater, at, Why::LargeNumber),
        other => match literal_constant(other) {
            Some(constant) => literal(restater, constant, at),
            None => refuse(restater, at, Why::Other),
        },
    }
}

/// An expression in parentheses (JLS 15.8.5).
pub fn in_parentheses(restater: &mut Restater, value: Value) -> Result<Value, Stop> {
    if value.binding >= PRIMARY {
        return Ok(value);
    }
    let text = in_parens(restater, value.text)?;
    Ok(Value {
        text,
        binding: PRIMARY,
        ..value
    })
}

/// A cast (JLS 15.16), which changes nothing: between numbers, to the same class, or between arrays.
pub fn cast_to(
    restater: &mut Restater,
    at: usize,
    kind: Kind,
    value: Value,
) -> Result<Value, Stop> {
    if value.kind == Kind::Null {
        return Ok(value);
    }
    let numbers = is_number(kind) && is_number(value.kind);
    let arrays = matches!((&kind, &value.kind), (Kind::Array(_), Kind::Array(_)));
    if kind == value.kind || numbers || arrays {
        return Ok(Value { kind, ..value });
    }
    refuse(restater, at, Why::Cast)
}

/// A method of `Thread.currentThread()`.
pub fn thread_call(restater: &mut Restater, name: &Name) -> Result<Value, Stop> {
    match name.text.as_str() {
        "getId" | "threadId" => my_number(restater, name.token),
        "interrupt" => {
            note(restater, name.token, What::LeftOut)?;
            Ok(nothing())
        }
        "isInterrupted" => {
            note(restater, name.token, What::LeftOut)?;
            literal(restater, Constant::Boolean(false), name.token)
        }
        _ => no_method(restater, name, Why::NoLibraryMethod),
    }
}

/// Printing is left out.
pub fn printing(
    restater: &mut Restater,
    name: &Name,
    arguments: &[Expression],
) -> Result<Value, Stop> {
    let reads = arguments.iter().any(|argument| !matches!(
        &argument.kind,
        ExpressionKind::Literal(_)
    ));
    let what = if reads {
        What::PrintingReads
    } else {
        What::Printing
    };
    note(restater, name.token, what)?;
    Ok(nothing())
}

/// Why an expression isn't restated where it stands.
pub fn why_not(kind: &ExpressionKind) -> Why {
    match kind {
        ExpressionKind::Super => Why::NoSuper,
        ExpressionKind::Class(_) => Why::ClassObject,
        ExpressionKind::InstanceOf { .. } => Why::InstanceOf,
        ExpressionKind::Lambda { .. } => Why::Lambda,
        ExpressionKind::MethodReference { .. } => Why::MethodReference,
        ExpressionKind::TypeReference { .. } => Why::MethodReference,
        ExpressionKind::ConstructorCall { of_super, .. } => {
            if *of_super {
                Why::SuperHere
            } else {
                Why::ThisHere
            }
        }
        _ => Why::Other,
    }
}

/// Whether a value is written as a statement: it isn't a local, nor always the same, and something is written.
pub fn has_effect(value: Value) -> bool {
    value.text != Text::EMPTY
        && match value.sort {
            Sort::Constant(_) => false,
            Sort::Fixed => false,
            Sort::Local(_) => false,
            _ => true,
        }
}
