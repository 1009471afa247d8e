// What is assigned to, and expressions that are statements (JLS 14.8, 15.26, 15.14, 15.15).

use crate::assignments::{
    Target, assigned, compound_statement, compound_value, count_statement, count_value, target_kind,
};
use crate::creations::this_call;
use crate::expressions::{expression, operands, part, part_as};
use crate::members::{member, type_name};
use crate::parts::keep;
use crate::simple::has_effect;
use crate::writing::emit;
use ls_java_tables::kept::{Depth, down};
use ls_java_tables::kinds::kind_of_element;
use ls_java_tables::remarks::{Stop, Why};
use ls_java_tables::restater::{Restater, is_named, refuse};
use ls_java_tables::ropes::Text;
use ls_java_tables::spelling::nothing;
use ls_java_tables::values::{Kind, PRIMARY, Sort, Value};
use ls_java_tree::expressions::{Expression, ExpressionKind};

// What is assigned to isn't a constant.
fn check_variable(restater: &mut Restater, at: usize, value: Value) -> Result<(), Stop> {
    match value.sort {
        Sort::Constant(_) => refuse(restater, at, Why::ConstantAssigned),
        _ => Ok(()),
    }
}

// The kind of the elements of an array.
fn element_kind(restater: &mut Restater, at: usize, array: Value) -> Result<Kind, Stop> {
    match array.kind {
        Kind::Array(element) => Ok(kind_of_element(element)),
        _ => refuse(restater, at, Why::NotAnArray),
    }
}

/// What is assigned to, with its parts.
#[cycle(expressions)]
fn target_of<'a>(
    restater: &mut Restater,
    tree: &'a Expression,
    depth: Depth<'a>,
) -> Result<Target<'a>, Stop> {
    let at = tree.span.first;
    match &tree.kind {
        ExpressionKind::Paren(target) => {
            let inner = down(depth)?;
            target_of(restater, target, inner)
        }
        ExpressionKind::Item { array, index } => {
            let array = part(restater, array, depth)?;
            let index = part(restater, index, depth)?;
            let kind = element_kind(restater, at, array.value)?;
            Ok(Target::Element { array, index, kind })
        }
        ExpressionKind::Field { target, name } if type_name(restater, target).is_none() => {
            let object = part(restater, target, depth)?;
            let found = member(restater, object.value, name)?;
            check_variable(restater, at, found)?;
            let kind = found.kind;
            Ok(Target::Field { object, name, kind })
        }
        _ => {
            let mut before = Text::EMPTY;
            let variable = expression(restater, &mut before, tree, depth)?;
            check_variable(restater, at, variable)?;
            Ok(Target::Variable { variable })
        }
    }
}

// Whether an expression is a call of `newCondition`.
fn is_condition(tree: &Expression) -> bool {
    match &tree.kind {
        ExpressionKind::Call { name, .. } => is_named(name, "newCondition"),
        _ => false,
    }
}

/// An assignment, as a value or as a statement.
#[cycle(expressions)]
pub(crate) fn assignment<'a>(
    restater: &mut Restater,
    out: &mut Text,
    tree: &'a Expression,
    is_value: bool,
    depth: Depth<'a>,
) -> Result<Value, Stop> {
    let at = tree.span.first;
    let ExpressionKind::Assign {
        target,
        operator,
        value,
    } = &tree.kind
    else {
        return refuse(restater, at, Why::Other);
    };
    if operator.is_none() && is_condition(value) {
        return Ok(nothing());
    }
    let place = target_of(restater, target, depth)?;
    let Some(operator) = operator else {
        let right = part_as(restater, value, target_kind(place), depth)?;
        return assigned(restater, out, at, place, right, is_value);
    };
    let right = part(restater, value, depth)?;
    if is_value {
        compound_value(restater, out, at, place, *operator, right)
    } else {
        compound_statement(restater, out, at, place, *operator, right)
    }
}

/// `++` or `--`, as a value or as a statement.
#[cycle(expressions)]
pub(crate) fn count<'a>(
    restater: &mut Restater,
    out: &mut Text,
    tree: &'a Expression,
    is_value: bool,
    depth: Depth<'a>,
) -> Result<Value, Stop> {
    let at = tree.span.first;
    let ExpressionKind::Count { count, target } = &tree.kind else {
        return refuse(restater, at, Why::Other);
    };
    let place = target_of(restater, target, depth)?;
    if is_value {
        count_value(restater, out, at, place, *count)
    } else {
        count_statement(restater, out, at, place, *count)
    }
}

// The value of an expression that is a statement: a call or a new object is written, any other one is kept.
fn finish(restater: &mut Restater, out: &mut Text, at: usize, value: Value) -> Result<(), Stop> {
    if !has_effect(value) {
        return Ok(());
    }
    if value.binding < PRIMARY {
        keep(restater, out, at, value)?;
        return Ok(());
    }
    emit(restater, out, at, "# ;", &[value.text])
}

/// An expression that is a statement (JLS 14.8).
pub fn effect<'a>(
    restater: &mut Restater,
    out: &mut Text,
    tree: &'a Expression,
    depth: Depth<'a>,
) -> Result<(), Stop> {
    let at = tree.span.first;
    match &tree.kind {
        ExpressionKind::Paren(written) => {
            let inner = down(depth)?;
            effect(restater, out, written, inner)
        }
        ExpressionKind::Assign { .. } => {
            assignment(restater, out, tree, false, depth)?;
            Ok(())
        }
        ExpressionKind::Count { .. } => {
            count(restater, out, tree, false, depth)?;
            Ok(())
        }
        ExpressionKind::ConstructorCall {
            of_super: true,
            arguments,
        } => {
            if arguments.is_empty() {
                return Ok(());
            }
            refuse(restater, at, Why::SuperHere)
        }
        ExpressionKind::ConstructorCall { arguments, .. } => {
            let values = operands(restater, out, at, arguments, depth)?;
            this_call(restater, out, at, &values)
        }
        _ => {
            let value = expression(restater, out, tree, depth)?;
            finish(restater, out, at, value)
        }
    }
}
