// Operators (JLS 15.15 to 15.24).

use crate::parts::{keep, keep_reading};
use crate::writing::{emit, write};
use ls_java_tables::constants::binary_constant;
use ls_java_tables::kinds::is_number;
use ls_java_tables::remarks::{Stop, What, Why};
use ls_java_tables::restater::{Restater, note, refuse};
use ls_java_tables::ropes::Text;
use ls_java_tables::spelling::{bound, literal, value_of};
use ls_java_tables::values::{
    AND, Constant, EQUALITY, Kind, OR, PRIMARY, PRODUCT, RELATION, SUM, Sort, UNARY, Value, is_pure,
};
use ls_java_tree::expressions::{BinaryOperator, UnaryOperator};

/// How a value may be moved that has this one in it.
pub fn sort_over(value: Value) -> Sort {
    if is_pure(value) {
        Sort::Pure
    } else {
        Sort::Reading
    }
}

/// A unary operator (JLS 15.15).
pub fn unary(
    restater: &mut Restater,
    at: usize,
    operator: UnaryOperator,
    value: Value,
) -> Result<Value, Stop> {
    let sort = sort_over(value);
    match operator {
        UnaryOperator::Plus => Ok(value),
        UnaryOperator::Not => {
            let operand = bound(restater, value, UNARY)?;
            let text = write(restater, at, "! #", &[operand])?;
            Ok(value_of(restater, text, Kind::Boolean, UNARY, sort))
        }
        UnaryOperator::Minus => {
            let operand = bound(restater, value, PRIMARY)?;
            let text = write(restater, at, "- #", &[operand])?;
            Ok(value_of(restater, text, Kind::Int, UNARY, sort))
        }
        UnaryOperator::Complement => {
            let operand = bound(restater, value, PRIMARY)?;
            let text = write(restater, at, "- # - 1", &[operand])?;
            Ok(value_of(restater, text, Kind::Int, SUM, sort))
        }
    }
}

// How a binary operator of the class text binds and is written, if it is one.
fn written(operator: BinaryOperator) -> Option<(u8, &'static str)> {
    match operator {
        BinaryOperator::Or => Some((OR, "# || #")),
        BinaryOperator::And => Some((AND, "# && #")),
        BinaryOperator::Equal => Some((EQUALITY, "# == #")),
        BinaryOperator::NotEqual => Some((EQUALITY, "# != #")),
        BinaryOperator::Less => Some((RELATION, "# < #")),
        BinaryOperator::Greater => Some((RELATION, "# > #")),
        BinaryOperator::LessEqual => Some((RELATION, "# <= #")),
        BinaryOperator::GreaterEqual => Some((RELATION, "# >= #")),
        BinaryOperator::Add => Some((SUM, "# + #")),
        BinaryOperator::Subtract => Some((SUM, "# - #")),
        BinaryOperator::Multiply => Some((PRODUCT, "# * #")),
        BinaryOperator::Divide => Some((PRODUCT, "# / #")),
        BinaryOperator::Remainder => Some((PRODUCT, "# % #")),
        _ => None,
    }
}

// The constant int that a value is.
fn constant_of(value: Value) -> Option<i32> {
    match value.sort {
        Sort::Constant(Constant::Int(found)) => Some(found),
        _ => None,
    }
}

/// Whether an operator may trap: `/` and `%`, but by a constant that isn't 0 (JLS 15.17.2).
fn may_trap(operator: BinaryOperator, right: Value) -> bool {
    let divides = operator == BinaryOperator::Divide || operator == BinaryOperator::Remainder;
    divides
        && match constant_of(right) {
            Some(divisor) => divisor == 0,
            None => true,
        }
}

// How a value of two operands may be moved.
fn sort_of(operator: BinaryOperator, left: Value, right: Value) -> Sort {
    if let (Sort::Constant(one), Sort::Constant(other)) = (left.sort, right.sort) {
        if let Some(found) = binary_constant(operator, one, other) {
            return Sort::Constant(found);
        }
    }
    if is_pure(left) && is_pure(right) && !may_trap(operator, right) {
        Sort::Pure
    } else {
        Sort::Reading
    }
}

// `==` or `!=` of a number and `null`, which is 0.
fn with_zero(
    restater: &mut Restater,
    at: usize,
    operator: BinaryOperator,
    number: Value,
) -> Result<Value, Stop> {
    note(restater, at, What::ZeroForNull)?;
    let zero = literal(restater, Constant::Int(0), at)?;
    joined(restater, at, operator, number, zero)
}

/// A binary operator that the class text has, of two values (JLS 15.17 to 15.21, 15.23, 15.24).
pub fn joined(
    restater: &mut Restater,
    at: usize,
    operator: BinaryOperator,
    left: Value,
    right: Value,
) -> Result<Value, Stop> {
    let Some((binding, pattern)) = written(operator) else {
        return refuse(restater, at, Why::Bits);
    };
    let sort = sort_of(operator, left, right);
    let first = bound(restater, left, binding)?;
    let second = bound(restater, right, binding.saturating_add(1))?;
    let text = write(restater, at, pattern, &[first, second])?;
    let kind = if binding >= SUM {
        Kind::Int
    } else {
        Kind::Boolean
    };
    Ok(value_of(restater, text, kind, binding, sort))
}

/// A binary operator of two values that are settled.
pub fn binary(
    restater: &mut Restater,
    out: &mut Text,
    at: usize,
    operator: BinaryOperator,
    left: Value,
    right: Value,
) -> Result<Value, Stop> {
    let compares = operator == BinaryOperator::Equal || operator == BinaryOperator::NotEqual;
    if compares && right.kind == Kind::Null && is_number(left.kind) {
        return with_zero(restater, at, operator, left);
    }
    if compares && left.kind == Kind::Null && is_number(right.kind) {
        return with_zero(restater, at, operator, right);
    }
    if written(operator).is_some() {
        return joined(restater, at, operator, left, right);
    }
    if left.kind == Kind::Boolean {
        return logical(restater, out, at, operator, left, right);
    }
    if let (Sort::Constant(one), Sort::Constant(other)) = (left.sort, right.sort) {
        if let Some(found) = binary_constant(operator, one, other) {
            return literal(restater, found, at);
        }
    }
    bits(restater, out, at, operator, left, right)
}

// `&`, `|` or `^` of two booleans (JLS 15.22.2): both are evaluated.
fn logical(
    restater: &mut Restater,
    out: &mut Text,
    at: usize,
    operator: BinaryOperator,
    left: Value,
    right: Value,
) -> Result<Value, Stop> {
    if operator == BinaryOperator::BitXor {
        return joined(restater, at, BinaryOperator::NotEqual, left, right);
    }
    let first = keep_reading(restater, out, at, left)?;
    let second = keep_reading(restater, out, at, right)?;
    let conditional = if operator == BinaryOperator::BitAnd {
        BinaryOperator::And
    } else {
        BinaryOperator::Or
    };
    joined(restater, at, conditional, first, second)
}

// An operator of bits with a constant (JLS 15.19, 15.22.1).
fn bits(
    restater: &mut Restater,
    out: &mut Text,
    at: usize,
    operator: BinaryOperator,
    left: Value,
    right: Value,
) -> Result<Value, Stop> {
    match (operator, constant_of(left), constant_of(right)) {
        (BinaryOperator::BitAnd, _, Some(mask)) => masked(restater, out, at, left, mask),
        (BinaryOperator::BitAnd, Some(mask), None) => masked(restater, out, at, right, mask),
        (BinaryOperator::ShiftLeft, _, Some(count)) => {
            let factor = 1i32.wrapping_shl(count.cast_unsigned());
            let factor = literal(restater, Constant::Int(factor), at)?;
            joined(restater, at, BinaryOperator::Multiply, left, factor)
        }
        (BinaryOperator::ShiftRight, _, Some(count)) => {
            shifted(restater, out, at, left, count.cast_unsigned() % 32)
        }
        (BinaryOperator::ShiftRightUnsigned, _, Some(count)) => {
            shifted_unsigned(restater, out, at, left, count.cast_unsigned() % 32)
        }
        _ => refuse(restater, at, Why::Bits),
    }
}

// The lowest bits of a number: `number & mask` where the mask is one less than a power of 2.
fn masked(
    restater: &mut Restater,
    out: &mut Text,
    at: usize,
    value: Value,
    mask: i32,
) -> Result<Value, Stop> {
    if mask == i32::MAX {
        let kept = keep(restater, out, at, value)?;
        let half = "if ( # < 0 ) { # += 1073741824 ; # += 1073741824 ; }";
        emit(restater, out, at, half, &[kept.text, kept.text, kept.text])?;
        return Ok(kept);
    }
    let next = mask.wrapping_add(1);
    if mask < 0 || mask & next != 0 {
        return refuse(restater, at, Why::Bits);
    }
    let count = literal(restater, Constant::Int(next), at)?;
    let operand = bound(restater, value, PRODUCT)?;
    let parts = [operand, count.text, count.text, count.text];
    let text = write(restater, at, "( # % # + # ) % #", &parts)?;
    let sort = sort_over(value);
    Ok(value_of(restater, text, Kind::Int, PRODUCT, sort))
}

// `number >> count`: the quotient by a power of 2, rounded down. `/` rounds to 0, so it is one less where the number is
// below 0 and a rest is left.
fn shifted(
    restater: &mut Restater,
    out: &mut Text,
    at: usize,
    value: Value,
    count: u32,
) -> Result<Value, Stop> {
    if count == 0 {
        return Ok(value);
    }
    if count > 30 {
        return refuse(restater, at, Why::Bits);
    }
    let number = keep_reading(restater, out, at, value)?;
    let factor = literal(restater, Constant::Int(1i32.wrapping_shl(count)), at)?;
    let quotient = joined(restater, at, BinaryOperator::Divide, number, factor)?;
    let kept = keep(restater, out, at, quotient)?;
    let operand = bound(restater, number, PRODUCT)?;
    let parts = [operand, factor.text, kept.text];
    emit(restater, out, at, "if ( # % # < 0 ) # += - 1 ;", &parts)?;
    Ok(kept)
}

// `number >>> count`: as `>>`, and 2 to the power of 32 less the count more where the number is below 0.
fn shifted_unsigned(
    restater: &mut Restater,
    out: &mut Text,
    at: usize,
    value: Value,
    count: u32,
) -> Result<Value, Stop> {
    if count == 0 {
        return Ok(value);
    }
    let number = keep_reading(restater, out, at, value)?;
    let kept = shifted(restater, out, at, number, count)?;
    let half = 1i32.wrapping_shl(31u32.wrapping_sub(count));
    let half = literal(restater, Constant::Int(half), at)?;
    let operand = bound(restater, number, RELATION)?;
    let parts = [operand, kept.text, half.text, kept.text, half.text];
    emit(
        restater,
        out,
        at,
        "if ( # < 0 ) { # += # ; # += # ; }",
        &parts,
    )?;
    Ok(kept)
}
