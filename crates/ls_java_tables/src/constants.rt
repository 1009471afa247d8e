// Constant expressions (JLS 15.28), in 32 bits.

use crate::finding::{class_here, enum_constant, enum_named, field_in, field_of};
use crate::restater::{Restater, is_named, local_of, name_of};
use crate::tables::Field;
use crate::values::Constant;
use ls_java_tree::expressions::{
    BinaryOperator, Expression, ExpressionKind, Literal, UnaryOperator,
};
use ls_java_tree::names::Name;

/// A literal as a constant. A number goes round at 32 bits.
pub fn literal_constant(literal: Literal) -> Option<Constant> {
    match literal {
        Literal::Int(value) | Literal::Long(value) => Some(Constant::Int(low_bits(value))),
        Literal::True => Some(Constant::Boolean(true)),
        Literal::False => Some(Constant::Boolean(false)),
        _ => None,
    }
}

// The lower 32 bits of a number.
fn low_bits(value: u64) -> i32 {
    ((value & 0xffff_ffff) as u32).cast_signed()
}

/// The constant of a unary operator (JLS 15.15).
pub fn unary_constant(operator: UnaryOperator, operand: Constant) -> Option<Constant> {
    match (operator, operand) {
        (UnaryOperator::Plus, Constant::Int(value)) => Some(Constant::Int(value)),
        (UnaryOperator::Minus, Constant::Int(value)) => Some(Constant::Int(value.wrapping_neg())),
        (UnaryOperator::Complement, Constant::Int(value)) => Some(Constant::Int(!value)),
        (UnaryOperator::Not, Constant::Boolean(value)) => Some(Constant::Boolean(!value)),
        _ => None,
    }
}

// Bits of a distance (JLS 15.19): the lower five.
fn distance(value: i32) -> u32 {
    (value & 31).unsigned_abs()
}

// Numbers of numbers (JLS 15.17 to 15.19, 15.22.1).
fn arithmetic(operator: BinaryOperator, left: i32, right: i32) -> Option<i32> {
    match operator {
        BinaryOperator::Add => Some(left.wrapping_add(right)),
        BinaryOperator::Subtract => Some(left.wrapping_sub(right)),
        BinaryOperator::Multiply => Some(left.wrapping_mul(right)),
        BinaryOperator::Divide if right == 0 => None,
        BinaryOperator::Divide => Some(left.wrapping_div(right)),
        BinaryOperator::Remainder if right == 0 => None,
        BinaryOperator::Remainder => Some(left.wrapping_rem(right)),
        BinaryOperator::BitAnd => Some(left & right),
        BinaryOperator::BitOr => Some(left | right),
        BinaryOperator::BitXor => Some(left ^ right),
        BinaryOperator::ShiftLeft => Some(left.wrapping_shl(distance(right))),
        BinaryOperator::ShiftRight => Some(left.wrapping_shr(distance(right))),
        BinaryOperator::ShiftRightUnsigned => {
            Some(
                left.cast_unsigned()
                    .wrapping_shr(distance(right))
                    .cast_signed(),
            )
        }
        _ => None,
    }
}

// Comparisons of numbers (JLS 15.20, 15.21).
fn compared(operator: BinaryOperator, left: i32, right: i32) -> Option<bool> {
    match operator {
        BinaryOperator::Equal => Some(left == right),
        BinaryOperator::NotEqual => Some(left != right),
        BinaryOperator::Less => Some(left < right),
        BinaryOperator::Greater => Some(left > right),
        BinaryOperator::LessEqual => Some(left <= right),
        BinaryOperator::GreaterEqual => Some(left >= right),
        _ => None,
    }
}

// Booleans of booleans (JLS 15.21.2, 15.22.2, 15.23, 15.24).
fn logical(operator: BinaryOperator, left: bool, right: bool) -> Option<bool> {
    match operator {
        BinaryOperator::And | BinaryOperator::BitAnd => Some(left && right),
        BinaryOperator::Or | BinaryOperator::BitOr => Some(left || right),
        BinaryOperator::BitXor | BinaryOperator::NotEqual => Some(left != right),
        BinaryOperator::Equal => Some(left == right),
        _ => None,
    }
}

/// The constant of a binary operator. A division by 0 has none.
pub fn binary_constant(
    operator: BinaryOperator,
    left: Constant,
    right: Constant,
) -> Option<Constant> {
    match (left, right) {
        (Constant::Int(left), Constant::Int(right)) => match arithmetic(operator, left, right) {
            Some(value) => Some(Constant::Int(value)),
            None => Some(Constant::Boolean(compared(operator, left, right)?)),
        },
        (Constant::Boolean(left), Constant::Boolean(right)) => {
            Some(Constant::Boolean(logical(operator, left, right)?))
        }
        _ => None,
    }
}

// The constant of a field of a number.
fn constant_of(restater: &Restater, field: Option<usize>) -> Option<Constant> {
    restater.tables.fields.get(field?)?.constant
}

// The constant that a name alone means: no local has the name, and the field of the name is a constant.
fn name_constant(restater: &Restater, name: &Name) -> Option<Constant> {
    let word = name_of(restater, name);
    if local_of(restater, word).is_some() {
        return None;
    }
    constant_of(restater, field_of(restater, word))
}

// The constant of a name after a class or an enum: `Integer.MAX_VALUE`, `State.OPEN`, `Node.EMPTY`.
fn member_constant(restater: &Restater, class: &Name, name: &Name) -> Option<Constant> {
    if is_named(class, "Integer") && is_named(name, "MAX_VALUE") {
        return Some(Constant::Int(i32::MAX));
    }
    if is_named(class, "Integer") && is_named(name, "MIN_VALUE") {
        return Some(Constant::Int(i32::MIN));
    }
    let owner = name_of(restater, class);
    let word = name_of(restater, name);
    if local_of(restater, owner).is_some() || field_of(restater, owner).is_some() {
        return None;
    }
    if let Some(number) = enum_named(restater, owner) {
        return enum_constant(restater, number, word);
    }
    let class = class_here(restater, owner)?;
    constant_of(restater, field_in(restater, class, word))
}

/// The value of a constant expression (JLS 15.28), or none.
pub fn fold(restater: &Restater, expression: &Expression) -> Option<Constant> {
    match &expression.kind {
        ExpressionKind::Literal(literal) => literal_constant(*literal),
        ExpressionKind::Paren(inner) => fold(restater, inner),
        ExpressionKind::Unary { operator, operand } => {
            let operand = fold(restater, operand)?;
            unary_constant(*operator, operand)
        }
        ExpressionKind::Binary {
            operator,
            left,
            right,
        } => {
            let left = fold(restater, left)?;
            let right = fold(restater, right)?;
            binary_constant(*operator, left, right)
        }
        ExpressionKind::Name(name) => name_constant(restater, name),
        ExpressionKind::Field { target, name } => match &target.kind {
            ExpressionKind::Name(class) => member_constant(restater, class, name),
            _ => None,
        },
        _ => None,
    }
}

/// Whether a field may be a constant: it is static, final, and a number or a boolean with a value.
pub fn may_be_constant(field: &Field) -> bool {
    field.is_static && field.is_final && field.has_value
}
