// Expressions by what binds most loosely: assignments, conditionals, operators.

ghost use Rattle.std.specs.Prelude.{◌≡◌, ◌+◌, ◌<◌, ◌≤◌, ◌^◌, IfOk, OnOk};

use crate::lambdas::lambda;
use crate::making::{Tree, below, check_target, literal, node};
use crate::operators::{
    Assignment, Operator, assignment_ahead, at_operator, is_least, kind_after, operator_ahead,
    rank, unary_of,
};
use crate::suffixes::postfix;
use ls_java_lexer::fault::JavaFault;
use ls_java_lexer::token::TokenKind;
use ls_java_parser_tokens::ahead::{at_cast, at_lambda};
use ls_java_parser_tokens::reader::{Reader, at_sign, deeper, expect, next, peek, skip, take_sign};
use ls_java_parser_tokens::types::{types_between, whole_type};
use ls_java_tree::expressions::{Count, ExpressionKind, UnaryOperator};
use ls_lexer::sign::Sign;

/// The greatest height of an expression, in nodes.
pub const EXPRESSION_LIMIT: usize = 128;

/// An expression (JLS 15.27) of at most so many nodes from top to bottom.
#[cycle(expressions)]
pub fn expression(reader: &mut Reader, limit: usize) -> Result<Tree, JavaFault>
    ensures { IfOk result (λ p. (p.height ≤ limit) × (reader.new.left < reader.old.left)) }
{
    if at_lambda(reader) {
        return lambda(reader, limit);
    }
    let left = conditional(reader, limit)?;
    match assignment_ahead(reader) {
        Some(assignment) => assigned(reader, limit, left, assignment),
        None => Ok(left),
    }
}

// The value that is assigned to what is read already (JLS 15.26).
#[cycle(expressions)]
fn assigned(
    reader: &mut Reader,
    limit: usize,
    left: Tree,
    assignment: Assignment,
) -> Result<Tree, JavaFault>
    ensures { IfOk result (λ p. (p.height ≤ limit) × (reader.new.left < reader.old.left)) }
{
    check_target(reader, &left.tree)?;
    below(reader, left.height, limit)?;
    skip(reader, assignment.tokens);
    let value = expression(reader, limit - 1)?;
    let first = left.tree.span.first;
    let height = left.height.max(value.height) + 1;
    let kind = ExpressionKind::Assign {
        target: left.tree,
        operator: assignment.operator,
        value: value.tree,
    };
    node(reader, kind, first, height)
}

// A conditional (JLS 15.25) or what binds more tightly.
#[cycle(expressions)]
fn conditional(reader: &mut Reader, limit: usize) -> Result<Tree, JavaFault>
    ensures { IfOk result (λ p. (p.height ≤ limit) × (reader.new.left < reader.old.left)) }
{
    let condition = binary(reader, limit, 1)?;
    if !at_sign(reader, Sign::Question) {
        return Ok(condition);
    }
    below(reader, condition.height, limit)?;
    chosen(reader, limit - 1, condition)
}

// What comes after the condition.
#[cycle(expressions)]
fn chosen(reader: &mut Reader, limit: usize, condition: Tree) -> Result<Tree, JavaFault>
    requires room { limit + 1 < 2 ^ 64 }
    requires height { condition.height ≤ limit }
    ensures { IfOk result (λ p. (p.height ≤ limit + 1) × (reader.new.left < reader.old.left)) }
{
    expect(reader, Sign::Question)?;
    let then = expression(reader, limit)?;
    expect(reader, Sign::Colon)?;
    let otherwise = if at_lambda(reader) {
        lambda(reader, limit)?
    } else {
        conditional(reader, limit)?
    };
    let first = condition.tree.span.first;
    let height = condition.height.max(then.height).max(otherwise.height) + 1;
    let kind = ExpressionKind::Conditional {
        condition: condition.tree,
        then: then.tree,
        otherwise: otherwise.tree,
    };
    node(reader, kind, first, height)
}

/// Operators that bind at least as tightly as `lowest`, with their operands (JLS 15.17 to 15.24).
#[cycle(expressions)]
pub fn binary(reader: &mut Reader, limit: usize, lowest: usize) -> Result<Tree, JavaFault>
    ensures { IfOk result (λ p. (p.height ≤ limit) × (reader.new.left < reader.old.left)) }
{
    let mut left = unary(reader, limit)?;
    let mut more = at_operator(reader, lowest);
    while more {
        left = match operator_ahead(reader, lowest) {
            Some(operator) => joined(reader, limit, left, operator)?,
            None => instance_of(reader, limit, left)?,
        };
        more = at_operator(reader, lowest);
    }
    Ok(left)
}

// An operator and its right operand. What is read already is its left operand.
#[cycle(expressions)]
fn joined(
    reader: &mut Reader,
    limit: usize,
    left: Tree,
    operator: Operator,
) -> Result<Tree, JavaFault>
    ensures { IfOk result (λ p. (p.height ≤ limit) × (reader.new.left < reader.old.left)) }
{
    below(reader, left.height, limit)?;
    skip(reader, operator.tokens);
    let lowest = rank(operator.operator).saturating_add(1);
    let right = binary(reader, limit - 1, lowest)?;
    let first = left.tree.span.first;
    let height = left.height.max(right.height) + 1;
    let kind = ExpressionKind::Binary {
        operator: operator.operator,
        left: left.tree,
        right: right.tree,
    };
    node(reader, kind, first, height)
}

// `instanceof` and a type (JLS 15.20.2).
fn instance_of(reader: &mut Reader, limit: usize, operand: Tree) -> Result<Tree, JavaFault>
    ensures { IfOk result (λ p. (p.height ≤ limit) × (reader.new.left < reader.old.left)) }
{
    below(reader, operand.height, limit)?;
    next(reader)?;
    let type_name = whole_type(reader)?;
    let first = operand.tree.span.first;
    let height = operand.height + 1;
    let kind = ExpressionKind::InstanceOf {
        operand: operand.tree,
        type_name,
    };
    node(reader, kind, first, height)
}

// A unary operator, a count before its operand, a cast, or what binds more tightly (JLS 15.15, 15.16).
#[cycle(expressions)]
pub(crate) fn unary(reader: &mut Reader, limit: usize) -> Result<Tree, JavaFault>
    ensures { IfOk result (λ p. (p.height ≤ limit) × (reader.new.left < reader.old.left)) }
{
    let inner = deeper(reader, limit)?;
    let kind = peek(reader);
    if let Some(operator) = unary_of(kind) {
        return signed(reader, inner, operator);
    }
    match kind {
        TokenKind::Sign(Sign::Increment) => counted(reader, inner, Count::UpBefore),
        TokenKind::Sign(Sign::Decrement) => counted(reader, inner, Count::DownBefore),
        _ => {
            if at_cast(reader) {
                cast(reader, inner)
            } else {
                postfix(reader, inner)
            }
        }
    }
}

// A unary operator and its operand. The least number may come after a minus.
#[cycle(expressions)]
fn signed(reader: &mut Reader, limit: usize, operator: UnaryOperator) -> Result<Tree, JavaFault>
    requires { limit + 1 < 2 ^ 64 }
    ensures { IfOk result (λ p. (p.height ≤ limit + 1) × (reader.new.left < reader.old.left)) }
{
    let negates = matches!(&operator, UnaryOperator::Minus) && is_least(kind_after(reader, 1));
    let first = next(reader)?;
    let operand = if negates && limit > 0 {
        literal(reader)?
    } else {
        unary(reader, limit)?
    };
    let height = operand.height + 1;
    let kind = ExpressionKind::Unary {
        operator,
        operand: operand.tree,
    };
    node(reader, kind, first, height)
}

// `++` or `--` before its operand.
#[cycle(expressions)]
fn counted(reader: &mut Reader, limit: usize, count: Count) -> Result<Tree, JavaFault>
    requires { limit + 1 < 2 ^ 64 }
    ensures { IfOk result (λ p. (p.height ≤ limit + 1) × (reader.new.left < reader.old.left)) }
{
    let first = next(reader)?;
    let target = unary(reader, limit)?;
    check_target(reader, &target.tree)?;
    let height = target.height + 1;
    let kind = ExpressionKind::Count {
        count,
        target: target.tree,
    };
    node(reader, kind, first, height)
}

// A type, or several, in parentheses, and the operand.
#[cycle(expressions)]
fn cast(reader: &mut Reader, limit: usize) -> Result<Tree, JavaFault>
    requires { limit + 1 < 2 ^ 64 }
    ensures { IfOk result (λ p. (p.height ≤ limit + 1) × (reader.new.left < reader.old.left)) }
{
    let first = expect(reader, Sign::OpenParen)?;
    let types = types_between(reader, Sign::BitAnd)?;
    expect(reader, Sign::CloseParen)?;
    let operand = if at_lambda(reader) {
        lambda(reader, limit)?
    } else {
        unary(reader, limit)?
    };
    let height = operand.height + 1;
    let kind = ExpressionKind::Cast {
        types,
        operand: operand.tree,
    };
    node(reader, kind, first, height)
}
