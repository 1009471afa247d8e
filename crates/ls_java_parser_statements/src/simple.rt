// Statements that hold no others, and declarations of locals and fields.

ghost use Rattle.std.specs.Prelude.{◌<◌, ◌≤◌, IfOk, OnOk};

use crate::joining::beside;
use ls_java_lexer::fault::{JavaFault, Wanted};
use ls_java_parser_expressions::creations::initializer;
use ls_java_parser_expressions::expressions::{EXPRESSION_LIMIT, expression};
use ls_java_parser_tokens::modifiers::brackets;
use ls_java_parser_tokens::reader::{
    Reader, at_sign, expect, expected_at, in_box, name, next, place, push, span_from, take_sign,
};
use ls_java_parser_tokens::types::whole_type;
use ls_java_tree::expressions::{Expression, ExpressionKind};
use ls_java_tree::names::{Modifier, Name};
use ls_java_tree::statements::{Declaration, Declarator, Statement, StatementKind};
use ls_java_tree::types::Type;
use ls_lexer::sign::Sign;

/// A statement of this kind, from a token to the last one that is read.
pub fn made(
    reader: &Reader,
    kind: StatementKind,
    first: usize,
) -> Result<Box<Statement>, JavaFault> {
    let span = span_from(reader, first);
    Ok(in_box(reader.alloc, Statement { kind, span })?)
}

/// An expression of the greatest height that expressions may have.
pub fn whole_expression(reader: &mut Reader) -> Result<Expression, JavaFault>
    ensures { IfOk result (λ _. reader.new.left < reader.old.left) }
{
    let found = expression(reader, EXPRESSION_LIMIT)?;
    Ok(Box::into_inner(found.tree))
}

/// An expression in parentheses, without these.
pub fn condition(reader: &mut Reader) -> Result<Expression, JavaFault>
    ensures { IfOk result (λ _. reader.new.left < reader.old.left) }
{
    expect(reader, Sign::OpenParen)?;
    let found = whole_expression(reader)?;
    let (found, _) = beside(found, expect(reader, Sign::CloseParen))?;
    Ok(found)
}

/// An expression, if this sign doesn't come next.
pub fn maybe_expression(reader: &mut Reader, end: Sign) -> Result<Option<Expression>, JavaFault>
    ensures { IfOk result (λ _. reader.new.left ≤ reader.old.left) }
{
    if at_sign(reader, end) {
        return Ok(None);
    }
    let found = whole_expression(reader)?;
    Ok(Some(found))
}

// Whether an expression may be a statement (JLS 14.8).
fn is_statement(found: &Expression) -> bool {
    match &found.kind {
        ExpressionKind::Assign { .. } => true,
        ExpressionKind::Count { .. } => true,
        ExpressionKind::Call { .. } => true,
        ExpressionKind::ConstructorCall { .. } => true,
        ExpressionKind::New { .. } => true,
        _ => false,
    }
}

/// An expression that is a statement.
pub fn effect(reader: &mut Reader) -> Result<Expression, JavaFault>
    ensures { IfOk result (λ _. reader.new.left < reader.old.left) }
{
    let first = place(reader);
    let found = whole_expression(reader)?;
    if !is_statement(&found) {
        return Err(expected_at(reader, first, Wanted::Statement));
    }
    Ok(found)
}

// The value after `=`, or none.
fn maybe_value(reader: &mut Reader) -> Result<Option<Expression>, JavaFault>
    ensures { IfOk result (λ _. reader.new.left ≤ reader.old.left) }
{
    if !take_sign(reader, Sign::Assign) {
        return Ok(None);
    }
    let found = initializer(reader, EXPRESSION_LIMIT)?;
    Ok(Some(Box::into_inner(found.tree)))
}

// The brackets after a declared name, and its value.
fn bracketed_value(reader: &mut Reader) -> Result<(usize, Option<Expression>), JavaFault>
    ensures { IfOk result (λ _. reader.new.left ≤ reader.old.left) }
{
    let brackets = brackets(reader)?;
    let value = maybe_value(reader)?;
    Ok((brackets, value))
}

// What comes after a declared name.
fn declarator(reader: &mut Reader, name: Name) -> Result<Declarator, JavaFault>
    ensures { IfOk result (λ _. reader.new.left ≤ reader.old.left) }
{
    let (name, (brackets, value)) = beside(name, bracketed_value(reader))?;
    Ok(Declarator {
        name,
        brackets,
        value,
    })
}

// One more declared name, from the name on.
fn next_declarator(reader: &mut Reader, all: &mut Vec<Declarator>) -> Result<(), JavaFault>
    ensures { OnOk result (reader.new.left < reader.old.left) }
{
    let name = name(reader)?;
    let one = declarator(reader, name)?;
    push(all, one)?;
    Ok(())
}

// The declared names after the first one.
fn more_declarators(reader: &mut Reader, all: &mut Vec<Declarator>) -> Result<(), JavaFault>
    ensures { OnOk result (reader.new.left ≤ reader.old.left) }
{
    while take_sign(reader, Sign::Comma) {
        next_declarator(reader, all)?;
    }
    Ok(())
}

// What comes after the first declared name, and the other names.
fn all_declarators(
    reader: &mut Reader,
    name: Name,
    all: &mut Vec<Declarator>,
) -> Result<(), JavaFault>
    ensures { OnOk result (reader.new.left ≤ reader.old.left) }
{
    let first = declarator(reader, name)?;
    push(all, first)?;
    more_declarators(reader, all)
}

/// What comes after the first declared name, and the other names with commas between them (JLS 8.3, 14.4).
pub fn declarators(reader: &mut Reader, name: Name) -> Result<Vec<Declarator>, JavaFault>
    ensures { IfOk result (λ _. reader.new.left ≤ reader.old.left) }
{
    let mut all = Vec::new(reader.alloc);
    let read = all_declarators(reader, name, &mut all);
    let (all, _) = beside(all, read)?;
    Ok(all)
}

// The first declared name and what comes after it.
fn named_declarators(reader: &mut Reader) -> Result<Vec<Declarator>, JavaFault>
    ensures { IfOk result (λ _. reader.new.left < reader.old.left) }
{
    let name = name(reader)?;
    declarators(reader, name)
}

// A type, and the names that are declared of it.
fn typed_declarators(reader: &mut Reader) -> Result<(Type, Vec<Declarator>), JavaFault>
    ensures { IfOk result (λ _. reader.new.left < reader.old.left) }
{
    let type_name = whole_type(reader)?;
    beside(type_name, named_declarators(reader))
}

/// A declaration of locals behind its modifiers, without the `;`.
pub fn locals(
    reader: &mut Reader,
    modifiers: Vec<Modifier>,
    first: usize,
) -> Result<Declaration, JavaFault>
    ensures { IfOk result (λ _. reader.new.left < reader.old.left) }
{
    let (modifiers, (type_name, declarators)) = beside(modifiers, typed_declarators(reader))?;
    let span = span_from(reader, first);
    Ok(Declaration {
        modifiers,
        type_name,
        declarators,
        span,
    })
}

// The label after `break` or `continue`, or none, and the `;`.
fn jump_label(reader: &mut Reader) -> Result<Option<Name>, JavaFault>
    ensures { IfOk result (λ _. reader.new.left < reader.old.left) }
{
    if take_sign(reader, Sign::Semicolon) {
        return Ok(None);
    }
    let label = name(reader)?;
    let (label, _) = beside(label, expect(reader, Sign::Semicolon))?;
    Ok(Some(label))
}

/// `break` (JLS 14.15).
pub fn break_statement(reader: &mut Reader) -> Result<Box<Statement>, JavaFault>
    ensures { IfOk result (λ _. reader.new.left < reader.old.left) }
{
    let first = next(reader)?;
    let label = jump_label(reader)?;
    made(reader, StatementKind::Break(label), first)
}

/// `continue` (JLS 14.16).
pub fn continue_statement(reader: &mut Reader) -> Result<Box<Statement>, JavaFault>
    ensures { IfOk result (λ _. reader.new.left < reader.old.left) }
{
    let first = next(reader)?;
    let label = jump_label(reader)?;
    made(reader, StatementKind::Continue(label), first)
}

/// `return` (JLS 14.17).
pub fn return_statement(reader: &mut Reader) -> Result<Box<Statement>, JavaFault>
    ensures { IfOk result (λ _. reader.new.left < reader.old.left) }
{
    let first = next(reader)?;
    let value = maybe_expression(reader, Sign::Semicolon)?;
    let (value, _) = beside(value, expect(reader, Sign::Semicolon))?;
    made(reader, StatementKind::Return(value), first)
}

/// `throw` (JLS 14.18).
pub fn throw_statement(reader: &mut Reader) -> Result<Box<Statement>, JavaFault>
    ensures { IfOk result (λ _. reader.new.left < reader.old.left) }
{
    let first = next(reader)?;
    let value = whole_expression(reader)?;
    let (value, _) = beside(value, expect(reader, Sign::Semicolon))?;
    made(reader, StatementKind::Throw(value), first)
}

fn message(reader: &mut Reader) -> Result<Option<Expression>, JavaFault>
    ensures { IfOk result (λ _. reader.new.left ≤ reader.old.left) }
{
    if !take_sign(reader, Sign::Colon) {
        return Ok(None);
    }
    let found = whole_expression(reader)?;
    Ok(Some(found))
}

// The message after the condition of an `assert`, or none, and the `;`.
fn ended_message(reader: &mut Reader) -> Result<Option<Expression>, JavaFault>
    ensures { IfOk result (λ _. reader.new.left < reader.old.left) }
{
    let message = message(reader)?;
    let (message, _) = beside(message, expect(reader, Sign::Semicolon))?;
    Ok(message)
}

/// `assert` (JLS 14.10).
pub fn assert_statement(reader: &mut Reader) -> Result<Box<Statement>, JavaFault>
    ensures { IfOk result (λ _. reader.new.left < reader.old.left) }
{
    let first = next(reader)?;
    let condition = whole_expression(reader)?;
    let (condition, message) = beside(condition, ended_message(reader))?;
    made(reader, StatementKind::Assert { condition, message }, first)
}

/// A declaration of locals as a statement, behind its modifiers.
pub fn locals_statement(
    reader: &mut Reader,
    modifiers: Vec<Modifier>,
    first: usize,
) -> Result<Box<Statement>, JavaFault>
    ensures { IfOk result (λ _. reader.new.left < reader.old.left) }
{
    let found = locals(reader, modifiers, first)?;
    let (found, _) = beside(found, expect(reader, Sign::Semicolon))?;
    made(reader, StatementKind::Locals(found), first)
}

/// An expression as a statement (JLS 14.8).
pub fn effect_statement(reader: &mut Reader) -> Result<Box<Statement>, JavaFault>
    ensures { IfOk result (λ _. reader.new.left < reader.old.left) }
{
    let first = place(reader);
    let found = effect(reader)?;
    let (found, _) = beside(found, expect(reader, Sign::Semicolon))?;
    made(reader, StatementKind::Expression(found), first)
}
