// Loops.

ghost use Rattle.std.specs.Prelude.{◌<◌, ◌≤◌, IfOk, OnOk};

use crate::joining::beside;
use crate::simple::{condition, effect, locals, made, maybe_expression, whole_expression};
use crate::statements::statement;
use ls_java_lexer::fault::{JavaFault, Wanted};
use ls_java_parser_tokens::ahead::{at_locals, kind_at, type_end};
use ls_java_parser_tokens::modifiers::modifiers;
use ls_java_parser_tokens::reader::{
    Reader, at_sign, expect, expect_word, is_name, is_sign, name, next, place, push, take_sign,
};
use ls_java_parser_tokens::types::whole_type;
use ls_java_tree::expressions::Expression;
use ls_java_tree::names::{Modifier, Name};
use ls_java_tree::statements::{Local, Opening, Statement, StatementKind};
use ls_java_tree::types::Type;
use ls_lexer::sign::Sign;
use ls_lexer::word::Word;

/// `while` (JLS 14.12).
#[cycle(statements)]
pub(crate) fn while_statement(
    reader: &mut Reader,
    limit: usize,
) -> Result<Box<Statement>, JavaFault>
    ensures { IfOk result (λ _. reader.new.left < reader.old.left) }
{
    let first = next(reader)?;
    let condition = condition(reader)?;
    let (condition, body) = beside(condition, statement(reader, limit))?;
    made(reader, StatementKind::While { condition, body }, first)
}

// `while` and a condition, after the body of a `do`, and the `;`.
fn do_condition(reader: &mut Reader) -> Result<Expression, JavaFault>
    ensures { IfOk result (λ _. reader.new.left < reader.old.left) }
{
    expect_word(reader, Word::While, Wanted::While)?;
    let condition = condition(reader)?;
    let (condition, _) = beside(condition, expect(reader, Sign::Semicolon))?;
    Ok(condition)
}

/// `do` (JLS 14.13).
#[cycle(statements)]
pub(crate) fn do_statement(reader: &mut Reader, limit: usize) -> Result<Box<Statement>, JavaFault>
    ensures { IfOk result (λ _. reader.new.left < reader.old.left) }
{
    let first = next(reader)?;
    let body = statement(reader, limit)?;
    let (body, condition) = beside(body, do_condition(reader))?;
    made(reader, StatementKind::DoWhile { body, condition }, first)
}

// Whether a type, a name and `:` come next.
fn at_items(reader: &Reader) -> bool {
    let Some(end) = type_end(reader.tokens, place(reader)) else {
        return false;
    };
    is_name(kind_at(reader.tokens, end))
        && is_sign(kind_at(reader.tokens, end.saturating_add(1)), Sign::Colon)
}

/// `for` (JLS 14.14).
#[cycle(statements)]
pub(crate) fn for_statement(reader: &mut Reader, limit: usize) -> Result<Box<Statement>, JavaFault>
    ensures { IfOk result (λ _. reader.new.left < reader.old.left) }
{
    let first = next(reader)?;
    expect(reader, Sign::OpenParen)?;
    let modifiers = modifiers(reader)?;
    if at_items(reader) {
        for_each(reader, limit, first, modifiers)
    } else {
        for_basic(reader, limit, first, modifiers)
    }
}

// The name of the local of a `for` over items, and the colon.
fn item_name(reader: &mut Reader) -> Result<Name, JavaFault>
    ensures { IfOk result (λ _. reader.new.left < reader.old.left) }
{
    let name = name(reader)?;
    let (name, _) = beside(name, expect(reader, Sign::Colon))?;
    Ok(name)
}

// The type and the name of the local of a `for` over items.
fn typed_name(reader: &mut Reader) -> Result<(Type, Name), JavaFault>
    ensures { IfOk result (λ _. reader.new.left < reader.old.left) }
{
    let type_name = whole_type(reader)?;
    beside(type_name, item_name(reader))
}

// The local of a `for` over items, behind its modifiers (JLS 14.14.2).
fn item(reader: &mut Reader, modifiers: Vec<Modifier>) -> Result<Local, JavaFault>
    ensures { IfOk result (λ _. reader.new.left < reader.old.left) }
{
    let (modifiers, (type_name, name)) = beside(modifiers, typed_name(reader))?;
    Ok(Local {
        modifiers,
        type_name,
        name,
    })
}

// What a `for` goes over, and the parenthesis behind it.
fn items(reader: &mut Reader) -> Result<Expression, JavaFault>
    ensures { IfOk result (λ _. reader.new.left < reader.old.left) }
{
    let items = whole_expression(reader)?;
    let (items, _) = beside(items, expect(reader, Sign::CloseParen))?;
    Ok(items)
}

// The head of a `for` over items, behind its modifiers.
fn each_head(
    reader: &mut Reader,
    modifiers: Vec<Modifier>,
) -> Result<(Local, Expression), JavaFault>
    ensures { IfOk result (λ _. reader.new.left < reader.old.left) }
{
    let item = item(reader, modifiers)?;
    beside(item, items(reader))
}

#[cycle(statements)]
fn for_each(
    reader: &mut Reader,
    limit: usize,
    first: usize,
    modifiers: Vec<Modifier>,
) -> Result<Box<Statement>, JavaFault>
    ensures { IfOk result (λ _. reader.new.left < reader.old.left) }
{
    let head = each_head(reader, modifiers)?;
    let ((item, items), body) = beside(head, statement(reader, limit))?;
    made(reader, StatementKind::ForEach { item, items, body }, first)
}

// One more expression that is a statement.
fn push_effect(reader: &mut Reader, all: &mut Vec<Expression>) -> Result<(), JavaFault>
    ensures { OnOk result (reader.new.left < reader.old.left) }
{
    let one = effect(reader)?;
    push(all, one)?;
    Ok(())
}

// Expressions that are statements, with commas between them.
fn all_effects(reader: &mut Reader, all: &mut Vec<Expression>) -> Result<(), JavaFault>
    ensures { OnOk result (reader.new.left ≤ reader.old.left) }
{
    push_effect(reader, all)?;
    while take_sign(reader, Sign::Comma) {
        push_effect(reader, all)?;
    }
    Ok(())
}

// Expressions that are statements, with commas between them, up to a sign, or none of them.
fn effects(reader: &mut Reader, end: Sign) -> Result<Vec<Expression>, JavaFault>
    ensures { IfOk result (λ _. reader.new.left ≤ reader.old.left) }
{
    let mut all = Vec::new(reader.alloc);
    if at_sign(reader, end) {
        return Ok(all);
    }
    let read = all_effects(reader, &mut all);
    let (all, _) = beside(all, read)?;
    Ok(all)
}

// What a `for` begins with, behind its modifiers.
fn opening(reader: &mut Reader, modifiers: Vec<Modifier>) -> Result<Opening, JavaFault>
    ensures { IfOk result (λ _. reader.new.left ≤ reader.old.left) }
{
    if !modifiers.is_empty() || at_locals(reader) {
        let first = place(reader);
        let found = locals(reader, modifiers, first)?;
        Ok(Opening::Locals(found))
    } else {
        let found = effects(reader, Sign::Semicolon)?;
        Ok(Opening::Expressions(found))
    }
}

// The condition of a `for`, with the `;` on both sides.
fn for_condition(reader: &mut Reader) -> Result<Option<Expression>, JavaFault>
    ensures { IfOk result (λ _. reader.new.left < reader.old.left) }
{
    expect(reader, Sign::Semicolon)?;
    let condition = maybe_expression(reader, Sign::Semicolon)?;
    let (condition, _) = beside(condition, expect(reader, Sign::Semicolon))?;
    Ok(condition)
}

// The updates of a `for`, and the parenthesis behind them.
fn for_updates(reader: &mut Reader) -> Result<Vec<Expression>, JavaFault>
    ensures { IfOk result (λ _. reader.new.left < reader.old.left) }
{
    let updates = effects(reader, Sign::CloseParen)?;
    let (updates, _) = beside(updates, expect(reader, Sign::CloseParen))?;
    Ok(updates)
}

// The condition and the updates of a `for`.
fn for_rest(reader: &mut Reader) -> Result<(Option<Expression>, Vec<Expression>), JavaFault>
    ensures { IfOk result (λ _. reader.new.left < reader.old.left) }
{
    let condition = for_condition(reader)?;
    beside(condition, for_updates(reader))
}

// The head of a `for`.
#[derive(Drop)]
struct ForHead {
    opening: Opening,
    condition: Option<Expression>,
    updates: Vec<Expression>,
}

fn for_head(reader: &mut Reader, modifiers: Vec<Modifier>) -> Result<ForHead, JavaFault>
    ensures { IfOk result (λ _. reader.new.left < reader.old.left) }
{
    let opening = opening(reader, modifiers)?;
    let (opening, (condition, updates)) = beside(opening, for_rest(reader))?;
    Ok(ForHead {
        opening,
        condition,
        updates,
    })
}

#[cycle(statements)]
fn for_basic(
    reader: &mut Reader,
    limit: usize,
    first: usize,
    modifiers: Vec<Modifier>,
) -> Result<Box<Statement>, JavaFault>
    ensures { IfOk result (λ _. reader.new.left < reader.old.left) }
{
    let head = for_head(reader, modifiers)?;
    let (head, body) = beside(head, statement(reader, limit))?;
    let ForHead {
        opening,
        condition,
        updates,
    } = head;
    let kind = StatementKind::For {
        opening,
        condition,
        updates,
        body,
    };
    made(reader, kind, first)
}
