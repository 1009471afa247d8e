// `switch` (JLS 14.11) and `try` (JLS 14.20).

ghost use Rattle.std.specs.Prelude.{◌<◌, ◌≤◌, IfOk, OnOk};

use crate::joining::beside;
use crate::simple::{condition, made, whole_expression};
use crate::statements::{block, push_statement};
use ls_java_lexer::fault::{Form, JavaFault, Wanted};
use ls_java_parser_tokens::ahead::at_lambda;
use ls_java_parser_tokens::modifiers::modifiers;
use ls_java_parser_tokens::reader::{
    Reader, at_sign, at_word, expect, expected, name, next, place, push, span_from, take_word,
    unread,
};
use ls_java_parser_tokens::types::types_between;
use ls_java_tree::expressions::Expression;
use ls_java_tree::names::{Modifier, Name};
use ls_java_tree::statements::{Block, Catch, Statement, StatementKind, SwitchGroup};
use ls_java_tree::types::Type;
use ls_lexer::sign::Sign;
use ls_lexer::word::Word;

// Whether a label of a `switch` comes next.
fn at_case(reader: &Reader) -> bool {
    at_word(reader, Word::Case) || at_word(reader, Word::Default)
}

// The value of a label, which comes next. `default` has none.
fn case_value(reader: &mut Reader) -> Result<Option<Expression>, JavaFault>
    ensures { IfOk result (λ _. reader.new.left < reader.old.left) }
{
    if take_word(reader, Word::Default) {
        return Ok(None);
    }
    next(reader)?;
    if at_lambda(reader) {
        return Err(unread(reader, Form::CaseArrow));
    }
    let value = whole_expression(reader)?;
    Ok(Some(value))
}

// The colon of a label.
fn colon(reader: &mut Reader) -> Result<usize, JavaFault>
    ensures { OnOk result (reader.new.left < reader.old.left) }
{
    if at_sign(reader, Sign::Arrow) {
        return Err(unread(reader, Form::CaseArrow));
    }
    expect(reader, Sign::Colon)
}

// A label with its colon.
fn case_label(reader: &mut Reader) -> Result<Option<Expression>, JavaFault>
    ensures { IfOk result (λ _. reader.new.left < reader.old.left) }
{
    let value = case_value(reader)?;
    let (value, _) = beside(value, colon(reader))?;
    Ok(value)
}

// One more label.
fn push_label(reader: &mut Reader, all: &mut Vec<Option<Expression>>) -> Result<(), JavaFault>
    ensures { OnOk result (reader.new.left < reader.old.left) }
{
    let one = case_label(reader)?;
    push(all, one)?;
    Ok(())
}

// The labels of a group.
fn all_labels(reader: &mut Reader, all: &mut Vec<Option<Expression>>) -> Result<(), JavaFault>
    ensures { OnOk result (reader.new.left < reader.old.left) }
{
    if !at_case(reader) {
        return Err(expected(reader, Wanted::Case));
    }
    push_label(reader, all)?;
    while at_case(reader) {
        push_label(reader, all)?;
    }
    Ok(())
}

// The labels of a group. There is at least one.
fn labels(reader: &mut Reader) -> Result<Vec<Option<Expression>>, JavaFault>
    ensures { IfOk result (λ _. reader.new.left < reader.old.left) }
{
    let mut all = Vec::new(reader.alloc);
    let read = all_labels(reader, &mut all);
    let (all, _) = beside(all, read)?;
    Ok(all)
}

// The statements after labels.
#[cycle(statements)]
fn case_statements(
    reader: &mut Reader,
    limit: usize,
    all: &mut Vec<Statement>,
) -> Result<(), JavaFault>
    ensures { OnOk result (reader.new.left ≤ reader.old.left) }
{
    while !(at_case(reader) || at_sign(reader, Sign::CloseBrace)) {
        push_statement(reader, limit, all)?;
    }
    Ok(())
}

#[cycle(statements)]
fn group_statements(reader: &mut Reader, limit: usize) -> Result<Vec<Statement>, JavaFault>
    ensures { IfOk result (λ _. reader.new.left ≤ reader.old.left) }
{
    let mut all = Vec::new(reader.alloc);
    let read = case_statements(reader, limit, &mut all);
    let (all, _) = beside(all, read)?;
    Ok(all)
}

#[cycle(statements)]
fn group(reader: &mut Reader, limit: usize) -> Result<SwitchGroup, JavaFault>
    ensures { IfOk result (λ _. reader.new.left < reader.old.left) }
{
    let first = place(reader);
    let labels = labels(reader)?;
    let (labels, statements) = beside(labels, group_statements(reader, limit))?;
    let span = span_from(reader, first);
    Ok(SwitchGroup {
        labels,
        statements,
        span,
    })
}

// One more group.
#[cycle(statements)]
fn push_group(
    reader: &mut Reader,
    limit: usize,
    all: &mut Vec<SwitchGroup>,
) -> Result<(), JavaFault>
    ensures { OnOk result (reader.new.left < reader.old.left) }
{
    let one = group(reader, limit)?;
    push(all, one)?;
    Ok(())
}

// Groups, and the braces around them.
#[cycle(statements)]
fn groups_in_braces(
    reader: &mut Reader,
    limit: usize,
    all: &mut Vec<SwitchGroup>,
) -> Result<(), JavaFault>
    ensures { OnOk result (reader.new.left < reader.old.left) }
{
    expect(reader, Sign::OpenBrace)?;
    while !at_sign(reader, Sign::CloseBrace) {
        push_group(reader, limit, all)?;
    }
    expect(reader, Sign::CloseBrace)?;
    Ok(())
}

#[cycle(statements)]
fn groups(reader: &mut Reader, limit: usize) -> Result<Vec<SwitchGroup>, JavaFault>
    ensures { IfOk result (λ _. reader.new.left < reader.old.left) }
{
    let mut all = Vec::new(reader.alloc);
    let read = groups_in_braces(reader, limit, &mut all);
    let (all, _) = beside(all, read)?;
    Ok(all)
}

/// `switch` (JLS 14.11).
#[cycle(statements)]
pub(crate) fn switch_statement(
    reader: &mut Reader,
    limit: usize,
) -> Result<Box<Statement>, JavaFault>
    ensures { IfOk result (λ _. reader.new.left < reader.old.left) }
{
    let first = next(reader)?;
    let subject = condition(reader)?;
    let (subject, groups) = beside(subject, groups(reader, limit))?;
    made(reader, StatementKind::Switch { subject, groups }, first)
}

// What a `catch` catches.
#[derive(Drop)]
struct CatchHead {
    modifiers: Vec<Modifier>,
    types: Vec<Type>,
    name: Name,
}

// The name that a `catch` declares, and the parenthesis behind it.
fn catch_name(reader: &mut Reader) -> Result<Name, JavaFault>
    ensures { IfOk result (λ _. reader.new.left < reader.old.left) }
{
    let name = name(reader)?;
    let (name, _) = beside(name, expect(reader, Sign::CloseParen))?;
    Ok(name)
}

// The types and the name of a `catch`.
fn catch_types(reader: &mut Reader) -> Result<(Vec<Type>, Name), JavaFault>
    ensures { IfOk result (λ _. reader.new.left < reader.old.left) }
{
    let types = types_between(reader, Sign::BitOr)?;
    beside(types, catch_name(reader))
}

// The head of a `catch`, from its parenthesis on.
fn catch_head(reader: &mut Reader) -> Result<CatchHead, JavaFault>
    ensures { IfOk result (λ _. reader.new.left < reader.old.left) }
{
    expect(reader, Sign::OpenParen)?;
    let modifiers = modifiers(reader)?;
    let (modifiers, (types, name)) = beside(modifiers, catch_types(reader))?;
    Ok(CatchHead {
        modifiers,
        types,
        name,
    })
}

#[cycle(statements)]
fn catch_clause(reader: &mut Reader, limit: usize) -> Result<Catch, JavaFault>
    ensures { IfOk result (λ _. reader.new.left < reader.old.left) }
{
    let first = next(reader)?;
    let head = catch_head(reader)?;
    let (head, body) = beside(head, block(reader, limit))?;
    let span = span_from(reader, first);
    let CatchHead {
        modifiers,
        types,
        name,
    } = head;
    Ok(Catch {
        modifiers,
        types,
        name,
        body,
        span,
    })
}

// One more `catch`.
#[cycle(statements)]
fn push_catch(reader: &mut Reader, limit: usize, all: &mut Vec<Catch>) -> Result<(), JavaFault>
    ensures { OnOk result (reader.new.left < reader.old.left) }
{
    let one = catch_clause(reader, limit)?;
    push(all, one)?;
    Ok(())
}

// Every `catch` that comes next.
#[cycle(statements)]
fn all_catches(reader: &mut Reader, limit: usize, all: &mut Vec<Catch>) -> Result<(), JavaFault>
    ensures { OnOk result (reader.new.left ≤ reader.old.left) }
{
    while at_word(reader, Word::Catch) {
        push_catch(reader, limit, all)?;
    }
    Ok(())
}

#[cycle(statements)]
fn catches(reader: &mut Reader, limit: usize) -> Result<Vec<Catch>, JavaFault>
    ensures { IfOk result (λ _. reader.new.left ≤ reader.old.left) }
{
    let mut all = Vec::new(reader.alloc);
    let read = all_catches(reader, limit, &mut all);
    let (all, _) = beside(all, read)?;
    Ok(all)
}

#[cycle(statements)]
fn finally(reader: &mut Reader, limit: usize) -> Result<Option<Block>, JavaFault>
    ensures { IfOk result (λ _. reader.new.left ≤ reader.old.left) }
{
    if !take_word(reader, Word::Finally) {
        return Ok(None);
    }
    let body = block(reader, limit)?;
    Ok(Some(body))
}

// What comes after the block of a `try`: a `catch` or `finally` must come.
#[cycle(statements)]
fn handlers(reader: &mut Reader, limit: usize) -> Result<(Vec<Catch>, Option<Block>), JavaFault>
    ensures { IfOk result (λ _. reader.new.left ≤ reader.old.left) }
{
    if !(at_word(reader, Word::Catch) || at_word(reader, Word::Finally)) {
        return Err(expected(reader, Wanted::Catch));
    }
    let catches = catches(reader, limit)?;
    beside(catches, finally(reader, limit))
}

/// `try` without resources. A `catch` or `finally` must come.
#[cycle(statements)]
pub(crate) fn try_statement(reader: &mut Reader, limit: usize) -> Result<Box<Statement>, JavaFault>
    ensures { IfOk result (λ _. reader.new.left < reader.old.left) }
{
    let first = next(reader)?;
    if at_sign(reader, Sign::OpenParen) {
        return Err(unread(reader, Form::Resource));
    }
    let body = block(reader, limit)?;
    let (body, handled) = beside(body, handlers(reader, limit))?;
    let (catches, finally) = handled;
    let kind = StatementKind::Try {
        body,
        catches,
        finally,
    };
    made(reader, kind, first)
}
