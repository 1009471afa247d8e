// Blocks and statements.

ghost use Rattle.std.specs.Prelude.{◌<◌, ◌≤◌, IfOk, OnOk};

use crate::joining::beside;
use crate::loops::{do_statement, for_statement, while_statement};
use crate::simple::{
    assert_statement, break_statement, condition, continue_statement, effect_statement,
    locals_statement, made, return_statement, throw_statement,
};
use crate::switches::{switch_statement, try_statement};
use ls_java_lexer::fault::{Form, JavaFault};
use ls_java_lexer::token::TokenKind;
use ls_java_parser_tokens::ahead::at_locals;
use ls_java_parser_tokens::modifiers::modifiers;
use ls_java_parser_tokens::reader::{
    Reader, at_sign, at_word, deeper, expect, is_name, is_sign, name, next, peek, peek_at, place,
    push, span_from, take_word, unread,
};
use ls_java_tree::names::Name;
use ls_java_tree::statements::{Block, Statement, StatementKind};
use ls_lexer::sign::Sign;
use ls_lexer::word::Word;

/// The greatest height of a body, in statements.
pub const STATEMENT_LIMIT: usize = 128;

// One more statement of a block.
#[cycle(statements)]
pub(crate) fn push_statement(
    reader: &mut Reader,
    limit: usize,
    all: &mut Vec<Statement>,
) -> Result<(), JavaFault>
    ensures { OnOk result (reader.new.left < reader.old.left) }
{
    let one = block_statement(reader, limit)?;
    push(all, Box::into_inner(one))?;
    Ok(())
}

// The statements of a block, and the braces around them.
#[cycle(statements)]
fn statements_in_braces(
    reader: &mut Reader,
    limit: usize,
    all: &mut Vec<Statement>,
) -> Result<(), JavaFault>
    ensures { OnOk result (reader.new.left < reader.old.left) }
{
    expect(reader, Sign::OpenBrace)?;
    while !at_sign(reader, Sign::CloseBrace) {
        push_statement(reader, limit, all)?;
    }
    expect(reader, Sign::CloseBrace)?;
    Ok(())
}

/// A block (JLS 14.2).
#[cycle(statements)]
pub fn block(reader: &mut Reader, limit: usize) -> Result<Block, JavaFault>
    ensures { IfOk result (λ _. reader.new.left < reader.old.left) }
{
    let first = place(reader);
    let mut statements = Vec::new(reader.alloc);
    let read = statements_in_braces(reader, limit, &mut statements);
    let (statements, _) = beside(statements, read)?;
    let span = span_from(reader, first);
    Ok(Block { statements, span })
}

// Whether the modifiers of a local or a local class come next.
fn at_modifiers(reader: &Reader) -> bool {
    at_word(reader, Word::Final)
        || at_word(reader, Word::Abstract)
        || at_word(reader, Word::Static)
        || at_sign(reader, Sign::At)
}

/// Whether a class comes next.
pub fn at_class(reader: &Reader) -> bool {
    at_word(reader, Word::Class) || at_word(reader, Word::Interface) || at_word(reader, Word::Enum)
}

/// A statement of a block, or a declaration of locals there.
#[cycle(statements)]
pub(crate) fn block_statement(
    reader: &mut Reader,
    limit: usize,
) -> Result<Box<Statement>, JavaFault>
    ensures { IfOk result (λ _. reader.new.left < reader.old.left) }
{
    let first = place(reader);
    if at_class(reader) {
        return Err(unread(reader, Form::LocalClass));
    }
    if !(at_modifiers(reader) || at_locals(reader)) {
        return statement(reader, limit);
    }
    let modifiers = modifiers(reader)?;
    let (modifiers, _) = beside(modifiers, no_class(reader))?;
    locals_statement(reader, modifiers, first)
}

// That no class comes next.
fn no_class(reader: &Reader) -> Result<(), JavaFault> {
    if at_class(reader) {
        return Err(unread(reader, Form::LocalClass));
    }
    Ok(())
}

/// A statement (JLS 14.5) of at most so many statements from top to bottom.
#[cycle(statements)]
pub(crate) fn statement(reader: &mut Reader, limit: usize) -> Result<Box<Statement>, JavaFault>
    ensures { IfOk result (λ _. reader.new.left < reader.old.left) }
{
    let inner = deeper(reader, limit)?;
    match peek(reader) {
        TokenKind::Word(Word::Return) => return_statement(reader),
        TokenKind::Word(Word::Break) => break_statement(reader),
        TokenKind::Word(Word::Continue) => continue_statement(reader),
        TokenKind::Word(Word::Throw) => throw_statement(reader),
        TokenKind::Word(Word::Assert) => assert_statement(reader),
        TokenKind::Word(Word::If) => if_statement(reader, inner),
        TokenKind::Word(Word::While) => while_statement(reader, inner),
        TokenKind::Word(Word::Do) => do_statement(reader, inner),
        TokenKind::Word(Word::For) => for_statement(reader, inner),
        TokenKind::Word(Word::Switch) => switch_statement(reader, inner),
        TokenKind::Word(Word::Try) => try_statement(reader, inner),
        TokenKind::Word(Word::Synchronized) => synchronized(reader, inner),
        TokenKind::Sign(Sign::OpenBrace) => inner_block(reader, inner),
        TokenKind::Sign(Sign::Semicolon) => empty(reader),
        _ => other_statement(reader, inner),
    }
}

// A label with its statement, or an expression.
#[cycle(statements)]
fn other_statement(reader: &mut Reader, limit: usize) -> Result<Box<Statement>, JavaFault>
    ensures { IfOk result (λ _. reader.new.left < reader.old.left) }
{
    if is_name(peek(reader)) && is_sign(peek_at(reader, 1), Sign::Colon) {
        labeled(reader, limit)
    } else {
        effect_statement(reader)
    }
}

// A label, and the colon.
fn label(reader: &mut Reader) -> Result<Name, JavaFault>
    ensures { IfOk result (λ _. reader.new.left < reader.old.left) }
{
    let label = name(reader)?;
    let (label, _) = beside(label, expect(reader, Sign::Colon))?;
    Ok(label)
}

// A label and its statement (JLS 14.7).
#[cycle(statements)]
fn labeled(reader: &mut Reader, limit: usize) -> Result<Box<Statement>, JavaFault>
    ensures { IfOk result (λ _. reader.new.left < reader.old.left) }
{
    let first = place(reader);
    let label = label(reader)?;
    let (label, body) = beside(label, statement(reader, limit))?;
    made(reader, StatementKind::Labeled { label, body }, first)
}

fn empty(reader: &mut Reader) -> Result<Box<Statement>, JavaFault>
    ensures { IfOk result (λ _. reader.new.left < reader.old.left) }
{
    let first = next(reader)?;
    made(reader, StatementKind::Empty, first)
}

#[cycle(statements)]
fn inner_block(reader: &mut Reader, limit: usize) -> Result<Box<Statement>, JavaFault>
    ensures { IfOk result (λ _. reader.new.left < reader.old.left) }
{
    let first = place(reader);
    let found = block(reader, limit)?;
    made(reader, StatementKind::Block(found), first)
}

// `if` (JLS 14.9). An `else` belongs to the innermost `if` to which it can.
#[cycle(statements)]
fn if_statement(reader: &mut Reader, limit: usize) -> Result<Box<Statement>, JavaFault>
    ensures { IfOk result (λ _. reader.new.left < reader.old.left) }
{
    let first = next(reader)?;
    let condition = condition(reader)?;
    let (condition, branches) = beside(condition, branches(reader, limit))?;
    let (then, otherwise) = branches;
    let kind = StatementKind::If {
        condition,
        then,
        otherwise,
    };
    made(reader, kind, first)
}

// The statements of an `if`, of which the second may be missing.
#[cycle(statements)]
fn branches(
    reader: &mut Reader,
    limit: usize,
) -> Result<(Box<Statement>, Option<Box<Statement>>), JavaFault>
    ensures { IfOk result (λ _. reader.new.left < reader.old.left) }
{
    let then = statement(reader, limit)?;
    beside(then, else_statement(reader, limit))
}

#[cycle(statements)]
fn else_statement(reader: &mut Reader, limit: usize) -> Result<Option<Box<Statement>>, JavaFault>
    ensures { IfOk result (λ _. reader.new.left ≤ reader.old.left) }
{
    if !take_word(reader, Word::Else) {
        return Ok(None);
    }
    let otherwise = statement(reader, limit)?;
    Ok(Some(otherwise))
}

// `synchronized` (JLS 14.19).
#[cycle(statements)]
fn synchronized(reader: &mut Reader, limit: usize) -> Result<Box<Statement>, JavaFault>
    ensures { IfOk result (λ _. reader.new.left < reader.old.left) }
{
    let first = next(reader)?;
    let target = condition(reader)?;
    let (target, body) = beside(target, block(reader, limit))?;
    made(reader, StatementKind::Synchronized { target, body }, first)
}
