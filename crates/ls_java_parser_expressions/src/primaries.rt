// Primaries (JLS 15.8): literals, names, calls, `this`, parentheses.

ghost use Rattle.std.specs.Prelude.{◌≡◌, ◌+◌, ◌<◌, ◌≤◌, ◌^◌, IfOk, OnOk};

use crate::creations::{Enclosing, creation, list};
use crate::expressions::expression;
use crate::making::{Tree, literal, node};
use crate::operators::is_least;
use crate::suffixes::reference_name;
use ls_java_lexer::fault::{JavaFault, Wanted};
use ls_java_lexer::token::TokenKind;
use ls_java_parser_tokens::ahead::{at_type_use, primitive_of};
use ls_java_parser_tokens::reader::{
    Reader, at_sign, at_word, expect, expect_word, expected, is_name, is_sign, name, next, peek,
    peek_at, place, span_from, take_sign,
};
use ls_java_parser_tokens::types::whole_type;
use ls_java_tree::expressions::{Expression, ExpressionKind};
use ls_java_tree::names::Name;
use ls_java_tree::types::{Type, TypeKind};
use ls_lexer::sign::Sign;
use ls_lexer::word::Word;
use std::alloc::Global;

// What a call without an object before it calls.
#[derive(Drop)]
enum Callee {
    Method(Name),
    Constructor { of_super: bool },
}

/// A primary without what comes after it. Its height is at most one more than the limit.
#[cycle(expressions)]
pub(crate) fn primary(reader: &mut Reader, limit: usize) -> Result<Tree, JavaFault>
    requires { limit + 1 < 2 ^ 64 }
    ensures { IfOk result (λ p. (p.height ≤ limit + 1) × (reader.new.left < reader.old.left)) }
{
    if at_call(reader) {
        return own_call(reader, limit);
    }
    match peek(reader) {
        TokenKind::Word(Word::New) => creation(reader, limit),
        TokenKind::Sign(Sign::OpenParen) => paren(reader, limit),
        _ => leaf(reader),
    }
}

// Whether a name, `this` or `super` comes next, and then `(`.
fn at_call(reader: &Reader) -> bool {
    let callee = is_name(peek(reader))
        || at_word(reader, Word::This)
        || at_word(reader, Word::Super);
    callee && is_sign(peek_at(reader, 1), Sign::OpenParen)
}

fn called(reader: &mut Reader) -> Result<Callee, JavaFault>
    ensures { IfOk result (λ _. reader.new.left < reader.old.left) }
{
    if is_name(peek(reader)) {
        let found = name(reader)?;
        return Ok(Callee::Method(found));
    }
    let of_super = at_word(reader, Word::Super);
    next(reader)?;
    Ok(Callee::Constructor { of_super })
}

fn call_kind(alloc: Global, callee: Callee, arguments: Vec<Expression>) -> ExpressionKind {
    match callee {
        Callee::Method(name) => ExpressionKind::Call {
            target: None,
            type_arguments: Vec::new(alloc),
            name,
            arguments,
        },
        Callee::Constructor { of_super } => ExpressionKind::ConstructorCall {
            of_super,
            arguments,
        },
    }
}

// A call without an object before it (JLS 15.12), or of a constructor (JLS 8.8.7.1).
#[cycle(expressions)]
fn own_call(reader: &mut Reader, limit: usize) -> Result<Tree, JavaFault>
    requires { limit + 1 < 2 ^ 64 }
    ensures { IfOk result (λ p. (p.height ≤ limit + 1) × (reader.new.left < reader.old.left)) }
{
    let first = place(reader);
    let callee = called(reader)?;
    let arguments = list(reader, limit, Enclosing::Parentheses)?;
    let height = arguments.height + 1;
    let kind = call_kind(reader.alloc, callee, arguments.tree);
    node(reader, kind, first, height)
}

// A primary that has no others in it.
fn leaf(reader: &mut Reader) -> Result<Tree, JavaFault>
    ensures { IfOk result (λ p. (p.height ≡ 1) × (reader.new.left < reader.old.left)) }
{
    let kind = peek(reader);
    match kind {
        TokenKind::Name(_) => named(reader),
        TokenKind::Word(Word::This) => this(reader),
        TokenKind::Word(Word::Super) => above(reader),
        TokenKind::Word(Word::Void) => void_class(reader),
        _ => {
            if is_least(kind) {
                Err(expected(reader, Wanted::Expression))
            } else if primitive_of(kind).is_some() {
                type_use(reader)
            } else {
                literal(reader)
            }
        }
    }
}

// What begins with a name: that name, or a type that no expression is.
fn named(reader: &mut Reader) -> Result<Tree, JavaFault>
    ensures { IfOk result (λ p. (p.height ≡ 1) × (reader.new.left < reader.old.left)) }
{
    if at_type_use(reader) {
        return type_use(reader);
    }
    let first = place(reader);
    let name = name(reader)?;
    node(reader, ExpressionKind::Name(name), first, 1)
}

fn this(reader: &mut Reader) -> Result<Tree, JavaFault>
    ensures { IfOk result (λ p. (p.height ≡ 1) × (reader.new.left < reader.old.left)) }
{
    let first = next(reader)?;
    node(reader, ExpressionKind::This(None), first, 1)
}

// `super`, after which a member or a method reference comes.
fn above(reader: &mut Reader) -> Result<Tree, JavaFault>
    ensures { IfOk result (λ p. (p.height ≡ 1) × (reader.new.left < reader.old.left)) }
{
    let first = next(reader)?;
    if !(at_sign(reader, Sign::Dot) || at_sign(reader, Sign::ColonColon)) {
        return Err(expected(reader, Wanted::Dot));
    }
    node(reader, ExpressionKind::Super, first, 1)
}

// `Type.class` (JLS 15.8.2), or `Type::name` (JLS 15.13).
fn type_use(reader: &mut Reader) -> Result<Tree, JavaFault>
    ensures { IfOk result (λ p. (p.height ≡ 1) × (reader.new.left < reader.old.left)) }
{
    let first = place(reader);
    let type_name = whole_type(reader)?;
    if take_sign(reader, Sign::Dot) {
        expect_word(reader, Word::Class, Wanted::Class)?;
        return node(reader, ExpressionKind::Class(type_name), first, 1);
    }
    let name = reference_name(reader)?;
    node(
        reader,
        ExpressionKind::TypeReference { type_name, name },
        first,
        1,
    )
}

// `void.class`.
fn void_class(reader: &mut Reader) -> Result<Tree, JavaFault>
    ensures { IfOk result (λ p. (p.height ≡ 1) × (reader.new.left < reader.old.left)) }
{
    let first = next(reader)?;
    let void = Type {
        kind: TypeKind::Void,
        span: span_from(reader, first),
    };
    expect(reader, Sign::Dot)?;
    expect_word(reader, Word::Class, Wanted::Class)?;
    node(reader, ExpressionKind::Class(void), first, 1)
}

// An expression in parentheses (JLS 15.8.5).
#[cycle(expressions)]
fn paren(reader: &mut Reader, limit: usize) -> Result<Tree, JavaFault>
    requires { limit + 1 < 2 ^ 64 }
    ensures { IfOk result (λ p. (p.height ≤ limit + 1) × (reader.new.left < reader.old.left)) }
{
    let first = next(reader)?;
    let inner = expression(reader, limit)?;
    expect(reader, Sign::CloseParen)?;
    let height = inner.height + 1;
    node(reader, ExpressionKind::Paren(inner.tree), first, height)
}
