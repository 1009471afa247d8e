// A primary and what comes after it: fields, calls, elements, counts and method references.

ghost use Rattle.std.specs.Prelude.{◌≡◌, ◌+◌, ◌<◌, ◌≤◌, ◌^◌, IfOk, OnOk};

use crate::creations::{Enclosing, list};
use crate::expressions::expression;
use crate::making::{Tree, check_target, node, within};
use crate::primaries::primary;
use ls_java_lexer::fault::{Form, JavaFault};
use ls_java_lexer::token::TokenKind;
use ls_java_parser_tokens::reader::{
    Reader, at_sign, at_word, expect, name, next, peek, take_word, unread,
};
use ls_java_parser_tokens::types::{TYPE_LIMIT, type_arguments};
use ls_java_tree::expressions::{Count, ExpressionKind};
use ls_java_tree::names::Name;
use ls_java_tree::types::Type;
use ls_lexer::sign::Sign;
use ls_lexer::word::Word;

// Whether something comes next that belongs to the primary before it.
fn has_suffix(reader: &Reader) -> bool {
    matches!(
        &peek(reader),
        TokenKind::Sign(
            Sign::Dot | Sign::OpenBracket | Sign::Increment | Sign::Decrement | Sign::ColonColon
        )
    )
}

/// A primary and its suffixes (JLS 15.8, 15.14).
#[cycle(expressions)]
pub(crate) fn postfix(reader: &mut Reader, limit: usize) -> Result<Tree, JavaFault>
    requires { limit + 1 < 2 ^ 64 }
    ensures { IfOk result (λ p. (p.height ≤ limit + 1) × (reader.new.left < reader.old.left)) }
{
    let mut left = primary(reader, limit)?;
    while has_suffix(reader) {
        within(reader, left.height, limit)?;
        left = suffix(reader, limit, left)?;
    }
    Ok(left)
}

// One suffix. What it belongs to is read already.
#[cycle(expressions)]
fn suffix(reader: &mut Reader, limit: usize, left: Tree) -> Result<Tree, JavaFault>
    requires room { limit + 1 < 2 ^ 64 }
    requires height { left.height ≤ limit }
    ensures { IfOk result (λ p. (p.height ≤ limit + 1) × (reader.new.left < reader.old.left)) }
{
    match peek(reader) {
        TokenKind::Sign(Sign::Dot) => member(reader, limit, left),
        TokenKind::Sign(Sign::OpenBracket) => item(reader, limit, left),
        TokenKind::Sign(Sign::Increment) => counted_after(reader, left, Count::UpAfter),
        TokenKind::Sign(Sign::Decrement) => counted_after(reader, left, Count::DownAfter),
        _ => reference(reader, left),
    }
}

// What comes after a dot.
#[cycle(expressions)]
fn member(reader: &mut Reader, limit: usize, left: Tree) -> Result<Tree, JavaFault>
    requires room { limit + 1 < 2 ^ 64 }
    requires height { left.height ≤ limit }
    ensures { IfOk result (λ p. (p.height ≤ limit + 1) × (reader.new.left < reader.old.left)) }
{
    next(reader)?;
    if at_word(reader, Word::This) {
        return outer_this(reader, left);
    }
    if at_word(reader, Word::New) || at_word(reader, Word::Super) {
        return Err(unread(reader, Form::Qualified));
    }
    let type_arguments = call_types(reader)?;
    let name = name(reader)?;
    if at_sign(reader, Sign::OpenParen) {
        return call(reader, limit, left, type_arguments, name);
    }
    let first = left.tree.span.first;
    let height = left.height + 1;
    let kind = ExpressionKind::Field {
        target: left.tree,
        name,
    };
    node(reader, kind, first, height)
}

// `Outer.this`, from its word on (JLS 15.8.4).
fn outer_this(reader: &mut Reader, left: Tree) -> Result<Tree, JavaFault>
    requires { left.height + 1 < 2 ^ 64 }
    ensures { IfOk result (λ p. (p.height ≡ left.height + 1) × (reader.new.left < reader.old.left)) }
{
    next(reader)?;
    let first = left.tree.span.first;
    let height = left.height + 1;
    node(reader, ExpressionKind::This(Some(left.tree)), first, height)
}

// The list of types before the name of a method (JLS 15.12), or none.
fn call_types(reader: &mut Reader) -> Result<Vec<Type>, JavaFault>
    ensures { IfOk result (λ _. reader.new.left ≤ reader.old.left) }
{
    if at_sign(reader, Sign::Less) {
        type_arguments(reader, TYPE_LIMIT)
    } else {
        Ok(Vec::new(reader.alloc))
    }
}

// The arguments of a call on an object, of which all else is read already.
#[cycle(expressions)]
fn call(
    reader: &mut Reader,
    limit: usize,
    left: Tree,
    type_arguments: Vec<Type>,
    name: Name,
) -> Result<Tree, JavaFault>
    requires room { limit + 1 < 2 ^ 64 }
    requires height { left.height ≤ limit }
    ensures { IfOk result (λ p. (p.height ≤ limit + 1) × (reader.new.left < reader.old.left)) }
{
    let arguments = list(reader, limit, Enclosing::Parentheses)?;
    let first = left.tree.span.first;
    let height = left.height.max(arguments.height) + 1;
    let kind = ExpressionKind::Call {
        target: Some(left.tree),
        type_arguments,
        name,
        arguments: arguments.tree,
    };
    node(reader, kind, first, height)
}

// An index in brackets (JLS 15.10.3).
#[cycle(expressions)]
fn item(reader: &mut Reader, limit: usize, left: Tree) -> Result<Tree, JavaFault>
    requires room { limit + 1 < 2 ^ 64 }
    requires height { left.height ≤ limit }
    ensures { IfOk result (λ p. (p.height ≤ limit + 1) × (reader.new.left < reader.old.left)) }
{
    next(reader)?;
    let index = expression(reader, limit)?;
    expect(reader, Sign::CloseBracket)?;
    let first = left.tree.span.first;
    let height = left.height.max(index.height) + 1;
    let kind = ExpressionKind::Item {
        array: left.tree,
        index: index.tree,
    };
    node(reader, kind, first, height)
}

// `++` or `--` after its operand (JLS 15.14.2).
fn counted_after(reader: &mut Reader, left: Tree, count: Count) -> Result<Tree, JavaFault>
    requires { left.height + 1 < 2 ^ 64 }
    ensures { IfOk result (λ p. (p.height ≡ left.height + 1) × (reader.new.left < reader.old.left)) }
{
    check_target(reader, &left.tree)?;
    next(reader)?;
    let first = left.tree.span.first;
    let height = left.height + 1;
    let kind = ExpressionKind::Count {
        count,
        target: left.tree,
    };
    node(reader, kind, first, height)
}

/// What comes after `::`: a name, or `new`, which is none.
pub fn reference_name(reader: &mut Reader) -> Result<Option<Name>, JavaFault>
    ensures { IfOk result (λ _. reader.new.left < reader.old.left) }
{
    expect(reader, Sign::ColonColon)?;
    if take_word(reader, Word::New) {
        return Ok(None);
    }
    let found = name(reader)?;
    Ok(Some(found))
}

// `::` and a name (JLS 15.13).
fn reference(reader: &mut Reader, left: Tree) -> Result<Tree, JavaFault>
    requires { left.height + 1 < 2 ^ 64 }
    ensures { IfOk result (λ p. (p.height ≡ left.height + 1) × (reader.new.left < reader.old.left)) }
{
    let name = reference_name(reader)?;
    let first = left.tree.span.first;
    let height = left.height + 1;
    let kind = ExpressionKind::MethodReference {
        target: left.tree,
        name,
    };
    node(reader, kind, first, height)
}
