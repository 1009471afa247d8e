// What comes after `new` (JLS 15.9, 15.10), and initialisers of arrays (JLS 10.6).

ghost use Rattle.std.specs.Prelude.{◌≡◌, ◌+◌, ◌<◌, ◌≤◌, ◌^◌, IfOk, OnOk};

use crate::expressions::expression;
use crate::making::{Tree, node, push_tree};
use ls_java_lexer::fault::{JavaFault, Wanted};
use ls_java_parser_tokens::modifiers::{brackets, skip_closed};
use ls_java_parser_tokens::reader::{
    Part, Pending, Reader, at_sign, deeper, expect, expected, is_sign, next, peek_at, place, push,
    take_sign,
};
use ls_java_parser_tokens::types::{TYPE_LIMIT, arrays, item_type};
use ls_java_tree::expressions::{Expression, ExpressionKind};
use ls_java_tree::types::Type;
use ls_lexer::sign::Sign;
use std::alloc::AllocError;

/// A body in braces is put with those that are read later, and read over. The answer is its number.
pub fn later_body(reader: &mut Reader, of_class: bool) -> Result<usize, JavaFault>
    ensures { OnOk result (reader.new.left < reader.old.left) }
{
    let number = reader.bodies.len();
    let token = place(reader);
    skip_closed(reader, Sign::OpenBrace, Sign::CloseBrace)?;
    push(&mut reader.bodies, Pending { token, of_class })?;
    Ok(number)
}

/// What is around a list of expressions. In braces an expression may be a list again, and a comma may come last.
#[derive(Copy)]
pub enum Enclosing {
    Parentheses,
    Braces,
}

impl Clone for Enclosing {
    fn clone(&self) -> Result<Enclosing, AllocError> {
        Ok(*self)
    }
}

fn open_of(enclosing: Enclosing) -> Sign {
    match enclosing {
        Enclosing::Parentheses => Sign::OpenParen,
        Enclosing::Braces => Sign::OpenBrace,
    }
}

fn close_of(enclosing: Enclosing) -> Sign {
    match enclosing {
        Enclosing::Parentheses => Sign::CloseParen,
        Enclosing::Braces => Sign::CloseBrace,
    }
}

// Whether another expression comes after the one that is read. If so, the comma between them is read.
fn goes_on(reader: &mut Reader, enclosing: Enclosing) -> bool
    ensures { reader.new.left ≤ reader.old.left }
{
    let comma = take_sign(reader, Sign::Comma);
    let braced = matches!(&enclosing, Enclosing::Braces);
    comma && !(braced && at_sign(reader, Sign::CloseBrace))
}

/// Expressions with commas between them, and what is around them: arguments (JLS 15.12), or items of an array (JLS
/// 10.6).
#[cycle(expressions)]
pub(crate) fn list(
    reader: &mut Reader,
    limit: usize,
    enclosing: Enclosing,
) -> Result<Part<Vec<Expression>>, JavaFault>
    ensures { IfOk result (λ p. (p.height ≤ limit) × (reader.new.left < reader.old.left)) }
{
    let mut all = Part {
        tree: Vec::new(reader.alloc),
        height: 0,
    };
    expect(reader, open_of(enclosing))?;
    let mut more = !at_sign(reader, close_of(enclosing));
    while more {
        let one = if matches!(&enclosing, Enclosing::Braces) {
            initializer(reader, limit)?
        } else {
            expression(reader, limit)?
        };
        push_tree(&mut all, one)?;
        more = goes_on(reader, enclosing);
    }
    expect(reader, close_of(enclosing))?;
    Ok(all)
}

/// A new object or a new array.
#[cycle(expressions)]
pub(crate) fn creation(reader: &mut Reader, limit: usize) -> Result<Tree, JavaFault>
    requires { limit + 1 < 2 ^ 64 }
    ensures { IfOk result (λ p. (p.height ≤ limit + 1) × (reader.new.left < reader.old.left)) }
{
    let first = next(reader)?;
    let item = item_type(reader, TYPE_LIMIT)?;
    if at_sign(reader, Sign::OpenParen) {
        object(reader, limit, first, item)
    } else if !at_sign(reader, Sign::OpenBracket) {
        Err(expected(reader, Wanted::OpenParen))
    } else if is_sign(peek_at(reader, 1), Sign::CloseBracket) {
        let array = arrays(reader, TYPE_LIMIT, item)?;
        items(reader, limit, first, Some(array))
    } else {
        sized_array(reader, limit, first, item)
    }
}

// The arguments of a new object, and the body of an anonymous class, if there is one.
#[cycle(expressions)]
fn object(
    reader: &mut Reader,
    limit: usize,
    first: usize,
    class: Box<Type>,
) -> Result<Tree, JavaFault>
    requires { limit + 1 < 2 ^ 64 }
    ensures { IfOk result (λ p. (p.height ≤ limit + 1) × (reader.new.left < reader.old.left)) }
{
    let arguments = list(reader, limit, Enclosing::Parentheses)?;
    let body = anonymous_body(reader)?;
    let height = arguments.height + 1;
    let kind = ExpressionKind::New {
        class,
        arguments: arguments.tree,
        body,
    };
    node(reader, kind, first, height)
}

fn anonymous_body(reader: &mut Reader) -> Result<Option<usize>, JavaFault>
    ensures { IfOk result (λ _. reader.new.left ≤ reader.old.left) }
{
    if !at_sign(reader, Sign::OpenBrace) {
        return Ok(None);
    }
    let body = later_body(reader, true)?;
    Ok(Some(body))
}

// Whether the length of an array comes next.
fn at_length(reader: &Reader) -> bool {
    at_sign(reader, Sign::OpenBracket) && !is_sign(peek_at(reader, 1), Sign::CloseBracket)
}

// An array with lengths: `[length]` once or more, and then `[]` (JLS 15.10.1).
#[cycle(expressions)]
fn sized_array(
    reader: &mut Reader,
    limit: usize,
    first: usize,
    item: Box<Type>,
) -> Result<Tree, JavaFault>
    requires { limit + 1 < 2 ^ 64 }
    ensures { IfOk result (λ p. (p.height ≤ limit + 1) × (reader.new.left ≤ reader.old.left)) }
{
    let mut lengths = Part {
        tree: Vec::new(reader.alloc),
        height: 0,
    };
    while at_length(reader) {
        expect(reader, Sign::OpenBracket)?;
        let length = expression(reader, limit)?;
        expect(reader, Sign::CloseBracket)?;
        push_tree(&mut lengths, length)?;
    }
    let open = brackets(reader)?;
    let height = lengths.height + 1;
    let kind = ExpressionKind::NewArray {
        item,
        lengths: lengths.tree,
        open,
    };
    node(reader, kind, first, height)
}

/// The value that a variable or an element begins with: an expression, or items in braces.
#[cycle(expressions)]
pub fn initializer(reader: &mut Reader, limit: usize) -> Result<Tree, JavaFault>
    ensures { IfOk result (λ p. (p.height ≤ limit) × (reader.new.left < reader.old.left)) }
{
    if at_sign(reader, Sign::OpenBrace) {
        let inner = deeper(reader, limit)?;
        let first = place(reader);
        items(reader, inner, first, None)
    } else {
        expression(reader, limit)
    }
}

// Items in braces.
#[cycle(expressions)]
fn items(
    reader: &mut Reader,
    limit: usize,
    first: usize,
    array: Option<Box<Type>>,
) -> Result<Tree, JavaFault>
    requires { limit + 1 < 2 ^ 64 }
    ensures { IfOk result (λ p. (p.height ≤ limit + 1) × (reader.new.left < reader.old.left)) }
{
    let items = list(reader, limit, Enclosing::Braces)?;
    let height = items.height + 1;
    let kind = ExpressionKind::Items {
        array,
        items: items.tree,
    };
    node(reader, kind, first, height)
}
