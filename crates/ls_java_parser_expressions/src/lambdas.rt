// Lambdas (JLS 15.27), and the parameters of methods, constructors and lambdas.

ghost use Rattle.std.specs.Prelude.{◌≡◌, ◌+◌, ◌<◌, ◌≤◌, IfOk, OnOk};

use crate::creations::later_body;
use crate::expressions::expression;
use crate::making::{Tree, node};
use ls_java_lexer::fault::{Form, JavaFault};
use ls_java_parser_tokens::modifiers::modifiers;
use ls_java_parser_tokens::reader::{
    Reader, at_sign, deeper, expect, in_box, is_name, is_sign, name, peek, peek_at, place, push,
    span_from, take_sign, unread,
};
use ls_java_parser_tokens::types::{TYPE_LIMIT, arrays, whole_type};
use ls_java_tree::expressions::{ExpressionKind, LambdaBody, Parameter};
use ls_java_tree::types::Type;
use ls_lexer::sign::Sign;

// A parameter without a type.
fn bare_parameter(reader: &mut Reader) -> Result<Parameter, JavaFault>
    ensures { IfOk result (λ _. reader.new.left < reader.old.left) }
{
    let first = place(reader);
    let name = name(reader)?;
    Ok(Parameter {
        modifiers: Vec::new(reader.alloc),
        type_name: None,
        name,
        span: span_from(reader, first),
    })
}

/// A parameter with its type (JLS 8.4.1). `[]` after its name belong to its type (JLS 10.2).
pub fn parameter(reader: &mut Reader) -> Result<Parameter, JavaFault>
    ensures { IfOk result (λ _. reader.new.left < reader.old.left) }
{
    let first = place(reader);
    let modifiers = modifiers(reader)?;
    let item = whole_type(reader)?;
    if at_sign(reader, Sign::Ellipsis) {
        return Err(unread(reader, Form::Ellipsis));
    }
    let name = name(reader)?;
    let type_name = with_brackets(reader, item)?;
    let span = span_from(reader, first);
    Ok(Parameter {
        modifiers,
        type_name: Some(type_name),
        name,
        span,
    })
}

// A type with the brackets that come after the name.
fn with_brackets(reader: &mut Reader, item: Type) -> Result<Type, JavaFault>
    ensures { IfOk result (λ _. reader.new.left ≤ reader.old.left) }
{
    let item = in_box(reader.alloc, item)?;
    let found = arrays(reader, TYPE_LIMIT, item)?;
    Ok(Box::into_inner(found))
}

// Whether a parameter without a type comes next.
fn at_bare(reader: &Reader) -> bool {
    let after = peek_at(reader, 1);
    is_name(peek(reader)) && (is_sign(after, Sign::Comma) || is_sign(after, Sign::CloseParen))
}

fn either_parameter(reader: &mut Reader, bare: bool) -> Result<Parameter, JavaFault>
    ensures { IfOk result (λ _. reader.new.left < reader.old.left) }
{
    if bare && at_bare(reader) {
        bare_parameter(reader)
    } else {
        parameter(reader)
    }
}

/// Parameters in parentheses. If `bare`, as those of a lambda, they may have no types.
pub fn parameters(reader: &mut Reader, bare: bool) -> Result<Vec<Parameter>, JavaFault>
    ensures { IfOk result (λ _. reader.new.left < reader.old.left) }
{
    let mut all = Vec::new(reader.alloc);
    expect(reader, Sign::OpenParen)?;
    if take_sign(reader, Sign::CloseParen) {
        return Ok(all);
    }
    let first = either_parameter(reader, bare)?;
    push(&mut all, first)?;
    while take_sign(reader, Sign::Comma) {
        let one = either_parameter(reader, bare)?;
        push(&mut all, one)?;
    }
    expect(reader, Sign::CloseParen)?;
    Ok(all)
}

// The parameters of a lambda: one name, or what is in parentheses.
fn lambda_parameters(reader: &mut Reader) -> Result<Vec<Parameter>, JavaFault>
    ensures { IfOk result (λ _. reader.new.left < reader.old.left) }
{
    if at_sign(reader, Sign::OpenParen) {
        return parameters(reader, true);
    }
    let mut all = Vec::new(reader.alloc);
    let one = bare_parameter(reader)?;
    push(&mut all, one)?;
    Ok(all)
}

// A block as the body of a lambda. It is read later.
fn block_lambda(
    reader: &mut Reader,
    parameters: Vec<Parameter>,
    first: usize,
) -> Result<Tree, JavaFault>
    ensures { IfOk result (λ p. (p.height ≡ 1) × (reader.new.left < reader.old.left)) }
{
    let number = later_body(reader, false)?;
    let kind = ExpressionKind::Lambda {
        parameters,
        body: LambdaBody::Block(number),
    };
    node(reader, kind, first, 1)
}

/// A lambda.
#[cycle(expressions)]
pub(crate) fn lambda(reader: &mut Reader, limit: usize) -> Result<Tree, JavaFault>
    ensures { IfOk result (λ p. (p.height ≤ limit) × (reader.new.left < reader.old.left)) }
{
    let inner = deeper(reader, limit)?;
    let first = place(reader);
    let parameters = lambda_parameters(reader)?;
    expect(reader, Sign::Arrow)?;
    if at_sign(reader, Sign::OpenBrace) {
        return block_lambda(reader, parameters, first);
    }
    let value = expression(reader, inner)?;
    let height = value.height + 1;
    let kind = ExpressionKind::Lambda {
        parameters,
        body: LambdaBody::Expression(value.tree),
    };
    node(reader, kind, first, height)
}
