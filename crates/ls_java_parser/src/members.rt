// Classes and their members (JLS 8, 9).

ghost use Rattle.std.specs.Prelude.{◌<◌, ◌≤◌, IfOk, OnOk};

use crate::heads::{constants, head};
use ls_java_lexer::fault::JavaFault;
use ls_java_parser_expressions::expressions::{EXPRESSION_LIMIT, expression};
use ls_java_parser_expressions::lambdas::parameters;
use ls_java_parser_statements::joining::beside;
use ls_java_parser_statements::simple::declarators;
use ls_java_parser_statements::statements::{STATEMENT_LIMIT, at_class, block};
use ls_java_parser_tokens::modifiers::modifiers;
use ls_java_parser_tokens::reader::{
    Reader, at_sign, at_word, deeper, expect, in_box, is_name, is_sign, name, next, peek, peek_at,
    place, push, span_from, take_sign, take_word,
};
use ls_java_parser_tokens::types::{TYPE_LIMIT, arrays, type_parameters, types_after, whole_type};
use ls_java_tree::declarations::{
    Constructor, Head, Initializer, Member, Method, Sort, TypeDeclaration,
};
use ls_java_tree::expressions::Parameter;
use ls_java_tree::names::{Modifier, Name};
use ls_java_tree::statements::{Block, Declaration, Declarator};
use ls_java_tree::types::{Type, TypeKind, TypeParameter};
use ls_lexer::sign::Sign;
use ls_lexer::word::Word;

/// How deeply classes may stand in one another.
pub const CLASS_LIMIT: usize = 16;

// What a member begins with: its first token, its modifiers and its type parameters.
#[derive(Drop)]
struct Start {
    first: usize,
    modifiers: Vec<Modifier>,
    type_parameters: Vec<TypeParameter>,
}

// What a method or a constructor throws (JLS 8.4.6).
fn throws(reader: &mut Reader) -> Result<Vec<Type>, JavaFault>
    ensures { IfOk result (λ _. reader.new.left ≤ reader.old.left) }
{
    types_after(reader, Word::Throws, Sign::Comma)
}

// The body of a method, or `;`. A default value of an annotation's element is read over.
fn maybe_body(reader: &mut Reader) -> Result<Option<Block>, JavaFault>
    ensures { IfOk result (λ _. reader.new.left < reader.old.left) }
{
    if at_sign(reader, Sign::OpenBrace) {
        let body = block(reader, STATEMENT_LIMIT)?;
        return Ok(Some(body));
    }
    if take_word(reader, Word::Default) {
        let _value = expression(reader, EXPRESSION_LIMIT)?;
    }
    expect(reader, Sign::Semicolon)?;
    Ok(None)
}

// `void`, as the result of a method.
fn void_type(reader: &mut Reader) -> Result<Type, JavaFault>
    ensures { IfOk result (λ _. reader.new.left < reader.old.left) }
{
    let first = next(reader)?;
    Ok(Type {
        kind: TypeKind::Void,
        span: span_from(reader, first),
    })
}

fn result_type(reader: &mut Reader) -> Result<Type, JavaFault>
    ensures { IfOk result (λ _. reader.new.left < reader.old.left) }
{
    if at_word(reader, Word::Void) {
        void_type(reader)
    } else {
        whole_type(reader)
    }
}

// The result of a method, with the `[]` behind its parameters.
fn result_arrays(reader: &mut Reader, answer: Type) -> Result<Box<Type>, JavaFault>
    ensures { IfOk result (λ _. reader.new.left ≤ reader.old.left) }
{
    let answer = in_box(reader.alloc, answer)?;
    arrays(reader, TYPE_LIMIT, answer)
}

// The parameters of a method, and its result.
fn method_types(reader: &mut Reader, answer: Type) -> Result<(Vec<Parameter>, Box<Type>), JavaFault>
    ensures { IfOk result (λ _. reader.new.left < reader.old.left) }
{
    let (answer, parameters) = beside(answer, parameters(reader, false))?;
    beside(parameters, result_arrays(reader, answer))
}

// What a method throws, and its body.
fn method_end(reader: &mut Reader) -> Result<(Vec<Type>, Option<Block>), JavaFault>
    ensures { IfOk result (λ _. reader.new.left < reader.old.left) }
{
    let throws = throws(reader)?;
    beside(throws, maybe_body(reader))
}

// A method behind its name.
#[derive(Drop)]
struct MethodRest {
    parameters: Vec<Parameter>,
    answer: Box<Type>,
    throws: Vec<Type>,
    body: Option<Block>,
}

fn method_rest(reader: &mut Reader, answer: Type) -> Result<MethodRest, JavaFault>
    ensures { IfOk result (λ _. reader.new.left < reader.old.left) }
{
    let types = method_types(reader, answer)?;
    let ((parameters, answer), (throws, body)) = beside(types, method_end(reader))?;
    Ok(MethodRest {
        parameters,
        answer,
        throws,
        body,
    })
}

// A method, of which its name and all before it are read (JLS 8.4).
fn method(reader: &mut Reader, start: Start, answer: Type, name: Name) -> Result<Member, JavaFault>
    ensures { IfOk result (λ _. reader.new.left < reader.old.left) }
{
    let ((start, name), rest) = beside((start, name), method_rest(reader, answer))?;
    let span = span_from(reader, start.first);
    let Start {
        first: _,
        modifiers,
        type_parameters,
    } = start;
    let MethodRest {
        parameters,
        answer,
        throws,
        body,
    } = rest;
    Ok(Member::Method(Method {
        modifiers,
        type_parameters,
        result: Box::into_inner(answer),
        name,
        parameters,
        throws,
        body,
        span,
    }))
}

// What a constructor throws, and its body.
fn constructor_end(reader: &mut Reader) -> Result<(Vec<Type>, Block), JavaFault>
    ensures { IfOk result (λ _. reader.new.left < reader.old.left) }
{
    let throws = throws(reader)?;
    beside(throws, block(reader, STATEMENT_LIMIT))
}

// A constructor behind its modifiers and type parameters.
#[derive(Drop)]
struct ConstructorRest {
    name: Name,
    parameters: Vec<Parameter>,
    throws: Vec<Type>,
    body: Block,
}

// A constructor behind its name.
fn constructor_body(reader: &mut Reader) -> Result<(Vec<Parameter>, (Vec<Type>, Block)), JavaFault>
    ensures { IfOk result (λ _. reader.new.left < reader.old.left) }
{
    let parameters = parameters(reader, false)?;
    beside(parameters, constructor_end(reader))
}

fn constructor_rest(reader: &mut Reader) -> Result<ConstructorRest, JavaFault>
    ensures { IfOk result (λ _. reader.new.left < reader.old.left) }
{
    let name = name(reader)?;
    let (name, (parameters, (throws, body))) = beside(name, constructor_body(reader))?;
    Ok(ConstructorRest {
        name,
        parameters,
        throws,
        body,
    })
}

// A constructor, behind its modifiers and type parameters (JLS 8.8).
fn constructor(reader: &mut Reader, start: Start) -> Result<Member, JavaFault>
    ensures { IfOk result (λ _. reader.new.left < reader.old.left) }
{
    let (start, rest) = beside(start, constructor_rest(reader))?;
    let span = span_from(reader, start.first);
    let Start {
        first: _,
        modifiers,
        type_parameters,
    } = start;
    let ConstructorRest {
        name,
        parameters,
        throws,
        body,
    } = rest;
    Ok(Member::Constructor(Constructor {
        modifiers,
        type_parameters,
        name,
        parameters,
        throws,
        body,
        span,
    }))
}

// The declared names of fields, and the `;`.
fn field_names(reader: &mut Reader, name: Name) -> Result<Vec<Declarator>, JavaFault>
    ensures { IfOk result (λ _. reader.new.left < reader.old.left) }
{
    let declarators = declarators(reader, name)?;
    let (declarators, _) = beside(declarators, expect(reader, Sign::Semicolon))?;
    Ok(declarators)
}

// Fields, of which the first name and all before it are read (JLS 8.3).
fn fields(
    reader: &mut Reader,
    start: Start,
    type_name: Type,
    name: Name,
) -> Result<Member, JavaFault>
    ensures { IfOk result (λ _. reader.new.left < reader.old.left) }
{
    let held = (start, type_name);
    let ((start, type_name), declarators) = beside(held, field_names(reader, name))?;
    let span = span_from(reader, start.first);
    let Start {
        first: _,
        modifiers,
        type_parameters: _,
    } = start;
    Ok(Member::Field(Declaration {
        modifiers,
        type_name,
        declarators,
        span,
    }))
}

// A type, and the first name behind it.
fn typed_name(reader: &mut Reader) -> Result<(Type, Name), JavaFault>
    ensures { IfOk result (λ _. reader.new.left < reader.old.left) }
{
    let type_name = result_type(reader)?;
    beside(type_name, name(reader))
}

// A method or fields, behind modifiers and type parameters.
fn method_or_fields(reader: &mut Reader, start: Start) -> Result<Member, JavaFault>
    ensures { IfOk result (λ _. reader.new.left < reader.old.left) }
{
    let (start, (type_name, name)) = beside(start, typed_name(reader))?;
    if at_sign(reader, Sign::OpenParen) {
        method(reader, start, type_name, name)
    } else {
        fields(reader, start, type_name, name)
    }
}

// A constructor, a method or fields, behind the modifiers. `(` comes after the name of a constructor.
fn typed_member(
    reader: &mut Reader,
    first: usize,
    modifiers: Vec<Modifier>,
) -> Result<Member, JavaFault>
    ensures { IfOk result (λ _. reader.new.left < reader.old.left) }
{
    let (modifiers, type_parameters) = beside(modifiers, type_parameters(reader))?;
    let start = Start {
        first,
        modifiers,
        type_parameters,
    };
    if is_name(peek(reader)) && is_sign(peek_at(reader, 1), Sign::OpenParen) {
        constructor(reader, start)
    } else {
        method_or_fields(reader, start)
    }
}

// An initialiser (JLS 8.6, 8.7).
fn initializer(reader: &mut Reader) -> Result<Member, JavaFault>
    ensures { IfOk result (λ _. reader.new.left < reader.old.left) }
{
    let first = place(reader);
    let of_static = take_word(reader, Word::Static);
    let body = block(reader, STATEMENT_LIMIT)?;
    let span = span_from(reader, first);
    Ok(Member::Initializer(Initializer {
        of_static,
        body,
        span,
    }))
}

// Whether an initialiser comes next.
fn at_initializer(reader: &Reader) -> bool {
    at_sign(reader, Sign::OpenBrace)
        || (at_word(reader, Word::Static) && is_sign(peek_at(reader, 1), Sign::OpenBrace))
}

// Whether a class, an interface, an enum or an annotation type comes next, behind its modifiers.
fn at_type(reader: &Reader) -> bool {
    at_class(reader) || at_sign(reader, Sign::At)
}

#[cycle(members)]
fn member(reader: &mut Reader, limit: usize) -> Result<Member, JavaFault>
    ensures { IfOk result (λ _. reader.new.left < reader.old.left) }
{
    if at_initializer(reader) {
        return initializer(reader);
    }
    let first = place(reader);
    let modifiers = modifiers(reader)?;
    if at_type(reader) {
        inner_type(reader, limit, first, modifiers)
    } else {
        typed_member(reader, first, modifiers)
    }
}

#[cycle(members)]
fn inner_type(
    reader: &mut Reader,
    limit: usize,
    first: usize,
    modifiers: Vec<Modifier>,
) -> Result<Member, JavaFault>
    ensures { IfOk result (λ _. reader.new.left < reader.old.left) }
{
    let inner = deeper(reader, limit)?;
    let found = type_declaration(reader, inner, first, modifiers)?;
    Ok(Member::Type(found))
}

// One more member, or a `;` alone, which is none.
#[cycle(members)]
fn push_member(reader: &mut Reader, limit: usize, all: &mut Vec<Member>) -> Result<(), JavaFault>
    ensures { OnOk result (reader.new.left < reader.old.left) }
{
    if take_sign(reader, Sign::Semicolon) {
        return Ok(());
    }
    let one = member(reader, limit)?;
    push(all, one)?;
    Ok(())
}

// Members, and the braces around them.
#[cycle(members)]
fn members_in_braces(
    reader: &mut Reader,
    limit: usize,
    all: &mut Vec<Member>,
) -> Result<(), JavaFault>
    ensures { OnOk result (reader.new.left < reader.old.left) }
{
    expect(reader, Sign::OpenBrace)?;
    while !at_sign(reader, Sign::CloseBrace) {
        push_member(reader, limit, all)?;
    }
    expect(reader, Sign::CloseBrace)?;
    Ok(())
}

/// The members of a class in braces (JLS 8.1.6).
#[cycle(members)]
pub fn class_body(reader: &mut Reader, limit: usize) -> Result<Vec<Member>, JavaFault>
    ensures { IfOk result (λ _. reader.new.left < reader.old.left) }
{
    let mut all = Vec::new(reader.alloc);
    let read = members_in_braces(reader, limit, &mut all);
    let (all, _) = beside(all, read)?;
    Ok(all)
}

/// A class, an interface or an enum, behind its modifiers, of which `first` is the first token.
#[cycle(members)]
pub fn type_declaration(
    reader: &mut Reader,
    limit: usize,
    first: usize,
    modifiers: Vec<Modifier>,
) -> Result<TypeDeclaration, JavaFault>
    ensures { IfOk result (λ _. reader.new.left < reader.old.left) }
{
    let head = head(reader, modifiers)?;
    if matches!(&head.sort, Sort::Enum) {
        return enum_declaration(reader, first, head);
    }
    let (head, members) = beside(head, class_body(reader, limit))?;
    Ok(TypeDeclaration {
        head,
        constants: Vec::new(reader.alloc),
        members,
        span: span_from(reader, first),
    })
}

fn enum_declaration(
    reader: &mut Reader,
    first: usize,
    head: Head,
) -> Result<TypeDeclaration, JavaFault>
    ensures { IfOk result (λ _. reader.new.left < reader.old.left) }
{
    let (head, constants) = beside(head, constants(reader))?;
    Ok(TypeDeclaration {
        head,
        constants,
        members: Vec::new(reader.alloc),
        span: span_from(reader, first),
    })
}
