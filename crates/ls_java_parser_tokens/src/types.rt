// Types (JLS 4).

ghost use Rattle.std.specs.Prelude.{◌<◌, ◌≤◌, IfOk};

use crate::ahead::primitive_of;
use crate::reader::{
    Reader, at_sign, at_word, deeper, expect, expected, in_box, is_name, is_sign, name, next, peek,
    peek_at, place, push, span_from, take_sign, take_word,
};
use ls_java_lexer::fault::{JavaFault, Wanted};
use ls_java_tree::types::{Bounding, ClassType, Type, TypeKind, TypeParameter, WildcardBound};
use ls_lexer::sign::Sign;
use ls_lexer::word::Word;
use std::alloc::AllocError;

/// The greatest height of a type, in nodes.
pub const TYPE_LIMIT: usize = 32;

// A type of this kind, from a token to the last one that is read.
fn made(reader: &Reader, kind: TypeKind, first: usize) -> Result<Box<Type>, AllocError> {
    let span = span_from(reader, first);
    in_box(reader.alloc, Type { kind, span })
}

/// A type (JLS 4.1) of at most so many nodes from top to bottom.
#[cycle(types)]
pub fn type_name(reader: &mut Reader, limit: usize) -> Result<Box<Type>, JavaFault>
    ensures { IfOk result (λ _. reader.new.left < reader.old.left) }
{
    let item = item_type(reader, limit)?;
    arrays(reader, limit, item)
}

/// A type without `[]` after it.
#[cycle(types)]
pub fn item_type(reader: &mut Reader, limit: usize) -> Result<Box<Type>, JavaFault>
    ensures { IfOk result (λ _. reader.new.left < reader.old.left) }
{
    let start = place(reader);
    match primitive_of(peek(reader)) {
        Some(primitive) => {
            next(reader)?;
            Ok(made(reader, TypeKind::Primitive(primitive), start)?)
        }
        None => class_type(reader, limit),
    }
}

/// The pairs of brackets after a type.
pub fn arrays(reader: &mut Reader, limit: usize, item: Box<Type>) -> Result<Box<Type>, JavaFault>
    ensures { IfOk result (λ _. reader.new.left ≤ reader.old.left) }
{
    let start = item.span.first;
    let mut made_type = item;
    let mut room = limit;
    while at_sign(reader, Sign::OpenBracket) && is_sign(peek_at(reader, 1), Sign::CloseBracket) {
        room = deeper(reader, room)?;
        expect(reader, Sign::OpenBracket)?;
        expect(reader, Sign::CloseBracket)?;
        made_type = made(reader, TypeKind::Array(made_type), start)?;
    }
    Ok(made_type)
}

// The name of a class, with the names of classes around it and lists of types.
#[cycle(types)]
fn class_type(reader: &mut Reader, limit: usize) -> Result<Box<Type>, JavaFault>
    ensures { IfOk result (λ _. reader.new.left < reader.old.left) }
{
    let start = place(reader);
    let mut room = deeper(reader, limit)?;
    let mut class = class_part(reader, room, start, None)?;
    while at_sign(reader, Sign::Dot) && is_name(peek_at(reader, 1)) {
        room = deeper(reader, room)?;
        expect(reader, Sign::Dot)?;
        class = class_part(reader, room, start, Some(class))?;
    }
    Ok(class)
}

// One name of a class and its list of types, if it has one.
#[cycle(types)]
fn class_part(
    reader: &mut Reader,
    limit: usize,
    start: usize,
    outer: Option<Box<Type>>,
) -> Result<Box<Type>, JavaFault>
    ensures { IfOk result (λ _. reader.new.left < reader.old.left) }
{
    if !is_name(peek(reader)) {
        return Err(expected(reader, Wanted::Type));
    }
    let name = name(reader)?;
    let arguments = maybe_arguments(reader, limit)?;
    let class = ClassType {
        outer,
        name,
        arguments,
    };
    Ok(made(reader, TypeKind::Class(class), start)?)
}

#[cycle(types)]
fn maybe_arguments(reader: &mut Reader, limit: usize) -> Result<Option<Vec<Type>>, JavaFault>
    ensures { IfOk result (λ _. reader.new.left ≤ reader.old.left) }
{
    if !at_sign(reader, Sign::Less) {
        return Ok(None);
    }
    let all = type_arguments(reader, limit)?;
    Ok(Some(all))
}

/// A list of types between `<` and `>` (JLS 4.5.1), which may be empty.
#[cycle(types)]
pub fn type_arguments(reader: &mut Reader, limit: usize) -> Result<Vec<Type>, JavaFault>
    ensures { IfOk result (λ _. reader.new.left < reader.old.left) }
{
    let mut all = Vec::new(reader.alloc);
    expect(reader, Sign::Less)?;
    if take_sign(reader, Sign::Greater) {
        return Ok(all);
    }
    let first = type_argument(reader, limit)?;
    push(&mut all, Box::into_inner(first))?;
    while take_sign(reader, Sign::Comma) {
        let argument = type_argument(reader, limit)?;
        push(&mut all, Box::into_inner(argument))?;
    }
    expect(reader, Sign::Greater)?;
    Ok(all)
}

// A type, or a wildcard.
#[cycle(types)]
fn type_argument(reader: &mut Reader, limit: usize) -> Result<Box<Type>, JavaFault>
    ensures { IfOk result (λ _. reader.new.left < reader.old.left) }
{
    let inner = deeper(reader, limit)?;
    if !at_sign(reader, Sign::Question) {
        return type_name(reader, inner);
    }
    let start = next(reader)?;
    if at_word(reader, Word::Extends) {
        bounded(reader, inner, start, Bounding::Extends)
    } else if at_word(reader, Word::Super) {
        bounded(reader, inner, start, Bounding::Super)
    } else {
        Ok(made(reader, TypeKind::Wildcard(None), start)?)
    }
}

// The bound of a wildcard, from its word on.
#[cycle(types)]
fn bounded(
    reader: &mut Reader,
    limit: usize,
    start: usize,
    bounding: Bounding,
) -> Result<Box<Type>, JavaFault>
    ensures { IfOk result (λ _. reader.new.left < reader.old.left) }
{
    next(reader)?;
    let bound = type_name(reader, limit)?;
    let wildcard = WildcardBound { bounding, bound };
    Ok(made(reader, TypeKind::Wildcard(Some(wildcard)), start)?)
}

/// A type of the greatest height that types may have.
pub fn whole_type(reader: &mut Reader) -> Result<Type, JavaFault>
    ensures { IfOk result (λ _. reader.new.left < reader.old.left) }
{
    let found = type_name(reader, TYPE_LIMIT)?;
    Ok(Box::into_inner(found))
}

/// Types with this sign between them.
pub fn types_between(reader: &mut Reader, between: Sign) -> Result<Vec<Type>, JavaFault>
    ensures { IfOk result (λ _. reader.new.left < reader.old.left) }
{
    let mut all = Vec::new(reader.alloc);
    let first = whole_type(reader)?;
    push(&mut all, first)?;
    while take_sign(reader, between) {
        let more = whole_type(reader)?;
        push(&mut all, more)?;
    }
    Ok(all)
}

/// The types after a reserved word, if that comes next, with this sign between them.
pub fn types_after(reader: &mut Reader, word: Word, between: Sign) -> Result<Vec<Type>, JavaFault>
    ensures { IfOk result (λ _. reader.new.left ≤ reader.old.left) }
{
    if take_word(reader, word) {
        types_between(reader, between)
    } else {
        Ok(Vec::new(reader.alloc))
    }
}

fn type_parameter(reader: &mut Reader) -> Result<TypeParameter, JavaFault>
    ensures { IfOk result (λ _. reader.new.left < reader.old.left) }
{
    let start = place(reader);
    let name = name(reader)?;
    let bounds = types_after(reader, Word::Extends, Sign::BitAnd)?;
    let span = span_from(reader, start);
    Ok(TypeParameter { name, bounds, span })
}

/// The type parameters of a class or a method (JLS 8.1.2), or none.
pub fn type_parameters(reader: &mut Reader) -> Result<Vec<TypeParameter>, JavaFault>
    ensures { IfOk result (λ _. reader.new.left ≤ reader.old.left) }
{
    let mut all = Vec::new(reader.alloc);
    if !take_sign(reader, Sign::Less) {
        return Ok(all);
    }
    let first = type_parameter(reader)?;
    push(&mut all, first)?;
    while take_sign(reader, Sign::Comma) {
        let more = type_parameter(reader)?;
        push(&mut all, more)?;
    }
    expect(reader, Sign::Greater)?;
    Ok(all)
}
