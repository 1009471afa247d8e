// The heads of classes (JLS 8.1, 8.9, 9.1), and the constants of enums.

ghost use Rattle.std.specs.Prelude.{◌<◌, ◌≤◌, IfOk, OnOk};

use ls_java_lexer::fault::{Form, JavaFault, Wanted};
use ls_java_lexer::token::TokenKind;
use ls_java_parser_statements::joining::beside;
use ls_java_parser_tokens::reader::{
    Reader, at_sign, expect, expected, is_name, is_word, name, next, peek, peek_at, push,
    take_sign, unread,
};
use ls_java_parser_tokens::types::{type_parameters, types_after};
use ls_java_tree::declarations::{Head, Sort};
use ls_java_tree::names::{Modifier, Name};
use ls_java_tree::types::{Type, TypeParameter};
use ls_lexer::sign::Sign;
use ls_lexer::word::Word;

fn sort_of(kind: TokenKind) -> Option<Sort> {
    match kind {
        TokenKind::Word(Word::Class) => Some(Sort::Class),
        TokenKind::Word(Word::Interface) => Some(Sort::Interface),
        TokenKind::Word(Word::Enum) => Some(Sort::Enum),
        _ => None,
    }
}

fn sort(reader: &mut Reader) -> Result<Sort, JavaFault>
    ensures { IfOk result (λ _. reader.new.left < reader.old.left) }
{
    if at_sign(reader, Sign::At) && is_word(peek_at(reader, 1), Word::Interface) {
        return Err(unread(reader, Form::AnnotationType));
    }
    match sort_of(peek(reader)) {
        Some(sort) => {
            next(reader)?;
            Ok(sort)
        }
        None => Err(expected(reader, Wanted::Declaration)),
    }
}

// `class`, `interface` or `enum`, and the name.
fn sorted_name(reader: &mut Reader) -> Result<(Sort, Name), JavaFault>
    ensures { IfOk result (λ _. reader.new.left < reader.old.left) }
{
    let sort = sort(reader)?;
    let name = name(reader)?;
    Ok((sort, name))
}

// The types that a class extends and implements.
fn types_above(reader: &mut Reader) -> Result<(Vec<Type>, Vec<Type>), JavaFault>
    ensures { IfOk result (λ _. reader.new.left ≤ reader.old.left) }
{
    let extends = types_after(reader, Word::Extends, Sign::Comma)?;
    beside(extends, types_after(reader, Word::Implements, Sign::Comma))
}

// What comes behind the name of a class.
#[derive(Drop)]
struct TypesBehind {
    parameters: Vec<TypeParameter>,
    extends: Vec<Type>,
    implements: Vec<Type>,
}

fn read_types_behind(reader: &mut Reader) -> Result<TypesBehind, JavaFault>
    ensures { IfOk result (λ _. reader.new.left ≤ reader.old.left) }
{
    let parameters = type_parameters(reader)?;
    let (parameters, (extends, implements)) = beside(parameters, types_above(reader))?;
    Ok(TypesBehind {
        parameters,
        extends,
        implements,
    })
}

// The head of a class behind its modifiers.
fn bare_head(reader: &mut Reader) -> Result<((Sort, Name), TypesBehind), JavaFault>
    ensures { IfOk result (λ _. reader.new.left < reader.old.left) }
{
    let name = sorted_name(reader)?;
    beside(name, read_types_behind(reader))
}

/// The head of a class, behind its modifiers (JLS 8.1, 8.9, 9.1).
pub fn head(reader: &mut Reader, modifiers: Vec<Modifier>) -> Result<Head, JavaFault>
    ensures { IfOk result (λ _. reader.new.left < reader.old.left) }
{
    let (modifiers, ((sort, name), found)) = beside(modifiers, bare_head(reader))?;
    let TypesBehind {
        parameters,
        extends,
        implements,
    } = found;
    Ok(Head {
        modifiers,
        sort,
        name,
        parameters,
        extends,
        implements,
    })
}

// One more constant of an enum.
fn push_constant(reader: &mut Reader, all: &mut Vec<Name>) -> Result<(), JavaFault>
    ensures { OnOk result (reader.new.left < reader.old.left) }
{
    let one = name(reader)?;
    push(all, one)?;
    Ok(())
}

// What ends the constants of an enum. It has no members.
fn end_constants(reader: &mut Reader) -> Result<(), JavaFault>
    ensures { OnOk result (reader.new.left < reader.old.left) }
{
    let _ended = take_sign(reader, Sign::Semicolon);
    if !at_sign(reader, Sign::CloseBrace) {
        return Err(unread(reader, Form::EnumMember));
    }
    expect(reader, Sign::CloseBrace)?;
    Ok(())
}

// The constants of an enum, and the braces around them.
fn constants_in_braces(reader: &mut Reader, all: &mut Vec<Name>) -> Result<(), JavaFault>
    ensures { OnOk result (reader.new.left < reader.old.left) }
{
    expect(reader, Sign::OpenBrace)?;
    while is_name(peek(reader)) {
        push_constant(reader, all)?;
        if !take_sign(reader, Sign::Comma) {
            break;
        }
    }
    end_constants(reader)
}

/// The constants of an enum (JLS 8.9.1), and the braces around them.
pub fn constants(reader: &mut Reader) -> Result<Vec<Name>, JavaFault>
    ensures { IfOk result (λ _. reader.new.left < reader.old.left) }
{
    let mut all = Vec::new(reader.alloc);
    let read = constants_in_braces(reader, &mut all);
    let (all, _) = beside(all, read)?;
    Ok(all)
}
