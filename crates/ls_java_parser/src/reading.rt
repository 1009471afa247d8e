// A Java file as a tree.

ghost use Rattle.std.specs.Prelude.{◌<◌, ◌≤◌, IfOk, OnOk};

use crate::members::{CLASS_LIMIT, class_body, type_declaration};
use ls_java_lexer::fault::JavaFault;
use ls_java_lexer::lexing::lex_java;
use ls_java_lexer::token::{Token, TokenKind};
use ls_java_parser_statements::joining::beside;
use ls_java_parser_statements::statements::{STATEMENT_LIMIT, block};
use ls_java_parser_tokens::modifiers::{modifiers, path};
use ls_java_parser_tokens::reader::{
    Pending, Reader, expect, peek, place, push, take_sign, take_word,
};
use ls_java_tree::declarations::{Body, File, Import, TypeDeclaration};
use ls_java_tree::names::Path;
use ls_lexer::sign::Sign;
use ls_lexer::word::Word;
use std::alloc::Global;

// The end of an import. The answer says whether it is `.*`.
fn import_end(reader: &mut Reader) -> Result<bool, JavaFault>
    ensures { OnOk result (reader.new.left < reader.old.left) }
{
    let all = take_sign(reader, Sign::Dot);
    if all {
        expect(reader, Sign::Star)?;
    }
    expect(reader, Sign::Semicolon)?;
    Ok(all)
}

// An import, behind its word (JLS 7.5).
fn import(reader: &mut Reader) -> Result<Import, JavaFault>
    ensures { IfOk result (λ _. reader.new.left < reader.old.left) }
{
    let of_static = take_word(reader, Word::Static);
    let path = path(reader)?;
    let (path, all) = beside(path, import_end(reader))?;
    Ok(Import {
        of_static,
        path,
        all,
    })
}

// One more import.
fn push_import(reader: &mut Reader, all: &mut Vec<Import>) -> Result<(), JavaFault>
    ensures { OnOk result (reader.new.left < reader.old.left) }
{
    let one = import(reader)?;
    push(all, one)?;
    Ok(())
}

fn all_imports(reader: &mut Reader, all: &mut Vec<Import>) -> Result<(), JavaFault>
    ensures { OnOk result (reader.new.left ≤ reader.old.left) }
{
    while take_word(reader, Word::Import) {
        push_import(reader, all)?;
    }
    Ok(())
}

fn imports(reader: &mut Reader) -> Result<Vec<Import>, JavaFault>
    ensures { IfOk result (λ _. reader.new.left ≤ reader.old.left) }
{
    let mut all = Vec::new(reader.alloc);
    let read = all_imports(reader, &mut all);
    let (all, _) = beside(all, read)?;
    Ok(all)
}

// The package of the file, if it names one (JLS 7.4.1).
fn package(reader: &mut Reader) -> Result<Option<Path>, JavaFault>
    ensures { IfOk result (λ _. reader.new.left ≤ reader.old.left) }
{
    if !take_word(reader, Word::Package) {
        return Ok(None);
    }
    let found = path(reader)?;
    let (found, _) = beside(found, expect(reader, Sign::Semicolon))?;
    Ok(Some(found))
}

fn one_type(reader: &mut Reader) -> Result<TypeDeclaration, JavaFault>
    ensures { IfOk result (λ _. reader.new.left < reader.old.left) }
{
    let first = place(reader);
    let modifiers = modifiers(reader)?;
    type_declaration(reader, CLASS_LIMIT, first, modifiers)
}

// One more class, or a `;` alone, which is none.
fn push_type(reader: &mut Reader, all: &mut Vec<TypeDeclaration>) -> Result<(), JavaFault>
    ensures { OnOk result (reader.new.left < reader.old.left) }
{
    if take_sign(reader, Sign::Semicolon) {
        return Ok(());
    }
    let one = one_type(reader)?;
    push(all, one)?;
    Ok(())
}

fn all_types(reader: &mut Reader, all: &mut Vec<TypeDeclaration>) -> Result<(), JavaFault> {
    while !matches!(&peek(reader), TokenKind::End) {
        push_type(reader, all)?;
    }
    Ok(())
}

// The classes of the file up to its end.
fn types(reader: &mut Reader) -> Result<Vec<TypeDeclaration>, JavaFault> {
    let mut all = Vec::new(reader.alloc);
    let read = all_types(reader, &mut all);
    let (all, _) = beside(all, read)?;
    Ok(all)
}

// A body that was left for later. The reader goes back to it.
fn body(reader: &mut Reader, pending: Pending) -> Result<Body, JavaFault> {
    reader.left = reader.tokens.len().saturating_sub(pending.token);
    if pending.of_class {
        let members = class_body(reader, CLASS_LIMIT)?;
        Ok(Body::Class(members))
    } else {
        let statements = block(reader, STATEMENT_LIMIT)?;
        Ok(Body::Block(statements))
    }
}

// One more body.
fn push_body(reader: &mut Reader, pending: Pending, all: &mut Vec<Body>) -> Result<(), JavaFault> {
    let one = body(reader, pending)?;
    push(all, one)?;
    Ok(())
}

fn all_bodies(reader: &mut Reader, all: &mut Vec<Body>) -> Result<(), JavaFault> {
    for number in 0..reader.tokens.len() {
        let Some(pending) = reader.bodies.get(number).copied() else {
            break;
        };
        push_body(reader, pending, all)?;
    }
    Ok(())
}

// The bodies that were left for later, and those that are left for later in them. Each begins at a token of its own.
fn bodies(reader: &mut Reader) -> Result<Vec<Body>, JavaFault> {
    let mut all = Vec::new(reader.alloc);
    let read = all_bodies(reader, &mut all);
    let (all, _) = beside(all, read)?;
    Ok(all)
}

// The classes of the file, and the bodies that were left for later.
fn types_and_bodies(reader: &mut Reader) -> Result<(Vec<TypeDeclaration>, Vec<Body>), JavaFault> {
    let types = types(reader)?;
    beside(types, bodies(reader))
}

// The file behind its package.
fn rest(
    reader: &mut Reader,
) -> Result<(Vec<Import>, (Vec<TypeDeclaration>, Vec<Body>)), JavaFault> {
    let imports = imports(reader)?;
    beside(imports, types_and_bodies(reader))
}

fn file(reader: &mut Reader) -> Result<File, JavaFault> {
    let package = package(reader)?;
    let (package, (imports, (types, bodies))) = beside(package, rest(reader))?;
    Ok(File {
        package,
        imports,
        types,
        bodies,
    })
}

/// The tree of tokens.
pub fn parse_java(alloc: Global, tokens: &[Token]) -> Result<File, JavaFault> {
    let mut reader = Reader {
        alloc,
        tokens,
        left: tokens.len(),
        bodies: Vec::new(alloc),
    };
    file(&mut reader)
}

/// The tree of a Java file (JLS 7.3), or why it isn't read: the first place where no token is, or a token that doesn't
/// fit. The bodies of lambdas and of anonymous classes are read last, so of several such tokens one in a body comes
/// last.
pub fn read_java(alloc: Global, text: &str) -> Result<File, JavaFault> {
    let tokens = lex_java(alloc, text)?;
    parse_java(alloc, &tokens)
}
