// Paths, annotations and modifiers.

ghost use Rattle.std.specs.Prelude.{◌<◌, ◌≤◌, IfOk, IsSome, OnOk};

use crate::ahead::closed_end;
use crate::reader::{
    Reader, at_sign, at_word, expect, is_name, is_sign, is_word, name, next, peek, peek_at, place,
    push, skip, span_from, take_sign,
};
use ls_java_lexer::fault::JavaFault;
use ls_java_lexer::token::TokenKind;
use ls_java_tree::names::{Modifier, ModifierKind, Path};
use ls_lexer::sign::Sign;
use ls_lexer::word::Word;

/// Names with dots between them. A dot that no name comes after isn't read.
pub fn path(reader: &mut Reader) -> Result<Path, JavaFault>
    ensures { IfOk result (λ _. reader.new.left < reader.old.left) }
{
    let start = place(reader);
    let mut parts = Vec::new(reader.alloc);
    let first = name(reader)?;
    push(&mut parts, first)?;
    while at_sign(reader, Sign::Dot) && is_name(peek_at(reader, 1)) {
        expect(reader, Sign::Dot)?;
        let part = name(reader)?;
        push(&mut parts, part)?;
    }
    Ok(Path {
        parts,
        span: span_from(reader, start),
    })
}

/// What is between a bracket that comes next and the one that closes it is read over, with both.
pub fn skip_closed(reader: &mut Reader, open: Sign, close: Sign) -> Result<(), JavaFault>
    ensures { OnOk result (reader.new.left < reader.old.left) }
{
    let start = place(reader);
    let end = closed_end(reader.tokens, start, open, close);
    expect(reader, open)?;
    match end {
        Some(end) => {
            skip(reader, end.saturating_sub(start).saturating_sub(1));
            Ok(())
        }
        None => {
            skip(reader, reader.tokens.len());
            expect(reader, close)?;
            Ok(())
        }
    }
}

// An annotation (JLS 9.7). Its arguments are read over.
fn annotation(reader: &mut Reader) -> Result<Modifier, JavaFault>
    ensures { IfOk result (λ _. reader.new.left < reader.old.left) }
{
    let start = expect(reader, Sign::At)?;
    let path = path(reader)?;
    if at_sign(reader, Sign::OpenParen) {
        skip_closed(reader, Sign::OpenParen, Sign::CloseParen)?;
    }
    Ok(Modifier {
        kind: ModifierKind::Annotation(path),
        span: span_from(reader, start),
    })
}

fn modifier_of(kind: TokenKind) -> Option<ModifierKind> {
    match kind {
        TokenKind::Word(Word::Public) => Some(ModifierKind::Public),
        TokenKind::Word(Word::Protected) => Some(ModifierKind::Protected),
        TokenKind::Word(Word::Private) => Some(ModifierKind::Private),
        TokenKind::Word(Word::Static) => Some(ModifierKind::Static),
        TokenKind::Word(Word::Abstract) => Some(ModifierKind::Abstract),
        TokenKind::Word(Word::Final) => Some(ModifierKind::Final),
        TokenKind::Word(Word::Native) => Some(ModifierKind::Native),
        TokenKind::Word(Word::Synchronized) => Some(ModifierKind::Synchronized),
        TokenKind::Word(Word::Transient) => Some(ModifierKind::Transient),
        TokenKind::Word(Word::Volatile) => Some(ModifierKind::Volatile),
        TokenKind::Word(Word::Strictfp) => Some(ModifierKind::Strictfp),
        TokenKind::Word(Word::Default) => Some(ModifierKind::Default),
        _ => None,
    }
}

// Whether an annotation comes next, and no annotation type (JLS 9.6).
fn at_annotation(reader: &Reader) -> bool {
    at_sign(reader, Sign::At) && !is_word(peek_at(reader, 1), Word::Interface)
}

// Whether `default` comes next as the label of a `switch` (JLS 14.11).
fn at_default_label(reader: &Reader) -> bool {
    let after = peek_at(reader, 1);
    at_word(reader, Word::Default) && (is_sign(after, Sign::Colon) || is_sign(after, Sign::Arrow))
}

// Whether `synchronized` comes next as a statement (JLS 14.19).
fn at_locking(reader: &Reader) -> bool {
    at_word(reader, Word::Synchronized) && is_sign(peek_at(reader, 1), Sign::OpenParen)
}

// The modifier that comes next, or none.
fn modifier(reader: &mut Reader) -> Result<Option<Modifier>, JavaFault>
    ensures { IfOk result (λ found. (reader.new.left ≤ reader.old.left) ×
        (IsSome found → reader.new.left < reader.old.left)) }
{
    if at_annotation(reader) {
        let found = annotation(reader)?;
        return Ok(Some(found));
    }
    if at_default_label(reader) || at_locking(reader) {
        return Ok(None);
    }
    match modifier_of(peek(reader)) {
        Some(kind) => {
            let token = next(reader)?;
            Ok(Some(Modifier {
                kind,
                span: span_from(reader, token),
            }))
        }
        None => Ok(None),
    }
}

/// The modifiers that come next.
pub fn modifiers(reader: &mut Reader) -> Result<Vec<Modifier>, JavaFault>
    ensures { IfOk result (λ _. reader.new.left ≤ reader.old.left) }
{
    let mut all = Vec::new(reader.alloc);
    while let Some(found) = modifier(reader)? {
        push(&mut all, found)?;
    }
    Ok(all)
}

/// Pairs of brackets `[]`. The answer is how many.
pub fn brackets(reader: &mut Reader) -> Result<usize, JavaFault>
    ensures { IfOk result (λ _. reader.new.left ≤ reader.old.left) }
{
    let mut count: usize = 0;
    while take_sign(reader, Sign::OpenBracket) {
        expect(reader, Sign::CloseBracket)?;
        count = count.saturating_add(1);
    }
    Ok(count)
}
