// The tokens that are left.

ghost use Rattle.std.specs.Prelude.{◌≡◌, ◌+◌, ◌∷◌, ◌++◌, ◌<◌, ◌≤◌, [], IfOk, IsTrue, OnOk};

use crate::signs::wanted_sign;
use ls_java_lexer::fault::{Form, JavaFault, Wanted};
use ls_java_lexer::token::{Token, TokenKind};
use ls_java_tree::names::{Name, Span};
use ls_lexer::sign::Sign;
use ls_lexer::word::Word;
use std::alloc::{AllocError, Global};

/// A body that is read after what it stands in: that of a lambda, or of an anonymous class. `token` is its `{`.
#[derive(Clone, Copy)]
pub struct Pending {
    pub token: usize,
    pub of_class: bool,
}

/// The tokens of a file, how many of them are left, and the bodies that are to be read later.
#[derive(Drop)]
pub struct Reader<'a> {
    pub alloc: Global,
    pub tokens: &'a [Token<'a>],
    pub left: usize,
    pub bodies: Vec<Pending>,
}

/// A tree, and how high it is.
#[derive(Drop)]
pub struct Part<T> {
    pub tree: T,
    pub height: usize,
}

/// The number of the next token.
pub fn place(reader: &Reader) -> usize {
    reader.tokens.len().saturating_sub(reader.left)
}

/// What the token is that comes so many tokens after the next one.
pub fn peek_at<'a>(reader: &Reader<'a>, ahead: usize) -> TokenKind<'a> {
    match reader.tokens.get(place(reader).saturating_add(ahead)) {
        Some(token) => token.kind,
        None => TokenKind::End,
    }
}

/// What the next token is.
pub fn peek<'a>(reader: &Reader<'a>) -> TokenKind<'a> {
    peek_at(reader, 0)
}

/// Whether a token is this sign.
pub fn is_sign(kind: TokenKind, wanted: Sign) -> bool {
    match kind {
        TokenKind::Sign(sign) => sign == wanted,
        _ => false,
    }
}

/// Whether a token is this reserved word.
pub fn is_word(kind: TokenKind, wanted: Word) -> bool {
    match kind {
        TokenKind::Word(word) => word == wanted,
        _ => false,
    }
}

/// Whether a token is a name.
pub fn is_name(kind: TokenKind) -> bool {
    matches!(&kind, TokenKind::Name(_))
}

/// Whether this sign comes next.
pub fn at_sign(reader: &Reader, wanted: Sign) -> bool {
    is_sign(peek(reader), wanted)
}

/// Whether this reserved word comes next.
pub fn at_word(reader: &Reader, wanted: Word) -> bool {
    is_word(peek(reader), wanted)
}

// The byte where a token starts. Behind the last token that is where the last one starts.
fn byte_of(reader: &Reader, token: usize) -> usize {
    match reader.tokens.get(token) {
        Some(token) => token.start,
        None => match reader.tokens.last() {
            Some(token) => token.start,
            None => 0,
        },
    }
}

/// The fault that something else was expected at a token.
pub fn expected_at(reader: &Reader, token: usize, wanted: Wanted) -> JavaFault {
    JavaFault::Expected {
        at: byte_of(reader, token),
        wanted,
    }
}

/// The fault that something else was expected at the next token.
pub fn expected(reader: &Reader, wanted: Wanted) -> JavaFault {
    expected_at(reader, place(reader), wanted)
}

/// The fault that a form isn't read, at the next token.
pub fn unread(reader: &Reader, form: Form) -> JavaFault {
    JavaFault::Unread {
        at: byte_of(reader, place(reader)),
        form,
    }
}

/// The fault that a tree is too high, at the next token.
pub fn too_deep(reader: &Reader) -> JavaFault {
    JavaFault::TooDeep {
        at: byte_of(reader, place(reader)),
    }
}

/// The height that is left for what is one node deeper.
pub fn deeper(reader: &Reader, limit: usize) -> Result<usize, JavaFault>
    ensures { IfOk result (λ inner. inner + 1 ≡ limit) }
{
    if limit == 0 {
        return Err(too_deep(reader));
    }
    Ok(limit - 1)
}

/// The next token is read. The answer is its number.
pub fn next(reader: &mut Reader) -> Result<usize, JavaFault>
    ensures { OnOk result (reader.new.left < reader.old.left) }
{
    let token = place(reader);
    if reader.left == 0 {
        return Err(expected(reader, Wanted::Token));
    }
    reader.left -= 1;
    Ok(token)
}

/// So many tokens are read, if there are as many.
pub fn skip(reader: &mut Reader, count: usize)
    ensures { reader.new.left ≤ reader.old.left }
{
    reader.left = reader.left.saturating_sub(count);
}

/// Whether this sign comes next. If so, it is read.
pub fn take_sign(reader: &mut Reader, wanted: Sign) -> bool
    ensures less { reader.new.left ≤ reader.old.left }
    ensures taken { IsTrue result → reader.new.left < reader.old.left }
{
    if reader.left > 0 && at_sign(reader, wanted) {
        reader.left -= 1;
        return true;
    }
    false
}

/// Whether this reserved word comes next. If so, it is read.
pub fn take_word(reader: &mut Reader, wanted: Word) -> bool
    ensures less { reader.new.left ≤ reader.old.left }
    ensures taken { IsTrue result → reader.new.left < reader.old.left }
{
    if reader.left > 0 && at_word(reader, wanted) {
        reader.left -= 1;
        return true;
    }
    false
}

/// The sign that must come next. The answer is the number of its token.
pub fn expect(reader: &mut Reader, wanted: Sign) -> Result<usize, JavaFault>
    ensures { OnOk result (reader.new.left < reader.old.left) }
{
    if !at_sign(reader, wanted) {
        return Err(expected(reader, wanted_sign(wanted)));
    }
    next(reader)
}

/// The reserved word that must come next. The answer is the number of its token.
pub fn expect_word(reader: &mut Reader, word: Word, wanted: Wanted) -> Result<usize, JavaFault>
    ensures { OnOk result (reader.new.left < reader.old.left) }
{
    if !at_word(reader, word) {
        return Err(expected(reader, wanted));
    }
    next(reader)
}

/// The name that must come next.
pub fn name(reader: &mut Reader) -> Result<Name, JavaFault>
    ensures { IfOk result (λ _. reader.new.left < reader.old.left) }
{
    match peek(reader) {
        TokenKind::Name(text) => {
            let token = next(reader)?;
            let text = String::from_str(reader.alloc, text)?;
            Ok(Name { text, token })
        }
        _ => Err(expected(reader, Wanted::Name)),
    }
}

/// From a token to the last one that is read.
pub fn span_from(reader: &Reader, first: usize) -> Span
    ensures { result.first ≤ result.last }
{
    Span {
        first,
        last: place(reader).saturating_sub(1).max(first),
    }
}

/// The item in a box. The only refusal is that memory ran out. This and the functions below are generic. If a step
/// fails while a tree is held, dropping a parameter's type is much less to prove than dropping a tree.
pub fn in_box<T: Drop>(alloc: Global, item: T) -> Result<Box<T>, AllocError>
    ensures { IfOk result (λ b. b.value ≡ item) }
{
    Ok(Box::new(alloc, item)?)
}

/// One more item at the end. The only refusal is that memory ran out.
pub fn push<T: Drop>(items: &mut Vec<T>, item: T) -> Result<(), AllocError>
    ensures { OnOk result (items.new.items ≡ items.old.items ++ item ∷ []) }
{
    items.push(item)?;
    Ok(())
}
