// The next tokens, and what reading makes of them.

ghost use Rattle.std.specs.Prelude.{◌≡◌, ◌++◌, ◌∷◌, ℕ, [], IfOk, IfSome, length};
ghost use Rattle.ls_lexer.specs.declared.token.Span.{Span};
ghost use Rattle.ls_lexer.specs.declared.fault.TextFault.TheVariants.{Syntax, TooDeep};
ghost use Rattle.ls_lexer.specs.declared.word.Word.TheVariants as words;
ghost use Rattle.ls_lexer.specs.Lexemes.{Named, Reserved, Marked, lexemes};
ghost use Rattle.ls_parser_spelling.specs.Places.{spot, spots, sign, named, upto};
ghost use Rattle.ls_parser_tokens.specs.Reading.{after_sign, after_word, name_at, starts};
ghost use Rattle.ls_tree.specs.Views.{name_text};
ghost use Rattle.ls_tree.specs.Placed.{placed_name};
ghost use Rattle.ls_parser_tokens.specs.Answers.{ReadsAs, Finds};

use ls_lexer::fault::TextFault;
use ls_lexer::sign::Sign;
use ls_lexer::token::{Span, Token, TokenKind};
use ls_lexer::word::Word;
use ls_tree::tree::Name;
use std::alloc::{AllocError, Global};

/// What the making of a tree needs: the allocator, and the end of the text in bytes, which is the place of a fault
/// there.
#[derive(Clone, Copy)]
pub struct Context {
    pub alloc: Global,
    pub end: usize,
}

/// What is read, and the tokens after it.
#[derive(Drop)]
pub struct Read<'t, 'a, T> {
    pub tree: T,
    pub rest: &'t [Token<'a>],
}

/// What is read, how high its tree is, and the tokens after it.
#[derive(Drop)]
pub struct Part<'t, 'a, T> {
    pub tree: T,
    pub height: usize,
    pub rest: &'t [Token<'a>],
}

/// What is read up to a closing sign, the span of that sign, and the tokens after it.
#[derive(Drop)]
pub struct Enclosed<'t, 'a, T> {
    pub tree: T,
    pub height: usize,
    pub end: Span,
    pub rest: &'t [Token<'a>],
}

/// The span of a token, and the tokens after it.
#[derive(Clone, Copy)]
pub struct Mark<'t, 'a> {
    pub span: Span,
    pub rest: &'t [Token<'a>],
}

/// The text of a name, the span of the name, and the tokens after it.
#[derive(Clone, Copy)]
pub struct NamePart<'t, 'a> {
    pub text: &'a str,
    pub span: Span,
    pub rest: &'t [Token<'a>],
}

/// The byte where the first token starts, or the end of the text.
pub fn place(tokens: &[Token], end: usize) -> usize {
    match tokens {
        [token, ..] => token.span.start,
        [] => end,
    }
}

/// The fault `Syntax`, at the first token or at the end of the text.
pub fn syntax(context: Context, tokens: &[Token]) -> TextFault
    ensures { (at : ℕ) × (result ≡ Syntax at) }
{
    TextFault::Syntax {
        at: place(tokens, context.end),
    }
}

/// The fault `TooDeep`, at the first token or at the end of the text.
pub fn too_deep(context: Context, tokens: &[Token]) -> TextFault
    ensures { (at : ℕ) × (result ≡ TooDeep at) }
{
    TextFault::TooDeep {
        at: place(tokens, context.end),
    }
}

/// From the first of the tokens to the last one before the rest.
pub fn span_to(tokens: &[Token], rest: &[Token]) -> Span {
    let taken = tokens.len().saturating_sub(rest.len());
    Span {
        start: place(tokens, 0),
        end: match tokens.get(taken.saturating_sub(1)) {
            Some(token) => token.span.end,
            None => 0,
        },
    }
}

/// From the beginning of one span to the end of another.
pub fn upto(first: Span, last: Span) -> Span
    ensures { result ≡ upto first last }
{
    Span {
        start: first.start,
        end: last.end,
    }
}

/// The span of the sign, and the tokens after it, if they begin with this sign.
pub fn sign_part<'t, 'a>(tokens: &'t [Token<'a>], wanted: Sign) -> Option<Mark<'t, 'a>>
    ensures read { Finds (λ m. lexemes m.rest.now) result (after_sign wanted (lexemes tokens.now)) }
    ensures placed { IfSome result (λ m. spots tokens.now ≡ sign wanted m.span ∷ spots m.rest.now) }
{
    match tokens {
        [token, rest @ ..] => match token.kind {
            TokenKind::Sign(sign) if sign == wanted => Some(Mark {
                span: token.span,
                rest,
            }),
            _ => None,
        },
        [] => None,
    }
}

/// The span of the word, and the tokens after it, if they begin with this reserved word.
pub fn word_part<'t, 'a>(tokens: &'t [Token<'a>], wanted: Word) -> Option<Mark<'t, 'a>>
    ensures read { Finds (λ m. lexemes m.rest.now) result (after_word wanted (lexemes tokens.now)) }
    ensures placed { IfSome result (λ m. spots tokens.now ≡ spot (Reserved wanted) m.span ∷ spots m.rest.now) }
{
    match tokens {
        [token, rest @ ..] => match token.kind {
            TokenKind::Word(word) if word == wanted => Some(Mark {
                span: token.span,
                rest,
            }),
            _ => None,
        },
        [] => None,
    }
}

/// If the tokens begin with `else`: its span, and the tokens after it. An `else` belongs to the innermost `if` to
/// which it can (JLS 14.5). So whoever has read the first statement of an `if` asks for its `else` at once.
pub fn else_part<'t, 'a>(tokens: &'t [Token<'a>]) -> Option<Mark<'t, 'a>>
    ensures read { Finds (λ m. lexemes m.rest.now) result (after_word words.Else (lexemes tokens.now)) }
    ensures placed { IfSome result (λ m. spots tokens.now ≡ spot (Reserved words.Else) m.span ∷ spots m.rest.now) }
{
    word_part(tokens, Word::Else)
}

/// The name that the tokens begin with, or none.
pub fn name_part<'t, 'a>(tokens: &'t [Token<'a>]) -> Option<NamePart<'t, 'a>>
    ensures read { Finds (λ n. (n.text.now, lexemes n.rest.now)) result (name_at (lexemes tokens.now)) }
    ensures placed { IfSome result (λ n. spots tokens.now ≡ spot (Named n.text.now) n.span ∷ spots n.rest.now) }
{
    match tokens {
        [token, rest @ ..] => match token.kind {
            TokenKind::Name(text) => Some(NamePart {
                text,
                span: token.span,
                rest,
            }),
            _ => None,
        },
        [] => None,
    }
}

/// Whether this sign comes first.
pub fn starts_with(tokens: &[Token], wanted: Sign) -> bool
    ensures { result ≡ starts wanted (lexemes tokens.now) }
{
    sign_part(tokens, wanted).is_some()
}

/// The sign that must come first, and the tokens after it. If another token comes, that is a fault of syntax.
pub fn expect<'t, 'a>(
    context: Context,
    tokens: &'t [Token<'a>],
    wanted: Sign,
) -> Result<Mark<'t, 'a>, TextFault>
    ensures read { ReadsAs (λ m. lexemes m.rest.now) result (after_sign wanted (lexemes tokens.now)) }
    ensures placed { IfOk result (λ m. spots tokens.now ≡ sign wanted m.span ∷ spots m.rest.now) }
{
    match sign_part(tokens, wanted) {
        Some(mark) => Ok(mark),
        None => Err(syntax(context, tokens)),
    }
}

/// The reserved word that must come first, and the tokens after it. If another token comes, that is a fault of syntax.
pub fn expect_word<'t, 'a>(
    context: Context,
    tokens: &'t [Token<'a>],
    wanted: Word,
) -> Result<Mark<'t, 'a>, TextFault>
    ensures read { ReadsAs (λ m. lexemes m.rest.now) result (after_word wanted (lexemes tokens.now)) }
    ensures placed { IfOk result (λ m. spots tokens.now ≡ spot (Reserved wanted) m.span ∷ spots m.rest.now) }
{
    match word_part(tokens, wanted) {
        Some(mark) => Ok(mark),
        None => Err(syntax(context, tokens)),
    }
}

/// A name with this text and this span. The only refusal is that memory ran out.
pub fn make_name(context: Context, text: &str, span: Span) -> Result<Name, AllocError>
    ensures { IfOk result (λ n. (name_text n ≡ text.now) × (n.span ≡ span)) }
{
    let text = String::from_str(context.alloc, text)?;
    Ok(Name { text, span })
}

/// The name that must come first. If another token comes, that is a fault of syntax. Else the only refusal is that
/// memory ran out.
pub fn name<'t, 'a>(
    context: Context,
    tokens: &'t [Token<'a>],
) -> Result<Read<'t, 'a, Name>, TextFault>
    ensures read { ReadsAs (λ n. (name_text n.tree, lexemes n.rest.now)) result (name_at (lexemes tokens.now)) }
    ensures placed { IfOk result (λ n. spots tokens.now ≡ named (placed_name n.tree) ∷ spots n.rest.now) }
{
    match name_part(tokens) {
        Some(found) => Ok(Read {
            tree: make_name(context, found.text, found.span)?,
            rest: found.rest,
        }),
        None => Err(syntax(context, tokens)),
    }
}

/// The same items, and one more at the end. The only refusal is that memory ran out.
pub fn push<T: Drop>(mut items: Vec<T>, item: T) -> Result<Vec<T>, AllocError>
    ensures { IfOk result (λ v. v.items ≡ items.items ++ item ∷ []) }
{
    items.push(item)?;
    Ok(items)
}

/// Each value in a box. The only refusal is that memory ran out. This and the functions below are generic. If a step
/// may fail while a tree is held, dropping a parameter's type is much less to prove than dropping a tree.
pub fn two_boxed<T: Drop, U: Drop>(
    alloc: Global,
    first: T,
    second: U,
) -> Result<(Box<T>, Box<U>), AllocError>
    ensures { IfOk result (λ b. (b.0.value ≡ first) × (b.1.value ≡ second)) }
{
    let first = Box::new(alloc, first)?;
    let second = Box::new(alloc, second)?;
    Ok((first, second))
}

/// The same part, with its tree in a box. The only refusal is that memory ran out.
pub fn boxed_part<'t, 'a, T: Drop>(
    alloc: Global,
    part: Part<'t, 'a, T>,
) -> Result<Part<'t, 'a, Box<T>>, AllocError>
    ensures { IfOk result (λ p. (p.tree.value ≡ part.entry.tree) × (p.height ≡ part.entry.height) ×
        (p.rest.now ≡ part.entry.rest.now)) }
{
    Ok(Part {
        tree: Box::new(alloc, part.tree)?,
        height: part.height,
        rest: part.rest,
    })
}

/// The same part, with the sign that must come after it. If another token comes, that is a fault of syntax at its
/// place.
pub fn closed_part<'t, 'a, T: Drop>(
    context: Context,
    part: Part<'t, 'a, T>,
    wanted: Sign,
) -> Result<Enclosed<'t, 'a, T>, TextFault>
    ensures read { ReadsAs (λ p. lexemes p.rest.now) result (after_sign wanted (lexemes part.entry.rest.now)) }
    ensures same { IfOk result (λ p. (p.tree ≡ part.entry.tree) × (p.height ≡ part.entry.height)) }
    ensures placed { IfOk result (λ p. spots part.entry.rest.now ≡ sign wanted p.end ∷ spots p.rest.now) }
{
    let close = expect(context, part.rest, wanted)?;
    Ok(Enclosed {
        tree: part.tree,
        height: part.height,
        end: close.span,
        rest: close.rest,
    })
}

/// The same tree, with the sign that must come after it. If another token comes, that is a fault of syntax at its
/// place.
pub fn closed<'t, 'a, T: Drop>(
    context: Context,
    read: Read<'t, 'a, T>,
    wanted: Sign,
) -> Result<Read<'t, 'a, T>, TextFault>
    ensures read { ReadsAs (λ r. lexemes r.rest.now) result (after_sign wanted (lexemes read.entry.rest.now)) }
    ensures same { IfOk result (λ r. r.tree ≡ read.entry.tree) }
    ensures placed { IfOk result (λ r. (s : Span) × (spots read.entry.rest.now ≡ sign wanted s ∷ spots r.rest.now)) }
{
    let close = expect(context, read.rest, wanted)?;
    Ok(Read {
        tree: read.tree,
        rest: close.rest,
    })
}
