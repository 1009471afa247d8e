// Packages and imports.

ghost use Rattle.std.specs.Prelude.{◌≡◌, ◌++◌, ◌∷◌, [], IfOk, IfSome, Some, None, map, option_map};
ghost use Rattle.ls_lexer.specs.Lexemes.{lexemes};
ghost use Rattle.ls_lexer.specs.declared.sign.Sign.TheVariants as signs;
ghost use Rattle.ls_tree.specs.Views.{name_text, bare_dotted, bare_import};
ghost use Rattle.ls_parser_spelling.specs.Places.{spots};
ghost use Rattle.ls_parser.specs.Leaves.{Leaves};
ghost use Rattle.ls_parser_tokens.specs.Answers.{ReadsAs, Finds};
ghost use Rattle.ls_parser_tokens.specs.Reading.{after_sign, one_more, many_at, not_yet};
ghost use Rattle.ls_parser.specs.ReadingClasses.{part_at, dotted_at, after_star, more_path, import_of, import_at};
ghost use Rattle.ls_parser.specs.ReadingClasses.{package_at, header_at, starts_import};

use ls_lexer::fault::TextFault;
use ls_lexer::sign::Sign;
use ls_lexer::token::Token;
use ls_lexer::word::Word;
use ls_parser_tokens::tokens::{
    Context, Read, closed, expect, expect_word, name, push, sign_part, starts_with, word_part,
};
use ls_tree::tree::{Dotted, Import, Name};

// Names, each after a dot, up to a semicolon.
#[tactic(auto, using(crate::proofs::Leaving::all_kept))]
fn package_parts<'t, 'a>(
    context: Context,
    tokens: &'t [Token<'a>],
) -> Result<Read<'t, 'a, Vec<Name>>, TextFault>
    ensures read { ReadsAs (λ d. (map name_text d.tree.items, lexemes d.rest.now)) result
        (many_at (not_yet signs.Semicolon) part_at (lexemes tokens.now)) }
    ensures leaves { IfOk result (λ x. Leaves (spots tokens.now) (spots x.rest.now)) }
{
    let mut all = Read {
        tree: Vec::new(context.alloc),
        rest: tokens,
    };
    while !starts_with(all.rest, Sign::Semicolon) {
        all = one_part(context, all)?;
    }
    Ok(all)
}

// Names, each after a dot, up to a semicolon or `.*`.
#[tactic(auto, using(crate::proofs::Leaving::all_kept))]
fn import_parts<'t, 'a>(
    context: Context,
    tokens: &'t [Token<'a>],
) -> Result<Read<'t, 'a, Vec<Name>>, TextFault>
    ensures read { ReadsAs (λ d. (map name_text d.tree.items, lexemes d.rest.now)) result
        (many_at more_path part_at (lexemes tokens.now)) }
    ensures leaves { IfOk result (λ x. Leaves (spots tokens.now) (spots x.rest.now)) }
{
    let mut all = Read {
        tree: Vec::new(context.alloc),
        rest: tokens,
    };
    while more_path(all.rest) {
        all = one_part(context, all)?;
    }
    Ok(all)
}

#[tactic(auto, using(ls_parser_expressions::proofs::Rows::map_push, crate::proofs::Leaving::two_taken))]
fn one_part<'t, 'a>(
    context: Context,
    before: Read<'t, 'a, Vec<Name>>,
) -> Result<Read<'t, 'a, Vec<Name>>, TextFault>
    ensures read { ReadsAs (λ d. (map name_text d.tree.items, lexemes d.rest.now)) result
        (one_more part_at (map name_text before.entry.tree.items) (lexemes before.entry.rest.now)) }
    ensures leaves { IfOk result (λ x. Leaves (spots before.entry.rest.now) (spots x.rest.now)) }
{
    let dot = expect(context, before.rest, Sign::Dot)?;
    let found = name(context, dot.rest)?;
    Ok(Read {
        tree: push(before.tree, found.tree)?,
        rest: found.rest,
    })
}

// The tokens after `.*`.
#[tactic(auto, using(crate::proofs::Leaving::two_taken))]
fn star_part<'t, 'a>(tokens: &'t [Token<'a>]) -> Option<&'t [Token<'a>]>
    ensures read { Finds (λ rest. lexemes rest.now) result (after_star (lexemes tokens.now)) }
    ensures leaves { IfSome result (λ x. Leaves (spots tokens.now) (spots x.now)) }
{
    let dot = sign_part(tokens, Sign::Dot)?;
    let star = sign_part(dot.rest, Sign::Star)?;
    Some(star.rest)
}

fn more_path(tokens: &[Token]) -> bool
    ensures { result ≡ more_path (lexemes tokens.now) }
{
    !(starts_with(tokens, Sign::Semicolon) || star_part(tokens).is_some())
}

// What comes after `import`.
#[tactic(auto, using(crate::proofs::Leaving::taken_then))]
fn path<'t, 'a>(
    context: Context,
    tokens: &'t [Token<'a>],
) -> Result<Read<'t, 'a, Dotted>, TextFault>
    ensures read { ReadsAs (λ d. (bare_dotted d.tree, lexemes d.rest.now)) result
        (dotted_at more_path (lexemes tokens.now)) }
    ensures leaves { IfOk result (λ x. Leaves (spots tokens.now) (spots x.rest.now)) }
{
    let first = name(context, tokens)?;
    let more = import_parts(context, first.rest)?;
    Ok(Read {
        tree: Dotted {
            first: first.tree,
            more: more.tree,
        },
        rest: more.rest,
    })
}

// An import, of which only the semicolon is left to be read.
#[tactic(auto, using(crate::proofs::Leaving::one_taken))]
fn imported<'t, 'a>(
    context: Context,
    path: Dotted,
    all: bool,
    tokens: &'t [Token<'a>],
) -> Result<Read<'t, 'a, Import>, TextFault>
    ensures read { ReadsAs (λ i. lexemes i.rest.now) result (after_sign signs.Semicolon (lexemes tokens.now)) }
    ensures leaves { IfOk result (λ x. Leaves (spots tokens.now) (spots x.rest.now)) }
    ensures same { IfOk result (λ i. bare_import i.tree ≡ import_of (bare_dotted path) all) }
{
    let end = expect(context, tokens, Sign::Semicolon)?;
    Ok(Read {
        tree: Import { path, all },
        rest: end.rest,
    })
}

#[tactic(auto, using(crate::proofs::Leaving::taken_and_both))]
fn import<'t, 'a>(
    context: Context,
    tokens: &'t [Token<'a>],
) -> Result<Read<'t, 'a, Import>, TextFault>
    ensures read { ReadsAs (λ i. (bare_import i.tree, lexemes i.rest.now)) result (import_at (lexemes tokens.now)) }
    ensures leaves { IfOk result (λ x. Leaves (spots tokens.now) (spots x.rest.now)) }
{
    let word = expect_word(context, tokens, Word::Import)?;
    let path = path(context, word.rest)?;
    match star_part(path.rest) {
        Some(rest) => imported(context, path.tree, true, rest),
        None => imported(context, path.tree, false, path.rest),
    }
}

fn starts_import(tokens: &[Token]) -> bool
    ensures { result ≡ starts_import (lexemes tokens.now) }
{
    word_part(tokens, Word::Import).is_some()
}

/// The imports that the tokens begin with. Refused if one isn't whole, or if memory runs out.
#[tactic(auto, using(crate::proofs::Leaving::all_kept))]
pub fn imports<'t, 'a>(
    context: Context,
    tokens: &'t [Token<'a>],
) -> Result<Read<'t, 'a, Vec<Import>>, TextFault>
    ensures read { ReadsAs (λ i. (map bare_import i.tree.items, lexemes i.rest.now)) result
        (many_at starts_import import_at (lexemes tokens.now)) }
    ensures leaves { IfOk result (λ x. Leaves (spots tokens.now) (spots x.rest.now)) }
{
    let mut all = Read {
        tree: Vec::new(context.alloc),
        rest: tokens,
    };
    while starts_import(all.rest) {
        all = one_import(context, all)?;
    }
    Ok(all)
}

#[tactic(auto, using(ls_parser_expressions::proofs::Rows::map_push))]
fn one_import<'t, 'a>(
    context: Context,
    before: Read<'t, 'a, Vec<Import>>,
) -> Result<Read<'t, 'a, Vec<Import>>, TextFault>
    ensures read { ReadsAs (λ i. (map bare_import i.tree.items, lexemes i.rest.now)) result
        (one_more import_at (map bare_import before.entry.tree.items) (lexemes before.entry.rest.now)) }
    ensures leaves { IfOk result (λ x. Leaves (spots before.entry.rest.now) (spots x.rest.now)) }
{
    let found = import(context, before.rest)?;
    Ok(Read {
        tree: push(before.tree, found.tree)?,
        rest: found.rest,
    })
}

// What comes after `package`.
#[tactic(auto, using(crate::proofs::Leaving::taken_then, crate::proofs::Leaving::then_closed))]
fn package_name<'t, 'a>(
    context: Context,
    tokens: &'t [Token<'a>],
) -> Result<Read<'t, 'a, Dotted>, TextFault>
    ensures read { ReadsAs (λ d. (bare_dotted d.tree, lexemes d.rest.now)) result (package_at (lexemes tokens.now)) }
    ensures leaves { IfOk result (λ x. Leaves (spots tokens.now) (spots x.rest.now)) }
{
    let first = name(context, tokens)?;
    let more = package_parts(context, first.rest)?;
    let more = closed(context, more, Sign::Semicolon)?;
    Ok(Read {
        tree: Dotted {
            first: first.tree,
            more: more.tree,
        },
        rest: more.rest,
    })
}

/// The package, or none if the tokens don't begin with `package`.
#[tactic(auto, using(crate::proofs::Leaving::all_kept, crate::proofs::Leaving::taken_then))]
pub fn header<'t, 'a>(
    context: Context,
    tokens: &'t [Token<'a>],
) -> Result<Read<'t, 'a, Option<Dotted>>, TextFault>
    ensures read { ReadsAs (λ h. (option_map bare_dotted h.tree, lexemes h.rest.now)) result
        (header_at (lexemes tokens.now)) }
    ensures leaves { IfOk result (λ x. Leaves (spots tokens.now) (spots x.rest.now)) }
{
    match word_part(tokens, Word::Package) {
        Some(word) => {
            let name = package_name(context, word.rest)?;
            Ok(Read {
                tree: Some(name.tree),
                rest: name.rest,
            })
        }
        None => Ok(Read {
            tree: None,
            rest: tokens,
        }),
    }
}
