// The tokens of simple forms, and of the head of a `for`.

ghost use Rattle.std.specs.Prelude.{◌≡◌, ◌++◌, ◌∷◌, [], OnOk, map, option_map};
ghost use Rattle.std.specs.List.{flat_map};
ghost use Rattle.ls_lexer.specs.Lexemes.{Marked};
ghost use Rattle.ls_lexer.specs.declared.sign.Sign.TheVariants as signs;
ghost use Rattle.ls_parser_spelling.specs.Kinds.{lexemes_of};
ghost use Rattle.ls_tree.specs.Trees as trees;
ghost use Rattle.ls_tree.specs.Views.{bare, bare_simple, bare_opening};
ghost use Rattle.ls_parser_spelling.specs.Spelling.{in_parens, spell_expression, spell_simple, spell_simples};
ghost use Rattle.ls_parser_spelling.specs.Spelling.{spell_opening, spell_head, count_sign};

use crate::declarations::put_declaration;
use crate::expressions::{put_expression, put_value};
use crate::kinds::put_sign;
use ls_lexer::sign::Sign;
use ls_lexer::token::TokenKind;
use ls_tree::tree::{Expression, Opening, Simple};
use std::alloc::AllocError;

// A target, a sign and a value.
fn put_both<'a>(
    out: &mut Vec<TokenKind<'a>>,
    target: &'a Expression,
    sign: Sign,
    value: &'a Expression,
) -> Result<(), AllocError>
    ensures { OnOk result (lexemes_of out.new.items ≡ lexemes_of out.old.items ++
        (spell_expression (bare target.now) ++ Marked sign ∷ spell_expression (bare value.now))) }
{
    put_expression(out, target)?;
    put_sign(out, sign)?;
    put_expression(out, value)
}

fn sign_of_count(up: bool) -> Sign
    ensures { result ≡ count_sign up }
{
    if up { Sign::Increment } else { Sign::Decrement }
}

fn put_count<'a>(
    out: &mut Vec<TokenKind<'a>>,
    up: bool,
    before: bool,
    target: &'a Expression,
) -> Result<(), AllocError>
    ensures { OnOk result (lexemes_of out.new.items ≡ lexemes_of out.old.items ++
        spell_simple (trees.Count up before (bare target.now))) }
{
    if before {
        put_sign(out, sign_of_count(up))?;
        put_expression(out, target)
    } else {
        put_expression(out, target)?;
        put_sign(out, sign_of_count(up))
    }
}

/// Puts the tokens of a simple form after those in `out`. The only refusal is that memory ran out.
pub fn put_simple<'a>(out: &mut Vec<TokenKind<'a>>, simple: &'a Simple) -> Result<(), AllocError>
    ensures { OnOk result (lexemes_of out.new.items ≡ lexemes_of out.old.items ++
        spell_simple (bare_simple simple.now)) }
{
    match simple {
        Simple::Assign { target, value } => put_both(out, target, Sign::Assign, value),
        Simple::Add { target, value } => put_both(out, target, Sign::PlusAssign, value),
        Simple::Count { up, before, target } => put_count(out, *up, *before, target),
        Simple::Evaluate(value) => put_expression(out, value),
    }
}

// The simple forms after the first, each after a comma.
fn put_more_simples<'a>(out: &mut Vec<TokenKind<'a>>, more: &'a [Simple]) -> Result<(), AllocError>
    ensures { OnOk result (lexemes_of out.new.items ≡ lexemes_of out.old.items ++
        flat_map (λ s. Marked signs.Comma ∷ spell_simple s) (map bare_simple more.now)) }
{
    for simple in more {
        put_sign(out, Sign::Comma)?;
        put_simple(out, simple)?;
    }
    Ok(())
}

fn put_simples<'a>(out: &mut Vec<TokenKind<'a>>, simples: &'a [Simple]) -> Result<(), AllocError>
    ensures { OnOk result (lexemes_of out.new.items ≡ lexemes_of out.old.items ++
        spell_simples (map bare_simple simples.now)) }
{
    match simples {
        [] => Ok(()),
        [first, more @ ..] => {
            put_simple(out, first)?;
            put_more_simples(out, more)
        }
    }
}

// What a `for` begins with, and the semicolon.
fn put_opening<'a>(out: &mut Vec<TokenKind<'a>>, opening: &'a Opening) -> Result<(), AllocError>
    ensures { OnOk result (lexemes_of out.new.items ≡ lexemes_of out.old.items ++
        spell_opening (bare_opening opening.now)) }
{
    match opening {
        Opening::Declaration(declaration) => put_declaration(out, declaration),
        Opening::Simples(simples) => {
            put_simples(out, simples)?;
            put_sign(out, Sign::Semicolon)
        }
    }
}

/// The head of a `for`, in parentheses. The only refusal is that memory ran out.
pub fn put_head<'a>(
    out: &mut Vec<TokenKind<'a>>,
    opening: &'a Opening,
    condition: &'a Option<Expression>,
    updates: &'a [Simple],
) -> Result<(), AllocError>
    ensures { OnOk result (lexemes_of out.new.items ≡ lexemes_of out.old.items ++
        in_parens (spell_head (bare_opening opening.now) (option_map bare condition.now)
        (map bare_simple updates.now))) }
{
    put_sign(out, Sign::OpenParen)?;
    put_opening(out, opening)?;
    put_value(out, condition)?;
    put_sign(out, Sign::Semicolon)?;
    put_simples(out, updates)?;
    put_sign(out, Sign::CloseParen)
}
