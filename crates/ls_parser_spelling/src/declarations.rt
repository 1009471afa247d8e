// The tokens of modifiers, types and declarations.

ghost use Rattle.std.specs.Prelude.{◌≡◌, ◌++◌, ◌∷◌, [], OnOk, map, option_map};
ghost use Rattle.std.specs.List.{flat_map};
ghost use Rattle.ls_lexer.specs.Lexemes.{Named, Marked};
ghost use Rattle.ls_lexer.specs.declared.sign.Sign.TheVariants as signs;
ghost use Rattle.ls_parser_spelling.specs.Kinds.{lexemes_of};
ghost use Rattle.ls_tree.specs.Views.{bare, bare_modifier, bare_type, bare_declarator, bare_declaration};
ghost use Rattle.ls_parser_spelling.specs.Spelling.{spell_modifier, spell_type, spell_initial, spell_declarator};
ghost use Rattle.ls_parser_spelling.specs.Spelling.{spell_declaration};

use crate::expressions::{put_expression, put_markable};
use crate::kinds::{put_name, put_sign, put_word};
use ls_lexer::sign::Sign;
use ls_lexer::token::TokenKind;
use ls_lexer::word::Word;
use ls_tree::tree::{Declaration, Declarator, Expression, Modifier, Type};
use std::alloc::AllocError;

fn put_modifier<'a>(out: &mut Vec<TokenKind<'a>>, modifier: &'a Modifier) -> Result<(), AllocError>
    ensures { OnOk result (lexemes_of out.new.items ≡ lexemes_of out.old.items ++
        spell_modifier (bare_modifier modifier.now)) }
{
    match modifier {
        Modifier::Public => put_word(out, Word::Public),
        Modifier::Protected => put_word(out, Word::Protected),
        Modifier::Private => put_word(out, Word::Private),
        Modifier::Final => put_word(out, Word::Final),
        Modifier::Volatile => put_word(out, Word::Volatile),
        Modifier::Annotation(name) => {
            put_sign(out, Sign::At)?;
            put_name(out, name)
        }
    }
}

/// Puts the tokens of modifiers after those in `out`. The only refusal is that memory ran out.
pub fn put_modifiers<'a>(
    out: &mut Vec<TokenKind<'a>>,
    modifiers: &'a [Modifier],
) -> Result<(), AllocError>
    ensures { OnOk result (lexemes_of out.new.items ≡ lexemes_of out.old.items ++
        flat_map spell_modifier (map bare_modifier modifiers.now)) }
{
    for modifier in modifiers {
        put_modifier(out, modifier)?;
    }
    Ok(())
}

/// Puts the tokens of a type after those in `out`. The only refusal is that memory ran out.
pub fn put_type<'a>(out: &mut Vec<TokenKind<'a>>, type_name: &'a Type) -> Result<(), AllocError>
    ensures { OnOk result (lexemes_of out.new.items ≡ lexemes_of out.old.items ++
        spell_type (bare_type type_name.now)) }
{
    match type_name {
        Type::Int => put_word(out, Word::Int),
        Type::Boolean => put_word(out, Word::Boolean),
        Type::BooleanArray => {
            put_word(out, Word::Boolean)?;
            put_sign(out, Sign::OpenBracket)?;
            put_sign(out, Sign::CloseBracket)
        }
        Type::Class(name) => put_name(out, name),
        Type::Markable(name) => put_markable(out, name),
    }
}

fn put_initial<'a>(
    out: &mut Vec<TokenKind<'a>>,
    value: &'a Option<Expression>,
) -> Result<(), AllocError>
    ensures { OnOk result (lexemes_of out.new.items ≡ lexemes_of out.old.items ++
        spell_initial (option_map bare value.now)) }
{
    match value {
        Some(value) => {
            put_sign(out, Sign::Assign)?;
            put_expression(out, value)
        }
        None => Ok(()),
    }
}

fn put_declarator<'a>(
    out: &mut Vec<TokenKind<'a>>,
    declarator: &'a Declarator,
) -> Result<(), AllocError>
    ensures { OnOk result (lexemes_of out.new.items ≡ lexemes_of out.old.items ++
        spell_declarator (bare_declarator declarator.now)) }
{
    put_name(out, &declarator.name)?;
    put_initial(out, &declarator.value)
}

// The declarators after the first, each after a comma.
fn put_more_declarators<'a>(
    out: &mut Vec<TokenKind<'a>>,
    more: &'a [Declarator],
) -> Result<(), AllocError>
    ensures { OnOk result (lexemes_of out.new.items ≡ lexemes_of out.old.items ++
        flat_map (λ d. Marked signs.Comma ∷ spell_declarator d) (map bare_declarator more.now)) }
{
    for declarator in more {
        put_sign(out, Sign::Comma)?;
        put_declarator(out, declarator)?;
    }
    Ok(())
}

/// The tokens of a declaration of fields or locals, with its semicolon. The only refusal is that memory ran out.
pub fn put_declaration<'a>(
    out: &mut Vec<TokenKind<'a>>,
    declaration: &'a Declaration,
) -> Result<(), AllocError>
    ensures { OnOk result (lexemes_of out.new.items ≡ lexemes_of out.old.items ++
        spell_declaration (bare_declaration declaration.now)) }
{
    put_modifiers(out, &declaration.modifiers)?;
    put_type(out, &declaration.type_name)?;
    put_declarator(out, &declaration.first)?;
    put_more_declarators(out, &declaration.more)?;
    put_sign(out, Sign::Semicolon)
}
