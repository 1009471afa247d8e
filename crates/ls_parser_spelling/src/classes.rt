// The tokens of members, classes, imports and the package.

ghost use Rattle.std.specs.Prelude.{◌≡◌, ◌++◌, ◌∷◌, [], OnOk, map, option_map};
ghost use Rattle.std.specs.List.{flat_map};
ghost use Rattle.ls_lexer.specs.Lexemes.{Named, Marked};
ghost use Rattle.ls_lexer.specs.declared.sign.Sign.TheVariants as signs;
ghost use Rattle.ls_parser_spelling.specs.Kinds.{lexemes_of};
ghost use Rattle.ls_tree.specs.Trees.{Method as a_method, Constructor as a_constructor};
ghost use Rattle.ls_tree.specs.Views.{name_text, bare_modifier, bare_modifiers, bare_type, bare_block};
ghost use Rattle.ls_tree.specs.Views.{bare_parameter, bare_member, bare_class, bare_dotted, bare_import};
ghost use Rattle.ls_parser_spelling.specs.Spelling.{in_parens, in_braces, spell_parameter, spell_parameters};
ghost use Rattle.ls_parser_spelling.specs.Spelling.{spell_result, spell_locked, spell_member, spell_class};
ghost use Rattle.ls_parser_spelling.specs.Spelling.{spell_dotted, spell_all, spell_import, spell_package};

use crate::declarations::{put_declaration, put_modifiers, put_type};
use crate::kinds::{put_name, put_sign, put_word};
use crate::statements::put_block;
use ls_lexer::sign::Sign;
use ls_lexer::token::TokenKind;
use ls_lexer::word::Word;
use ls_tree::tree::{
    Class, Constructor, Dotted, Import, Member, Method, Modifier, Name, Parameter, Type,
};
use std::alloc::AllocError;

fn put_parameter<'a>(
    out: &mut Vec<TokenKind<'a>>,
    parameter: &'a Parameter,
) -> Result<(), AllocError>
    ensures { OnOk result (lexemes_of out.new.items ≡ lexemes_of out.old.items ++
        spell_parameter (bare_parameter parameter.now)) }
{
    put_modifiers(out, &parameter.modifiers)?;
    put_type(out, &parameter.type_name)?;
    put_name(out, &parameter.name)
}

// The parameters after the first, each after a comma.
fn put_more_parameters<'a>(
    out: &mut Vec<TokenKind<'a>>,
    more: &'a [Parameter],
) -> Result<(), AllocError>
    ensures { OnOk result (lexemes_of out.new.items ≡ lexemes_of out.old.items ++
        flat_map (λ p. Marked signs.Comma ∷ spell_parameter p) (map bare_parameter more.now)) }
{
    for parameter in more {
        put_sign(out, Sign::Comma)?;
        put_parameter(out, parameter)?;
    }
    Ok(())
}

fn put_parameters<'a>(
    out: &mut Vec<TokenKind<'a>>,
    parameters: &'a [Parameter],
) -> Result<(), AllocError>
    ensures { OnOk result (lexemes_of out.new.items ≡ lexemes_of out.old.items ++
        spell_parameters (map bare_parameter parameters.now)) }
{
    match parameters {
        [] => Ok(()),
        [first, more @ ..] => {
            put_parameter(out, first)?;
            put_more_parameters(out, more)
        }
    }
}

// Parameters with their parentheses.
fn put_group<'a>(
    out: &mut Vec<TokenKind<'a>>,
    parameters: &'a [Parameter],
) -> Result<(), AllocError>
    ensures { OnOk result (lexemes_of out.new.items ≡ lexemes_of out.old.items ++
        in_parens (spell_parameters (map bare_parameter parameters.now))) }
{
    put_sign(out, Sign::OpenParen)?;
    put_parameters(out, parameters)?;
    put_sign(out, Sign::CloseParen)
}

fn put_result<'a>(out: &mut Vec<TokenKind<'a>>, of: &'a Option<Type>) -> Result<(), AllocError>
    ensures { OnOk result (lexemes_of out.new.items ≡ lexemes_of out.old.items ++
        spell_result (option_map bare_type of.now)) }
{
    match of {
        Some(type_name) => put_type(out, type_name),
        None => put_word(out, Word::Void),
    }
}

// Each `synchronized`, with the modifiers after it.
fn put_locked<'a>(
    out: &mut Vec<TokenKind<'a>>,
    locked: &'a [Vec<Modifier>],
) -> Result<(), AllocError>
    ensures { OnOk result (lexemes_of out.new.items ≡ lexemes_of out.old.items ++
        flat_map spell_locked (map bare_modifiers locked.now)) }
{
    for modifiers in locked {
        put_word(out, Word::Synchronized)?;
        put_modifiers(out, modifiers)?;
    }
    Ok(())
}

fn put_method<'a>(out: &mut Vec<TokenKind<'a>>, m: &'a Method) -> Result<(), AllocError>
    ensures { OnOk result (lexemes_of out.new.items ≡ lexemes_of out.old.items ++
        spell_member (a_method (map bare_modifier m.now.modifiers.items) (map bare_modifiers m.now.locked.items)
        (option_map bare_type m.now.result) (name_text m.now.name) (map bare_parameter m.now.parameters.items)
        (bare_block m.now.body))) }
{
    put_modifiers(out, &m.modifiers)?;
    put_locked(out, &m.locked)?;
    put_result(out, &m.result)?;
    put_name(out, &m.name)?;
    put_group(out, &m.parameters)?;
    put_block(out, &m.body.items)
}

fn put_constructor<'a>(out: &mut Vec<TokenKind<'a>>, c: &'a Constructor) -> Result<(), AllocError>
    ensures { OnOk result (lexemes_of out.new.items ≡ lexemes_of out.old.items ++
        spell_member (a_constructor (map bare_modifier c.now.modifiers.items) (name_text c.now.name)
        (map bare_parameter c.now.parameters.items) (bare_block c.now.body))) }
{
    put_modifiers(out, &c.modifiers)?;
    put_name(out, &c.name)?;
    put_group(out, &c.parameters)?;
    put_block(out, &c.body.items)
}

fn put_member<'a>(out: &mut Vec<TokenKind<'a>>, member: &'a Member) -> Result<(), AllocError>
    ensures { OnOk result (lexemes_of out.new.items ≡ lexemes_of out.old.items ++
        spell_member (bare_member member.now)) }
{
    match member {
        Member::Field(declaration) => put_declaration(out, declaration),
        Member::Method(m) => put_method(out, m),
        Member::Constructor(c) => put_constructor(out, c),
    }
}

fn put_members<'a>(out: &mut Vec<TokenKind<'a>>, members: &'a [Member]) -> Result<(), AllocError>
    ensures { OnOk result (lexemes_of out.new.items ≡ lexemes_of out.old.items ++
        flat_map spell_member (map bare_member members.now)) }
{
    for member in members {
        put_member(out, member)?;
    }
    Ok(())
}

fn put_class<'a>(out: &mut Vec<TokenKind<'a>>, class: &'a Class) -> Result<(), AllocError>
    ensures { OnOk result (lexemes_of out.new.items ≡ lexemes_of out.old.items ++ spell_class (bare_class class.now)) }
{
    put_modifiers(out, &class.modifiers)?;
    put_word(out, Word::Class)?;
    put_name(out, &class.name)?;
    put_sign(out, Sign::OpenBrace)?;
    put_members(out, &class.members)?;
    put_sign(out, Sign::CloseBrace)
}

/// Puts the tokens of classes after those in `out`. The only refusal is that memory ran out.
pub fn put_classes<'a>(out: &mut Vec<TokenKind<'a>>, classes: &'a [Class]) -> Result<(), AllocError>
    ensures { OnOk result (lexemes_of out.new.items ≡ lexemes_of out.old.items ++
        flat_map spell_class (map bare_class classes.now)) }
{
    for class in classes {
        put_class(out, class)?;
    }
    Ok(())
}

// The names after the first, each after a dot.
fn put_parts<'a>(out: &mut Vec<TokenKind<'a>>, parts: &'a [Name]) -> Result<(), AllocError>
    ensures { OnOk result (lexemes_of out.new.items ≡ lexemes_of out.old.items ++
        flat_map (λ name. Marked signs.Dot ∷ Named name ∷ []) (map name_text parts.now)) }
{
    for part in parts {
        put_sign(out, Sign::Dot)?;
        put_name(out, part)?;
    }
    Ok(())
}

fn put_dotted<'a>(out: &mut Vec<TokenKind<'a>>, dotted: &'a Dotted) -> Result<(), AllocError>
    ensures { OnOk result (lexemes_of out.new.items ≡ lexemes_of out.old.items ++
        spell_dotted (bare_dotted dotted.now)) }
{
    put_name(out, &dotted.first)?;
    put_parts(out, &dotted.more)
}

fn put_star(out: &mut Vec<TokenKind>, all: bool) -> Result<(), AllocError>
    ensures { OnOk result (lexemes_of out.new.items ≡ lexemes_of out.old.items ++ spell_all all) }
{
    if all {
        put_sign(out, Sign::Dot)?;
        put_sign(out, Sign::Star)
    } else {
        Ok(())
    }
}

fn put_import<'a>(out: &mut Vec<TokenKind<'a>>, line: &'a Import) -> Result<(), AllocError>
    ensures { OnOk result (lexemes_of out.new.items ≡ lexemes_of out.old.items ++ spell_import (bare_import line.now)) }
{
    put_word(out, Word::Import)?;
    put_dotted(out, &line.path)?;
    put_star(out, line.all)?;
    put_sign(out, Sign::Semicolon)
}

/// Puts the tokens of imports after those in `out`. The only refusal is that memory ran out.
pub fn put_imports<'a>(
    out: &mut Vec<TokenKind<'a>>,
    imports: &'a [Import],
) -> Result<(), AllocError>
    ensures { OnOk result (lexemes_of out.new.items ≡ lexemes_of out.old.items ++
        flat_map spell_import (map bare_import imports.now)) }
{
    for line in imports {
        put_import(out, line)?;
    }
    Ok(())
}

/// Puts the tokens of a package, if there is one, after those in `out`. The only refusal is that memory ran out.
pub fn put_package<'a>(
    out: &mut Vec<TokenKind<'a>>,
    name: &'a Option<Dotted>,
) -> Result<(), AllocError>
    ensures { OnOk result (lexemes_of out.new.items ≡ lexemes_of out.old.items ++
        spell_package (option_map bare_dotted name.now)) }
{
    match name {
        Some(dotted) => {
            put_word(out, Word::Package)?;
            put_dotted(out, dotted)?;
            put_sign(out, Sign::Semicolon)
        }
        None => Ok(()),
    }
}
