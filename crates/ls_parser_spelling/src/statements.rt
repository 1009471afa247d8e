// The tokens of statements and blocks.

ghost use Rattle.std.specs.Prelude.{◌≡◌, ◌++◌, ◌∷◌, [], OnOk, map, option_map};
ghost use Rattle.ls_lexer.specs.Lexemes.{Reserved, Marked};
ghost use Rattle.ls_lexer.specs.declared.sign.Sign.TheVariants as signs;
ghost use Rattle.ls_lexer.specs.declared.word.Word.TheVariants as words;
ghost use Rattle.ls_parser_spelling.specs.Kinds.{lexemes_of};
ghost use Rattle.ls_tree.specs.Trees.{While as while_loop, For as for_loop, Try as try_finally};
ghost use Rattle.ls_tree.specs.Trees.{Synchronized as locking};
ghost use Rattle.ls_tree.specs.Views.{name_text, bare, bare_simple, bare_opening, bare_statement, bare_other};
ghost use Rattle.ls_tree.specs.Views.{bare_piece, if_of, items_of};
ghost use Rattle.ls_parser_spelling.specs.Spelling.{in_parens, in_braces, spell_expression, spell_label};
ghost use Rattle.ls_parser_spelling.specs.Spelling.{spell_label_before, spell_value, spell_statement, spell_items};
ghost use Rattle.ls_parser_spelling.specs.Spelling.{spell_piece};

use crate::declarations::put_declaration;
use crate::expressions::{put_expression, put_value};
use crate::kinds::{put_name, put_sign, put_word};
use crate::simples::{put_head, put_simple};
use ls_lexer::sign::Sign;
use ls_lexer::token::TokenKind;
use ls_lexer::word::Word;
use ls_tree::tree::{BlockItem, Expression, Name, Opening, Simple, Statement};
use std::alloc::AllocError;

fn put_condition<'a>(
    out: &mut Vec<TokenKind<'a>>,
    condition: &'a Expression,
) -> Result<(), AllocError>
    ensures { OnOk result (lexemes_of out.new.items ≡ lexemes_of out.old.items ++
        in_parens (spell_expression (bare condition.now))) }
{
    put_sign(out, Sign::OpenParen)?;
    put_expression(out, condition)?;
    put_sign(out, Sign::CloseParen)
}

fn put_label<'a>(out: &mut Vec<TokenKind<'a>>, label: &'a Option<Name>) -> Result<(), AllocError>
    ensures { OnOk result (lexemes_of out.new.items ≡ lexemes_of out.old.items ++
        spell_label (option_map name_text label.now)) }
{
    match label {
        Some(name) => put_name(out, name),
        None => Ok(()),
    }
}

// The label in front of a loop, with its colon.
fn put_label_before<'a>(
    out: &mut Vec<TokenKind<'a>>,
    label: &'a Option<Name>,
) -> Result<(), AllocError>
    ensures { OnOk result (lexemes_of out.new.items ≡ lexemes_of out.old.items ++
        spell_label_before (option_map name_text label.now)) }
{
    match label {
        Some(name) => {
            put_name(out, name)?;
            put_sign(out, Sign::Colon)
        }
        None => Ok(()),
    }
}

fn put_jump<'a>(
    out: &mut Vec<TokenKind<'a>>,
    word: Word,
    label: &'a Option<Name>,
) -> Result<(), AllocError>
    ensures { OnOk result (lexemes_of out.new.items ≡ lexemes_of out.old.items ++ Reserved word ∷
        (spell_label (option_map name_text label.now) ++ Marked signs.Semicolon ∷ [])) }
{
    put_word(out, word)?;
    put_label(out, label)?;
    put_sign(out, Sign::Semicolon)
}

fn put_return<'a>(
    out: &mut Vec<TokenKind<'a>>,
    value: &'a Option<Expression>,
) -> Result<(), AllocError>
    ensures { OnOk result (lexemes_of out.new.items ≡ lexemes_of out.old.items ++ Reserved words.Return ∷
        (spell_value (option_map bare value.now) ++ Marked signs.Semicolon ∷ [])) }
{
    put_word(out, Word::Return)?;
    put_value(out, value)?;
    put_sign(out, Sign::Semicolon)
}

#[cycle(statements)]
fn put_statement<'a>(out: &mut Vec<TokenKind<'a>>, s: &'a Statement) -> Result<(), AllocError>
    ensures { OnOk result (lexemes_of out.new.items ≡ lexemes_of out.old.items ++
        spell_statement (bare_statement s.now)) }
{
    match s {
        Statement::Block(block) => put_block(out, &block.items),
        Statement::Empty(_) => put_sign(out, Sign::Semicolon),
        Statement::If {
            condition,
            then,
            otherwise,
            ..
        } => put_if(out, condition, then, otherwise),
        Statement::While {
            label,
            condition,
            body,
            ..
        } => put_while(out, label, condition, body),
        Statement::For {
            label,
            opening,
            condition,
            updates,
            body,
            ..
        } => put_for(out, label, opening, condition, updates, body),
        Statement::Break { label, .. } => put_jump(out, Word::Break, label),
        Statement::Continue { label, .. } => put_jump(out, Word::Continue, label),
        Statement::Return { value, .. } => put_return(out, value),
        Statement::Try { body, finally, .. } => put_try(out, &body.items, &finally.items),
        Statement::Synchronized { target, body, .. } => put_synchronized(out, target, &body.items),
        Statement::Simple { simple, .. } => {
            put_simple(out, simple)?;
            put_sign(out, Sign::Semicolon)
        }
    }
}

#[cycle(statements)]
fn put_if<'a>(
    out: &mut Vec<TokenKind<'a>>,
    condition: &'a Expression,
    then: &'a Statement,
    otherwise: &'a Option<Box<Statement>>,
) -> Result<(), AllocError>
    ensures { OnOk result (lexemes_of out.new.items ≡ lexemes_of out.old.items ++
        spell_statement (if_of (bare condition.now) (bare_statement then.now) (bare_other otherwise.now))) }
{
    put_word(out, Word::If)?;
    put_condition(out, condition)?;
    put_statement(out, then)?;
    if let Some(other) = otherwise {
        put_word(out, Word::Else)?;
        put_statement(out, other)?;
    }
    Ok(())
}

#[cycle(statements)]
fn put_while<'a>(
    out: &mut Vec<TokenKind<'a>>,
    label: &'a Option<Name>,
    condition: &'a Expression,
    body: &'a Statement,
) -> Result<(), AllocError>
    ensures { OnOk result (lexemes_of out.new.items ≡ lexemes_of out.old.items ++
        spell_statement (while_loop (option_map name_text label.now) (bare condition.now) (bare_statement body.now))) }
{
    put_label_before(out, label)?;
    put_word(out, Word::While)?;
    put_condition(out, condition)?;
    put_statement(out, body)
}

#[cycle(statements)]
fn put_for<'a>(
    out: &mut Vec<TokenKind<'a>>,
    label: &'a Option<Name>,
    opening: &'a Opening,
    condition: &'a Option<Expression>,
    updates: &'a [Simple],
    body: &'a Statement,
) -> Result<(), AllocError>
    ensures { OnOk result (lexemes_of out.new.items ≡ lexemes_of out.old.items ++
        spell_statement
        (for_loop (option_map name_text label.now) (bare_opening opening.now) (option_map bare condition.now)
        (map bare_simple updates.now) (bare_statement body.now))) }
{
    put_label_before(out, label)?;
    put_word(out, Word::For)?;
    put_head(out, opening, condition, updates)?;
    put_statement(out, body)
}

#[cycle(statements)]
fn put_try<'a>(
    out: &mut Vec<TokenKind<'a>>,
    body: &'a [BlockItem],
    finally: &'a [BlockItem],
) -> Result<(), AllocError>
    ensures { OnOk result (lexemes_of out.new.items ≡ lexemes_of out.old.items ++
        spell_statement (try_finally (items_of body.now) (items_of finally.now))) }
{
    put_word(out, Word::Try)?;
    put_block(out, body)?;
    put_word(out, Word::Finally)?;
    put_block(out, finally)
}

#[cycle(statements)]
fn put_synchronized<'a>(
    out: &mut Vec<TokenKind<'a>>,
    target: &'a Expression,
    body: &'a [BlockItem],
) -> Result<(), AllocError>
    ensures { OnOk result (lexemes_of out.new.items ≡ lexemes_of out.old.items ++
        spell_statement (locking (bare target.now) (items_of body.now))) }
{
    put_word(out, Word::Synchronized)?;
    put_condition(out, target)?;
    put_block(out, body)
}

/// Statements and declarations in braces. The only refusal is that memory ran out.
#[cycle(statements)]
pub fn put_block<'a>(out: &mut Vec<TokenKind<'a>>, items: &'a [BlockItem]) -> Result<(), AllocError>
    ensures { OnOk result (lexemes_of out.new.items ≡ lexemes_of out.old.items ++
        in_braces (spell_items (items_of items.now))) }
{
    put_sign(out, Sign::OpenBrace)?;
    put_items(out, items)?;
    put_sign(out, Sign::CloseBrace)
}

#[cycle(statements)]
fn put_items<'a>(out: &mut Vec<TokenKind<'a>>, items: &'a [BlockItem]) -> Result<(), AllocError>
    ensures { OnOk result (lexemes_of out.new.items ≡ lexemes_of out.old.items ++ spell_items (items_of items.now)) }
{
    for item in items {
        put_item(out, item)?;
    }
    Ok(())
}

#[cycle(statements)]
fn put_item<'a>(out: &mut Vec<TokenKind<'a>>, item: &'a BlockItem) -> Result<(), AllocError>
    ensures { OnOk result (lexemes_of out.new.items ≡ lexemes_of out.old.items ++ spell_piece (bare_piece item.now)) }
{
    match item {
        BlockItem::Statement(s) => put_statement(out, s),
        BlockItem::Declaration(declaration) => put_declaration(out, declaration),
    }
}
