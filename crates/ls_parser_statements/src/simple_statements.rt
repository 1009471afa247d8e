// Statements that contain no statement, and parts of the other statements.

ghost use Rattle.std.specs.Prelude.{◌≡◌, ◌+◌, ◌-◌, ◌<◌, ◌≤◌, ◌^◌, ◌∷◌, List, IfOk, IfSome, Some, option_map};
ghost use Rattle.ls_lexer.specs.Lexemes.{Named};
ghost use Rattle.ls_lexer.specs.declared.word.Word.TheVariants as words;
ghost use Rattle.ls_lexer.specs.Lexemes.{lexemes};
ghost use Rattle.ls_lexer.specs.declared.sign.Sign.TheVariants as signs;
ghost use Rattle.ls_tree.specs.Trees as trees;
ghost use Rattle.ls_tree.specs.WellFormed.{expression_height, value_height, declaration_height, statement_height};
ghost use Rattle.ls_tree.specs.WellFormed.{piece_height};
ghost use Rattle.ls_tree.specs.Views.{name_text, bare, bare_declaration, bare_statement, bare_piece, bare_block};
ghost use Rattle.ls_tree.specs.PlacedTrees as placed_trees;
ghost use Rattle.ls_tree.specs.Placed.{placed, placed_name};
ghost use Rattle.ls_tree.specs.PlacedStatements.{placed_declaration, placed_statement, placed_before, placed_items};
ghost use Rattle.ls_parser_spelling.specs.Places.{Spot, spot, sign, spots, At};
ghost use Rattle.ls_parser_spelling.specs.StatementPlaces.{word, DeclarationAt, ConditionAt, JumpAt, ReturnedAt};
ghost use Rattle.ls_parser_spelling.specs.StatementPlaces.{StatementAt, ItemsAt};
ghost use Rattle.ls_parser_tokens.specs.Answers.{ReadsAs, Finds};
ghost use Rattle.ls_parser_expressions.specs.ReadingExpressions.{expression_at};
ghost use Rattle.ls_parser_statements.specs.ReadingStatements.{local_at, condition_at, jump_at, ended_at, value_at};
ghost use Rattle.ls_parser_statements.specs.ReadingStatements.{label_at, declared_at, break_at, continue_at};
ghost use Rattle.ls_parser_statements.specs.ReadingStatements.{return_at};

use ls_lexer::fault::TextFault;
use ls_lexer::sign::Sign;
use ls_lexer::token::{Span, Token};
use ls_lexer::word::Word;
use ls_parser_declarations::declarations::declaration;
use ls_parser_expressions::expressions::binary;
use ls_parser_tokens::tokens::{
    Context, Enclosed, NamePart, Part, closed_part, expect, make_name, name_part, sign_part,
    too_deep, upto,
};
use ls_tree::tree::{Block, BlockItem, Declaration, Expression, Name, Statement};
use std::alloc::AllocError;

/// A local declaration of at most this height.
#[tactic(auto, using(crate::proofs::StatementSteps::local_zero, crate::proofs::StatementSteps::local_step))]
pub fn local_declaration<'t, 'a>(
    context: Context,
    tokens: &'t [Token<'a>],
    limit: usize,
) -> Result<Part<'t, 'a, Declaration>, TextFault>
    ensures read { ReadsAs (λ p. (bare_declaration p.tree, lexemes p.rest.now)) result
        (local_at limit (lexemes tokens.now)) }
    ensures places { IfOk result
        (λ p. DeclarationAt (placed_declaration p.tree) (spots tokens.now) (spots p.rest.now)) }
    ensures height { IfOk result (λ p. (p.height ≡ declaration_height (bare_declaration p.tree)) × (p.height ≤ limit)) }
{
    if limit == 0 {
        return Err(too_deep(context, tokens));
    }
    let found = declaration(context, tokens, limit - 1)?;
    Ok(Part {
        tree: found.tree,
        height: found.height + 1,
        rest: found.rest,
    })
}

/// A local declaration of at most this height, as an item of a block.
#[tactic(auto, using(crate::proofs::Places::one_declaration))]
pub fn local<'t, 'a>(
    context: Context,
    tokens: &'t [Token<'a>],
    limit: usize,
) -> Result<Part<'t, 'a, BlockItem>, TextFault>
    ensures read { ReadsAs (λ p. (bare_piece p.tree, lexemes p.rest.now)) result
        (declared_at (local_at limit) (lexemes tokens.now)) }
    ensures places { IfOk result
        (λ p. ItemsAt (placed_before p.tree placed_trees.NoItem) (spots tokens.now) (spots p.rest.now)) }
    ensures height { IfOk result (λ p. (p.height ≡ piece_height (bare_piece p.tree)) × (p.height ≤ limit)) }
{
    let found = local_declaration(context, tokens, limit)?;
    Ok(Part {
        tree: BlockItem::Declaration(found.tree),
        height: found.height,
        rest: found.rest,
    })
}

/// An expression in parentheses.
pub fn condition<'t, 'a>(
    context: Context,
    tokens: &'t [Token<'a>],
    limit: usize,
) -> Result<Enclosed<'t, 'a, Expression>, TextFault>
    ensures read { ReadsAs (λ p. (bare p.tree, lexemes p.rest.now)) result
        (condition_at (expression_at limit) (lexemes tokens.now)) }
    ensures places { IfOk result (λ p. ConditionAt (placed p.tree) (spots tokens.now) (spots p.rest.now)) }
    ensures height { IfOk result (λ p. (p.height ≡ expression_height (bare p.tree)) × (p.height ≤ limit)) }
{
    let open = expect(context, tokens, Sign::OpenParen)?;
    let condition = binary(context, open.rest, 6, limit)?;
    closed_part(context, condition, Sign::CloseParen)
}

/// Where `break` or `continue` leads: a label or none, the span of the semicolon after it, and the tokens after the
/// semicolon.
#[derive(Drop)]
pub struct Jump<'t, 'a> {
    pub label: Option<Name>,
    pub end: Span,
    pub rest: &'t [Token<'a>],
}

/// A label or none, and a semicolon.
#[tactic(auto, using(crate::proofs::Places::bare_jump_is, crate::proofs::Places::jump_is))]
pub fn jump_part<'t, 'a>(
    context: Context,
    tokens: &'t [Token<'a>],
) -> Result<Jump<'t, 'a>, TextFault>
    ensures read { ReadsAs (λ j. (option_map name_text j.label, lexemes j.rest.now)) result
        (jump_at (lexemes tokens.now)) }
    ensures places { IfOk result
        (λ j. JumpAt (option_map placed_name j.label) j.end (spots tokens.now) (spots j.rest.now)) }
{
    match name_part(tokens) {
        Some(found) => {
            let end = expect(context, found.rest, Sign::Semicolon)?;
            let label = make_name(context, found.text, found.span)?;
            Ok(Jump {
                label: Some(label),
                end: end.span,
                rest: end.rest,
            })
        }
        None => {
            let end = expect(context, tokens, Sign::Semicolon)?;
            Ok(Jump {
                label: None,
                end: end.span,
                rest: end.rest,
            })
        }
    }
}

/// A `break`, of which the word is read. Refused if no label or semicolon comes, or if memory runs out.
#[tactic(auto, using(ls_parser_spelling::specs::StatementPlaces::break_at))]
pub fn break_statement<'t, 'a>(
    context: Context,
    start: Span,
    tokens: &'t [Token<'a>],
) -> Result<Part<'t, 'a, Statement>, TextFault>
    ensures read { ReadsAs (λ p. (bare_statement p.tree, lexemes p.rest.now)) result (break_at (lexemes tokens.now)) }
    ensures places { IfOk result (λ p. StatementAt (placed_statement p.tree) (word words.Break start ∷ spots tokens.now)
        (spots p.rest.now)) }
    ensures height { IfOk result (λ p. (p.height ≡ statement_height (bare_statement p.tree)) × (p.height ≡ 1)) }
{
    let jump = jump_part(context, tokens)?;
    Ok(Part {
        tree: Statement::Break {
            label: jump.label,
            span: upto(start, jump.end),
        },
        height: 1,
        rest: jump.rest,
    })
}

/// A `continue`, of which the word is read. Refused if no label or semicolon comes, or if memory runs out.
#[tactic(auto, using(ls_parser_spelling::specs::StatementPlaces::continue_at))]
pub fn continue_statement<'t, 'a>(
    context: Context,
    start: Span,
    tokens: &'t [Token<'a>],
) -> Result<Part<'t, 'a, Statement>, TextFault>
    ensures read { ReadsAs (λ p. (bare_statement p.tree, lexemes p.rest.now)) result
        (continue_at (lexemes tokens.now)) }
    ensures places { IfOk result
        (λ p. StatementAt (placed_statement p.tree) (word words.Continue start ∷ spots tokens.now) (spots p.rest.now)) }
    ensures height { IfOk result (λ p. (p.height ≡ statement_height (bare_statement p.tree)) × (p.height ≡ 1)) }
{
    let jump = jump_part(context, tokens)?;
    Ok(Part {
        tree: Statement::Continue {
            label: jump.label,
            span: upto(start, jump.end),
        },
        height: 1,
        rest: jump.rest,
    })
}

// An expression and a semicolon.
fn ended<'t, 'a>(
    context: Context,
    tokens: &'t [Token<'a>],
    limit: usize,
) -> Result<Enclosed<'t, 'a, Expression>, TextFault>
    ensures read { ReadsAs (λ p. (bare p.tree, lexemes p.rest.now)) result
        (ended_at (expression_at limit) (lexemes tokens.now)) }
    ensures places { IfOk result
        (λ p. At (placed p.tree) (spots tokens.now) (sign signs.Semicolon p.end ∷ spots p.rest.now)) }
    ensures height { IfOk result (λ p. (p.height ≡ expression_height (bare p.tree)) × (p.height ≤ limit)) }
{
    let value = binary(context, tokens, 6, limit)?;
    closed_part(context, value, Sign::Semicolon)
}

/// A value or none, and a semicolon.
#[tactic(auto, using(crate::proofs::Places::nothing_is, crate::proofs::Places::returned_is))]
pub fn value_part<'t, 'a>(
    context: Context,
    tokens: &'t [Token<'a>],
    limit: usize,
) -> Result<Enclosed<'t, 'a, Option<Expression>>, TextFault>
    ensures read { ReadsAs (λ p. (option_map bare p.tree, lexemes p.rest.now)) result
        (value_at (expression_at limit) (lexemes tokens.now)) }
    ensures places { IfOk result
        (λ p. ReturnedAt (option_map placed p.tree) p.end (spots tokens.now) (spots p.rest.now)) }
    ensures height { IfOk result (λ p. (p.height ≡ value_height (option_map bare p.tree)) × (p.height ≤ limit)) }
{
    if let Some(end) = sign_part(tokens, Sign::Semicolon) {
        return Ok(Enclosed {
            tree: None,
            height: 0,
            end: end.span,
            rest: end.rest,
        });
    }
    let value = ended(context, tokens, limit)?;
    Ok(Enclosed {
        tree: Some(value.tree),
        height: value.height,
        end: value.end,
        rest: value.rest,
    })
}

/// A `return`, of which the word is read. Refused if no value or semicolon comes, if the value is too high, or if
/// memory runs out.
#[tactic(auto, using(ls_parser_spelling::specs::StatementPlaces::return_at))]
pub fn return_statement<'t, 'a>(
    context: Context,
    start: Span,
    tokens: &'t [Token<'a>],
    limit: usize,
) -> Result<Part<'t, 'a, Statement>, TextFault>
    requires { limit + 1 < 2 ^ 64 }
    ensures read { ReadsAs (λ p. (bare_statement p.tree, lexemes p.rest.now)) result
        (return_at (expression_at limit) (lexemes tokens.now)) }
    ensures places { IfOk result
        (λ p. StatementAt (placed_statement p.tree) (word words.Return start ∷ spots tokens.now) (spots p.rest.now)) }
    ensures height { IfOk result (λ p. (p.height ≡ statement_height (bare_statement p.tree)) × (p.height ≤ limit + 1)) }
{
    let value = value_part(context, tokens, limit)?;
    Ok(Part {
        tree: Statement::Return {
            value: value.tree,
            span: upto(start, value.end),
        },
        height: value.height + 1,
        rest: value.rest,
    })
}

/// A block as a statement.
pub fn block_tree(block: Block) -> Statement
    ensures read { bare_statement result ≡ trees.Block (bare_block block) }
    ensures places { placed_statement result ≡ placed_trees.Block (placed_items block.items.items) }
{
    Statement::Block(block)
}

/// A `try` with its block and its `finally` block.
pub fn try_tree(body: Block, finally: Block, span: Span) -> Statement
    ensures read { bare_statement result ≡ trees.Try (bare_block body) (bare_block finally) }
    ensures places { placed_statement result ≡
        placed_trees.Try (placed_items body.items.items) (placed_items finally.items.items) }
{
    Statement::Try {
        body,
        finally,
        span,
    }
}

/// A `synchronized` statement.
pub fn synchronized_tree(target: Expression, body: Block, span: Span) -> Statement
    ensures read { bare_statement result ≡ trees.Synchronized (bare target) (bare_block body) }
    ensures places { placed_statement result ≡
        placed_trees.Synchronized (placed target) (placed_items body.items.items) }
{
    Statement::Synchronized { target, body, span }
}

/// A name and a colon, and the tokens after the colon.
pub fn label_part<'t, 'a>(tokens: &'t [Token<'a>]) -> Option<NamePart<'t, 'a>>
    ensures read { Finds (λ l. (l.text.now, lexemes l.rest.now)) result (label_at (lexemes tokens.now)) }
    ensures places { IfSome result
        (λ l. (colon : Span) ×
        (spots tokens.now ≡ spot (Named l.text.now) l.span ∷ sign signs.Colon colon ∷ spots l.rest.now)) }
{
    let found = name_part(tokens)?;
    let colon = sign_part(found.rest, Sign::Colon)?;
    Some(NamePart {
        text: found.text,
        span: found.span,
        rest: colon.rest,
    })
}
