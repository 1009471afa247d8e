// Statements and blocks.

ghost use Rattle.std.specs.Prelude.{◌≡◌, ◌+◌, ◌-◌, ◌<◌, ◌≤◌, ◌^◌, ◌∷◌, List, IfOk, Some, map, option_map, false};
ghost use Rattle.ls_lexer.specs.declared.word.Word.TheVariants as words;
ghost use Rattle.ls_lexer.specs.Lexemes.{Named, lexeme_of, lexemes};
ghost use Rattle.ls_lexer.specs.declared.sign.Sign.TheVariants as signs;
ghost use Rattle.ls_tree.specs.Trees as trees;
ghost use Rattle.ls_tree.specs.WellFormed.{statement_height, items_height, piece_height};
ghost use Rattle.ls_tree.specs.Views.{name_text, bare_statement, bare_piece, items_of, bare_block};
ghost use Rattle.ls_tree.specs.PlacedTrees as placed_trees;
ghost use Rattle.ls_tree.specs.Placed.{placed_name};
ghost use Rattle.ls_tree.specs.PlacedStatements.{placed_statement, placed_before, placed_items};
ghost use Rattle.ls_parser_spelling.specs.Places.{Spot, spot, sign, spots};
ghost use Rattle.ls_parser_spelling.specs.StatementPlaces.{word, LabelAt, StatementAt, BlockAt, ItemsAt};
ghost use Rattle.ls_parser_tokens.specs.Answers.{ReadsAs};
ghost use Rattle.ls_parser_tokens.specs.Reading.{one_more, many_at, not_yet};
ghost use Rattle.ls_parser_expressions.specs.ReadingExpressions.{expression_at, post_at};
ghost use Rattle.ls_parser_statements.specs.ReadingStatements.{piece_at, local_at, head_in, if_at, while_at, for_at};
ghost use Rattle.ls_parser_statements.specs.ReadingStatements.{loop_at, try_at, simple_from, synchronized_at};
ghost use Rattle.ls_parser_statements.specs.ReadingStatements.{other_at, first_of, begun_at, statement_at, block_at};
ghost use Rattle.ls_parser_statements.specs.ReadingStatements.{block_in};

use crate::simple_statements::{
    block_tree, break_statement, condition, continue_statement, label_part, local,
    return_statement, synchronized_tree, try_tree,
};
use crate::simples::{head, performed};
use ls_lexer::fault::TextFault;
use ls_lexer::sign::Sign;
use ls_lexer::token::{Span, Token, TokenKind};
use ls_lexer::word::Word;
use ls_parser_declarations::declarations::starts_declaration;
use ls_parser_tokens::tokens::{
    Context, NamePart, Part, boxed_part, closed_part, else_part, expect, expect_word, make_name,
    push, span_to, starts_with, syntax, too_deep, word_part,
};
use ls_tree::tree::{Block, BlockItem, Name, Statement};
use std::alloc::AllocError;

#[cycle(statements)]
#[tactic(auto, using(crate::proofs::StatementSteps::statement_step, crate::proofs::StatementSteps::statement_nothing, crate::proofs::StatementSteps::statement_zero))]
fn statement<'t, 'a>(
    context: Context,
    tokens: &'t [Token<'a>],
    limit: usize,
) -> Result<Part<'t, 'a, Statement>, TextFault>
    ensures read { ReadsAs (λ p. (bare_statement p.tree, lexemes p.rest.now)) result
        (statement_at limit (lexemes tokens.now)) }
    ensures places { IfOk result (λ p. StatementAt (placed_statement p.tree) (spots tokens.now) (spots p.rest.now)) }
    ensures height { IfOk result (λ p. (p.height ≡ statement_height (bare_statement p.tree)) × (p.height ≤ limit)) }
{
    if limit == 0 {
        return Err(too_deep(context, tokens));
    }
    match tokens.split_first() {
        Some((token, rest)) => begun(context, tokens, token, rest, limit - 1),
        None => Err(syntax(context, tokens)),
    }
}

// The statement that a token begins. The limit is that of the parts of the statement.
#[cycle(statements)]
#[tactic(auto, using(crate::proofs::StatementSteps::block_next, crate::proofs::Places::empty_is, crate::proofs::Places::loop_is))]
fn begun<'t, 'a>(
    context: Context,
    all: &'t [Token<'a>],
    token: &Token<'a>,
    rest: &'t [Token<'a>],
    limit: usize,
) -> Result<Part<'t, 'a, Statement>, TextFault>
    requires limit { limit + 1 < 2 ^ 64 }
    requires begins { spots all.now ≡ spot (lexeme_of token.now.kind) token.now.span ∷ spots rest.now }
    ensures read { ReadsAs (λ p. (bare_statement p.tree, lexemes p.rest.now)) result
        (begun_at limit (first_of (lexeme_of token.now.kind)) (lexemes all.now) (lexemes rest.now)) }
    ensures places { IfOk result (λ p. StatementAt (placed_statement p.tree) (spots all.now) (spots p.rest.now)) }
    ensures height { IfOk result (λ p. (p.height ≡ statement_height (bare_statement p.tree)) × (p.height ≤ limit + 1)) }
{
    match token.kind {
        TokenKind::Sign(Sign::Semicolon) => Ok(Part {
            tree: Statement::Empty(token.span),
            height: 1,
            rest,
        }),
        TokenKind::Sign(Sign::OpenBrace) => block_statement(context, all, limit + 1),
        TokenKind::Word(Word::If) => if_statement(context, all, rest, limit),
        TokenKind::Word(Word::While) => while_statement(context, all, None, rest, limit),
        TokenKind::Word(Word::For) => for_statement(context, all, None, rest, limit),
        TokenKind::Word(Word::Break) => break_statement(context, token.span, rest),
        TokenKind::Word(Word::Continue) => continue_statement(context, token.span, rest),
        TokenKind::Word(Word::Return) => return_statement(context, token.span, rest, limit),
        TokenKind::Word(Word::Try) => try_statement(context, all, rest, limit),
        TokenKind::Word(Word::Synchronized) => synchronized_statement(context, all, rest, limit),
        _ => other_statement(context, all, limit),
    }
}

#[cycle(statements)]
#[tactic(auto, using(crate::proofs::Places::block_statement_is))]
fn block_statement<'t, 'a>(
    context: Context,
    tokens: &'t [Token<'a>],
    limit: usize,
) -> Result<Part<'t, 'a, Statement>, TextFault>
    requires { 0 < limit }
    ensures read { ReadsAs (λ p. (bare_statement p.tree, lexemes p.rest.now)) result
        (block_in (block_at limit) (lexemes tokens.now)) }
    ensures places { IfOk result (λ p. StatementAt (placed_statement p.tree) (spots tokens.now) (spots p.rest.now)) }
    ensures height { IfOk result (λ p. (p.height ≡ statement_height (bare_statement p.tree)) × (p.height ≤ limit)) }
{
    let block = block(context, tokens, limit)?;
    Ok(Part {
        tree: block_tree(block.tree),
        height: block.height,
        rest: block.rest,
    })
}

/// Statements and local declarations in braces.
#[cycle(statements)]
#[tactic(auto, using(crate::proofs::StatementSteps::block_zero, crate::proofs::StatementSteps::block_step, crate::proofs::Places::block_is))]
pub fn block<'t, 'a>(
    context: Context,
    tokens: &'t [Token<'a>],
    limit: usize,
) -> Result<Part<'t, 'a, Block>, TextFault>
    ensures read { ReadsAs (λ p. (bare_block p.tree, lexemes p.rest.now)) result (block_at limit (lexemes tokens.now)) }
    ensures places { IfOk result
        (λ p. BlockAt (placed_items p.tree.items.items) (spots tokens.now) (spots p.rest.now)) }
    ensures height { IfOk result (λ p. (p.height ≡ items_height (bare_block p.tree) + 1) × (p.height ≤ limit)) }
{
    if limit == 0 {
        return Err(too_deep(context, tokens));
    }
    let open = expect(context, tokens, Sign::OpenBrace)?;
    let items = block_items(context, open.rest, limit - 1)?;
    let items = closed_part(context, items, Sign::CloseBrace)?;
    Ok(Part {
        tree: Block {
            items: items.tree,
            span: span_to(tokens, items.rest),
        },
        height: items.height + 1,
        rest: items.rest,
    })
}

#[cycle(statements)]
#[tactic(auto, using(crate::proofs::Places::items_none))]
fn block_items<'t, 'a>(
    context: Context,
    tokens: &'t [Token<'a>],
    limit: usize,
) -> Result<Part<'t, 'a, Vec<BlockItem>>, TextFault>
    ensures read { ReadsAs (λ p. (map bare_piece p.tree.items, lexemes p.rest.now)) result
        (many_at (not_yet signs.CloseBrace) (piece_at (local_at limit) (statement_at limit)) (lexemes tokens.now)) }
    ensures places { IfOk result (λ p. ItemsAt (placed_items p.tree.items) (spots tokens.now) (spots p.rest.now)) }
    ensures height { IfOk result (λ p. (p.height ≡ items_height (items_of p.tree.items)) × (p.height ≤ limit)) }
{
    let mut all = Part {
        tree: Vec::new(context.alloc),
        height: 0,
        rest: tokens,
    };
    while !starts_with(all.rest, Sign::CloseBrace) {
        all = one_item(context, all, limit)?;
    }
    Ok(all)
}

#[cycle(statements)]
#[tactic(auto, using(ls_parser_expressions::proofs::Rows::map_push, crate::proofs::StatementRows::collected_height_push, crate::proofs::Places::items_pushed))]
fn one_item<'t, 'a>(
    context: Context,
    before: Part<'t, 'a, Vec<BlockItem>>,
    limit: usize,
) -> Result<Part<'t, 'a, Vec<BlockItem>>, TextFault>
    requires height { (before.height ≡ items_height (items_of before.tree.items)) × (before.height ≤ limit) }
    ensures read { ReadsAs (λ p. (map bare_piece p.tree.items, lexemes p.rest.now)) result
        (one_more (piece_at (local_at limit) (statement_at limit)) (map bare_piece before.entry.tree.items)
        (lexemes before.entry.rest.now)) }
    ensures places { IfOk result (λ p. (ss : List Spot) →
        ItemsAt (placed_items before.entry.tree.items) ss (spots before.entry.rest.now) →
        ItemsAt (placed_items p.tree.items) ss (spots p.rest.now)) }
    ensures height { IfOk result (λ p. (p.height ≡ items_height (items_of p.tree.items)) × (p.height ≤ limit)) }
{
    let item = block_item(context, before.rest, limit)?;
    Ok(Part {
        tree: push(before.tree, item.tree)?,
        height: before.height.max(item.height),
        rest: item.rest,
    })
}

#[cycle(statements)]
#[tactic(auto, using(crate::proofs::Places::one_statement))]
fn block_item<'t, 'a>(
    context: Context,
    tokens: &'t [Token<'a>],
    limit: usize,
) -> Result<Part<'t, 'a, BlockItem>, TextFault>
    ensures read { ReadsAs (λ p. (bare_piece p.tree, lexemes p.rest.now)) result
        (piece_at (local_at limit) (statement_at limit) (lexemes tokens.now)) }
    ensures places { IfOk result
        (λ p. ItemsAt (placed_before p.tree placed_trees.NoItem) (spots tokens.now) (spots p.rest.now)) }
    ensures height { IfOk result (λ p. (p.height ≡ piece_height (bare_piece p.tree)) × (p.height ≤ limit)) }
{
    if starts_declaration(tokens) {
        return local(context, tokens, limit);
    }
    let found = statement(context, tokens, limit)?;
    Ok(Part {
        tree: BlockItem::Statement(found.tree),
        height: found.height,
        rest: found.rest,
    })
}

#[cycle(statements)]
fn boxed_statement<'t, 'a>(
    context: Context,
    tokens: &'t [Token<'a>],
    limit: usize,
) -> Result<Part<'t, 'a, Box<Statement>>, TextFault>
    ensures read { ReadsAs (λ p. (bare_statement p.tree.value, lexemes p.rest.now)) result
        (statement_at limit (lexemes tokens.now)) }
    ensures places { IfOk result
        (λ p. StatementAt (placed_statement p.tree.value) (spots tokens.now) (spots p.rest.now)) }
    ensures height { IfOk result (λ p. (p.height ≡ statement_height (bare_statement p.tree.value)) ×
        (p.height ≤ limit)) }
{
    let found = statement(context, tokens, limit)?;
    Ok(boxed_part(context.alloc, found)?)
}

#[cycle(statements)]
#[tactic(auto, using(crate::proofs::Places::if_is, crate::proofs::Places::if_else_is))]
fn if_statement<'t, 'a>(
    context: Context,
    all: &'t [Token<'a>],
    tokens: &'t [Token<'a>],
    limit: usize,
) -> Result<Part<'t, 'a, Statement>, TextFault>
    requires { limit + 1 < 2 ^ 64 }
    ensures read { ReadsAs (λ p. (bare_statement p.tree, lexemes p.rest.now)) result
        (if_at (expression_at limit) (statement_at limit) (lexemes tokens.now)) }
    ensures places { IfOk result (λ p. (s : Span) →
        StatementAt (placed_statement p.tree) (word words.If s ∷ spots tokens.now) (spots p.rest.now)) }
    ensures height { IfOk result (λ p. (p.height ≡ statement_height (bare_statement p.tree)) × (p.height ≤ limit + 1)) }
{
    let condition = condition(context, tokens, limit)?;
    let first = boxed_statement(context, condition.rest, limit)?;
    match else_part(first.rest) {
        Some(other) => {
            let second = boxed_statement(context, other.rest, limit)?;
            Ok(Part {
                tree: Statement::If {
                    condition: condition.tree,
                    then: first.tree,
                    otherwise: Some(second.tree),
                    span: span_to(all, second.rest),
                },
                height: condition.height.max(first.height).max(second.height) + 1,
                rest: second.rest,
            })
        }
        None => Ok(Part {
            tree: Statement::If {
                condition: condition.tree,
                then: first.tree,
                otherwise: None,
                span: span_to(all, first.rest),
            },
            height: condition.height.max(first.height) + 1,
            rest: first.rest,
        }),
    }
}

#[cycle(statements)]
#[tactic(auto, using(crate::proofs::Places::while_is))]
fn while_statement<'t, 'a>(
    context: Context,
    all: &'t [Token<'a>],
    label: Option<Name>,
    tokens: &'t [Token<'a>],
    limit: usize,
) -> Result<Part<'t, 'a, Statement>, TextFault>
    requires { limit + 1 < 2 ^ 64 }
    ensures read { ReadsAs (λ p. (bare_statement p.tree, lexemes p.rest.now)) result
        (while_at (expression_at limit) (statement_at limit) (option_map name_text label) (lexemes tokens.now)) }
    ensures places { IfOk result (λ p. (ss : List Spot) (s : Span) →
        LabelAt (option_map placed_name label) ss (word words.While s ∷ spots tokens.now) →
        StatementAt (placed_statement p.tree) ss (spots p.rest.now)) }
    ensures height { IfOk result (λ p. (p.height ≡ statement_height (bare_statement p.tree)) × (p.height ≤ limit + 1)) }
{
    let condition = condition(context, tokens, limit)?;
    let body = boxed_statement(context, condition.rest, limit)?;
    Ok(Part {
        tree: Statement::While {
            label,
            condition: condition.tree,
            body: body.tree,
            span: span_to(all, body.rest),
        },
        height: condition.height.max(body.height) + 1,
        rest: body.rest,
    })
}

#[cycle(statements)]
#[tactic(auto, using(crate::proofs::Places::for_is))]
fn for_statement<'t, 'a>(
    context: Context,
    all: &'t [Token<'a>],
    label: Option<Name>,
    tokens: &'t [Token<'a>],
    limit: usize,
) -> Result<Part<'t, 'a, Statement>, TextFault>
    requires { limit + 1 < 2 ^ 64 }
    ensures read { ReadsAs (λ p. (bare_statement p.tree, lexemes p.rest.now)) result
        (for_at (head_in limit) (statement_at limit) (option_map name_text label) (lexemes tokens.now)) }
    ensures places { IfOk result (λ p. (ss : List Spot) (s : Span) →
        LabelAt (option_map placed_name label) ss (word words.For s ∷ spots tokens.now) →
        StatementAt (placed_statement p.tree) ss (spots p.rest.now)) }
    ensures height { IfOk result (λ p. (p.height ≡ statement_height (bare_statement p.tree)) × (p.height ≤ limit + 1)) }
{
    let head = head(context, tokens, limit)?;
    let body = boxed_statement(context, head.rest, limit)?;
    let (opening, condition, updates) = head.tree;
    Ok(Part {
        tree: Statement::For {
            label,
            opening,
            condition,
            updates,
            body: body.tree,
            span: span_to(all, body.rest),
        },
        height: head.height.max(body.height) + 1,
        rest: body.rest,
    })
}

#[cycle(statements)]
#[tactic(auto, using(crate::proofs::Places::try_is))]
fn try_statement<'t, 'a>(
    context: Context,
    all: &'t [Token<'a>],
    tokens: &'t [Token<'a>],
    limit: usize,
) -> Result<Part<'t, 'a, Statement>, TextFault>
    requires { limit + 1 < 2 ^ 64 }
    ensures read { ReadsAs (λ p. (bare_statement p.tree, lexemes p.rest.now)) result
        (try_at (block_at limit) (lexemes tokens.now)) }
    ensures places { IfOk result (λ p. (s : Span) →
        StatementAt (placed_statement p.tree) (word words.Try s ∷ spots tokens.now) (spots p.rest.now)) }
    ensures height { IfOk result (λ p. (p.height ≡ statement_height (bare_statement p.tree)) × (p.height ≤ limit + 1)) }
{
    let body = block(context, tokens, limit)?;
    let word = expect_word(context, body.rest, Word::Finally)?;
    let finally = block(context, word.rest, limit)?;
    let span = span_to(all, finally.rest);
    Ok(Part {
        tree: try_tree(body.tree, finally.tree, span),
        height: body.height.max(finally.height) + 1,
        rest: finally.rest,
    })
}

#[cycle(statements)]
#[tactic(auto, using(crate::proofs::Places::synchronized_is))]
fn synchronized_statement<'t, 'a>(
    context: Context,
    all: &'t [Token<'a>],
    tokens: &'t [Token<'a>],
    limit: usize,
) -> Result<Part<'t, 'a, Statement>, TextFault>
    requires { limit + 1 < 2 ^ 64 }
    ensures read { ReadsAs (λ p. (bare_statement p.tree, lexemes p.rest.now)) result
        (synchronized_at (expression_at limit) (block_at limit) (lexemes tokens.now)) }
    ensures places { IfOk result (λ p. (s : Span) →
        StatementAt (placed_statement p.tree) (word words.Synchronized s ∷ spots tokens.now) (spots p.rest.now)) }
    ensures height { IfOk result (λ p. (p.height ≡ statement_height (bare_statement p.tree)) × (p.height ≤ limit + 1)) }
{
    let target = condition(context, tokens, limit)?;
    let body = block(context, target.rest, limit)?;
    let span = span_to(all, body.rest);
    Ok(Part {
        tree: synchronized_tree(target.tree, body.tree, span),
        height: target.height.max(body.height) + 1,
        rest: body.rest,
    })
}

// A loop after its label.
#[cycle(statements)]
#[tactic(auto, using(crate::proofs::Places::labelled))]
fn labelled_loop<'t, 'a>(
    context: Context,
    all: &'t [Token<'a>],
    found: NamePart<'t, 'a>,
    limit: usize,
) -> Result<Part<'t, 'a, Statement>, TextFault>
    requires { limit + 1 < 2 ^ 64 }
    ensures read { ReadsAs (λ p. (bare_statement p.tree, lexemes p.rest.now)) result
        (loop_at (expression_at limit) (head_in limit) (statement_at limit) found.entry.text.now
        (lexemes found.entry.rest.now)) }
    ensures places { IfOk result (λ p. (ss : List Spot) (colon : Span) →
        ss ≡ spot (Named found.entry.text.now) found.entry.span ∷ sign signs.Colon colon ∷ spots found.entry.rest.now →
        StatementAt (placed_statement p.tree) ss (spots p.rest.now)) }
    ensures height { IfOk result (λ p. (p.height ≡ statement_height (bare_statement p.tree)) × (p.height ≤ limit + 1)) }
{
    if let Some(word) = word_part(found.rest, Word::While) {
        let label = make_name(context, found.text, found.span)?;
        return while_statement(context, all, Some(label), word.rest, limit);
    }
    let word = expect_word(context, found.rest, Word::For)?;
    let label = make_name(context, found.text, found.span)?;
    for_statement(context, all, Some(label), word.rest, limit)
}

// A loop with a label, or a simple form.
#[cycle(statements)]
fn other_statement<'t, 'a>(
    context: Context,
    tokens: &'t [Token<'a>],
    limit: usize,
) -> Result<Part<'t, 'a, Statement>, TextFault>
    requires { limit + 1 < 2 ^ 64 }
    ensures read { ReadsAs (λ p. (bare_statement p.tree, lexemes p.rest.now)) result
        (other_at (simple_from (post_at limit false) (expression_at limit)) (expression_at limit) (head_in limit)
        (statement_at limit) (lexemes tokens.now)) }
    ensures places { IfOk result (λ p. StatementAt (placed_statement p.tree) (spots tokens.now) (spots p.rest.now)) }
    ensures height { IfOk result (λ p. (p.height ≡ statement_height (bare_statement p.tree)) × (p.height ≤ limit + 1)) }
{
    match label_part(tokens) {
        Some(found) => labelled_loop(context, tokens, found, limit),
        None => performed(context, tokens, limit),
    }
}
