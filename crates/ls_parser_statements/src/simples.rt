// Simple forms, and the head of a `for`.

ghost use Rattle.std.specs.Prelude.{◌≡◌, ◌+◌, ◌<◌, ◌≤◌, ◌^◌, ◌∷◌, List, IfOk, IfSome, map, max, option_map, false};
ghost use Rattle.ls_lexer.specs.Lexemes.{lexemes};
ghost use Rattle.ls_lexer.specs.declared.token.Span.{Span};
ghost use Rattle.ls_tree.specs.WellFormed.{expression_height, value_height, simple_height, simples_height};
ghost use Rattle.ls_tree.specs.WellFormed.{opening_height, statement_height, is_call};
ghost use Rattle.ls_tree.specs.Views.{bare, bare_simple, bare_opening, bare_statement};
ghost use Rattle.ls_tree.specs.Placed.{placed};
ghost use Rattle.ls_tree.specs.PlacedStatements.{placed_simple, placed_opening, placed_statement};
ghost use Rattle.ls_parser_spelling.specs.Spelling.{count_sign};
ghost use Rattle.ls_parser_spelling.specs.Places.{Spot, spots, sign, At};
ghost use Rattle.ls_parser_spelling.specs.StatementPlaces.{SimpleAt, SomeSimplesAt, SimplesAt, OpeningAt, HeadAt};
ghost use Rattle.ls_parser_spelling.specs.StatementPlaces.{ReturnedAt, StatementAt};
ghost use Rattle.ls_lexer.specs.declared.sign.Sign.TheVariants as signs;
ghost use Rattle.ls_parser_tokens.specs.Answers.{ReadsAs, Finds};
ghost use Rattle.ls_parser_tokens.specs.Reading.{one_more, behind_comma};
ghost use Rattle.ls_parser_expressions.specs.ReadingExpressions.{expression_at, post_at};
ghost use Rattle.ls_parser_statements.specs.ReadingStatements.{counted_at, stepped_at, used_at, simple_from, simple_at};
ghost use Rattle.ls_parser_statements.specs.ReadingStatements.{simples_at, simples_to, local_at, opening_at, turns_at};
ghost use Rattle.ls_parser_statements.specs.ReadingStatements.{head_in, perform_at};

use crate::simple_statements::{local_declaration, value_part};
use ls_lexer::fault::TextFault;
use ls_lexer::sign::Sign;
use ls_lexer::token::Token;
use ls_parser_declarations::declarations::starts_declaration;
use ls_parser_expressions::expressions::{binary, post};
use ls_parser_tokens::tokens::{
    Context, Part, Read, closed_part, expect, push, sign_part, span_to, starts_with, syntax,
    too_deep,
};
use ls_tree::tree::{Expression, Opening, Simple, Statement};

// Whether `++`, which counts up, or `--` comes first, and the tokens after it.
#[tactic(auto, using(crate::proofs::SimplePlaces::up_is, crate::proofs::SimplePlaces::down_is))]
fn counted<'t, 'a>(tokens: &'t [Token<'a>]) -> Option<Read<'t, 'a, bool>>
    ensures read { Finds (λ c. (c.tree, lexemes c.rest.now)) result (counted_at (lexemes tokens.now)) }
    ensures places { IfSome result
        (λ c. (s : Span) × (spots tokens.now ≡ sign (count_sign c.tree) s ∷ spots c.rest.now)) }
{
    if let Some(up) = sign_part(tokens, Sign::Increment) {
        return Some(Read {
            tree: true,
            rest: up.rest,
        });
    }
    let down = sign_part(tokens, Sign::Decrement)?;
    Some(Read {
        tree: false,
        rest: down.rest,
    })
}

/// Whether an expression is a call or the making of an object.
pub fn is_call(tree: &Expression) -> bool
    ensures { result ≡ is_call (bare tree.now) }
{
    matches!(
        tree,
        Expression::Call { .. } | Expression::New { .. } | Expression::NewMarkable { .. }
    )
}

// A simple form without a value, of which the target or the call is read.
#[tactic(auto, using(crate::proofs::SimplePlaces::count_behind_is, crate::proofs::SimplePlaces::evaluate_is))]
fn stepped<'t, 'a>(
    context: Context,
    target: Part<'t, 'a, Expression>,
    limit: usize,
) -> Result<Part<'t, 'a, Simple>, TextFault>
    requires limit { limit + 1 < 2 ^ 64 }
    requires height { (target.height ≡ expression_height (bare target.tree)) × (target.height ≤ limit) }
    ensures read { ReadsAs (λ p. (bare_simple p.tree, lexemes p.rest.now)) result
        (stepped_at (bare target.entry.tree) (lexemes target.entry.rest.now)) }
    ensures places { IfOk result (λ p. (ss : List Spot) → At (placed target.entry.tree) ss (spots target.entry.rest.now)
        → SimpleAt (placed_simple p.tree) ss (spots p.rest.now)) }
    ensures height { IfOk result (λ p. (p.height ≡ simple_height (bare_simple p.tree)) × (p.height ≤ limit + 1)) }
{
    if let Some(count) = counted(target.rest) {
        return Ok(Part {
            tree: Simple::Count {
                up: count.tree,
                before: false,
                target: target.tree,
            },
            height: target.height + 1,
            rest: count.rest,
        });
    }
    if !is_call(&target.tree) {
        return Err(syntax(context, target.rest));
    }
    Ok(Part {
        tree: Simple::Evaluate(target.tree),
        height: target.height + 1,
        rest: target.rest,
    })
}

// A simple form, of which the target or the call is read: what comes after that is read here.
#[tactic(auto, using(crate::proofs::SimplePlaces::assign_is, crate::proofs::SimplePlaces::add_is))]
fn used<'t, 'a>(
    context: Context,
    target: Part<'t, 'a, Expression>,
    limit: usize,
) -> Result<Part<'t, 'a, Simple>, TextFault>
    requires limit { limit + 1 < 2 ^ 64 }
    requires height { (target.height ≡ expression_height (bare target.tree)) × (target.height ≤ limit) }
    ensures read { ReadsAs (λ p. (bare_simple p.tree, lexemes p.rest.now)) result
        (used_at (expression_at limit) (bare target.entry.tree) (lexemes target.entry.rest.now)) }
    ensures places { IfOk result (λ p. (ss : List Spot) → At (placed target.entry.tree) ss (spots target.entry.rest.now)
        → SimpleAt (placed_simple p.tree) ss (spots p.rest.now)) }
    ensures height { IfOk result (λ p. (p.height ≡ simple_height (bare_simple p.tree)) × (p.height ≤ limit + 1)) }
{
    if let Some(assign) = sign_part(target.rest, Sign::Assign) {
        let value = binary(context, assign.rest, 6, limit)?;
        return Ok(Part {
            tree: Simple::Assign {
                target: target.tree,
                value: value.tree,
            },
            height: target.height.max(value.height) + 1,
            rest: value.rest,
        });
    }
    if let Some(add) = sign_part(target.rest, Sign::PlusAssign) {
        let value = binary(context, add.rest, 6, limit)?;
        return Ok(Part {
            tree: Simple::Add {
                target: target.tree,
                value: value.tree,
            },
            height: target.height.max(value.height) + 1,
            rest: value.rest,
        });
    }
    stepped(context, target, limit)
}

// A simple form. The limit is that of the expressions in it.
#[tactic(auto, using(crate::proofs::SimplePlaces::count_before_is))]
fn form<'t, 'a>(
    context: Context,
    tokens: &'t [Token<'a>],
    limit: usize,
) -> Result<Part<'t, 'a, Simple>, TextFault>
    requires { limit + 1 < 2 ^ 64 }
    ensures read { ReadsAs (λ p. (bare_simple p.tree, lexemes p.rest.now)) result
        (simple_from (post_at limit false) (expression_at limit) (lexemes tokens.now)) }
    ensures places { IfOk result (λ p. SimpleAt (placed_simple p.tree) (spots tokens.now) (spots p.rest.now)) }
    ensures height { IfOk result (λ p. (p.height ≡ simple_height (bare_simple p.tree)) × (p.height ≤ limit + 1)) }
{
    if let Some(count) = counted(tokens) {
        let target = post(context, count.rest, limit, false)?;
        return Ok(Part {
            tree: Simple::Count {
                up: count.tree,
                before: true,
                target: target.tree,
            },
            height: target.height + 1,
            rest: target.rest,
        });
    }
    let target = post(context, tokens, limit, false)?;
    used(context, target, limit)
}

// A simple form of at most this height.
#[tactic(auto, using(crate::proofs::StatementSteps::simple_zero, crate::proofs::StatementSteps::simple_step))]
fn simple<'t, 'a>(
    context: Context,
    tokens: &'t [Token<'a>],
    limit: usize,
) -> Result<Part<'t, 'a, Simple>, TextFault>
    ensures read { ReadsAs (λ p. (bare_simple p.tree, lexemes p.rest.now)) result
        (simple_at limit (lexemes tokens.now)) }
    ensures places { IfOk result (λ p. SimpleAt (placed_simple p.tree) (spots tokens.now) (spots p.rest.now)) }
    ensures height { IfOk result (λ p. (p.height ≡ simple_height (bare_simple p.tree)) × (p.height ≤ limit)) }
{
    if limit == 0 {
        return Err(too_deep(context, tokens));
    }
    form(context, tokens, limit - 1)
}

/// A simple form and a semicolon.
#[tactic(auto, using(crate::proofs::SimplePlaces::perform_is))]
pub fn performed<'t, 'a>(
    context: Context,
    tokens: &'t [Token<'a>],
    limit: usize,
) -> Result<Part<'t, 'a, Statement>, TextFault>
    requires { limit + 1 < 2 ^ 64 }
    ensures read { ReadsAs (λ p. (bare_statement p.tree, lexemes p.rest.now)) result
        (perform_at (simple_from (post_at limit false) (expression_at limit)) (lexemes tokens.now)) }
    ensures places { IfOk result (λ p. StatementAt (placed_statement p.tree) (spots tokens.now) (spots p.rest.now)) }
    ensures height { IfOk result (λ p. (p.height ≡ statement_height (bare_statement p.tree)) × (p.height ≤ limit + 1)) }
{
    let found = form(context, tokens, limit)?;
    let found = closed_part(context, found, Sign::Semicolon)?;
    Ok(Part {
        tree: Statement::Simple {
            simple: found.tree,
            span: span_to(tokens, found.rest),
        },
        height: found.height,
        rest: found.rest,
    })
}

// One simple form or more, with commas between them.
#[tactic(auto, using(crate::proofs::StatementSteps::simples_begin, crate::proofs::SimplePlaces::first_simple))]
fn some_simples<'t, 'a>(
    context: Context,
    tokens: &'t [Token<'a>],
    limit: usize,
) -> Result<Part<'t, 'a, Vec<Simple>>, TextFault>
    ensures read { ReadsAs (λ p. (map bare_simple p.tree.items, lexemes p.rest.now)) result
        (simples_at (simple_at limit) (lexemes tokens.now)) }
    ensures places { IfOk result
        (λ p. SomeSimplesAt (map placed_simple p.tree.items) (spots tokens.now) (spots p.rest.now)) }
    ensures height { IfOk result (λ p. (p.height ≡ simples_height (map bare_simple p.tree.items)) ×
        (p.height ≤ limit)) }
{
    let first = simple(context, tokens, limit)?;
    let mut all = Part {
        tree: push(Vec::new(context.alloc), first.tree)?,
        height: first.height,
        rest: first.rest,
    };
    while starts_with(all.rest, Sign::Comma) {
        all = one_simple(context, all, limit)?;
    }
    Ok(all)
}

#[tactic(auto, using(ls_parser_expressions::proofs::Rows::map_push, crate::proofs::SimplePlaces::simples_height_push, crate::proofs::SimplePlaces::simple_pushed))]
fn one_simple<'t, 'a>(
    context: Context,
    before: Part<'t, 'a, Vec<Simple>>,
    limit: usize,
) -> Result<Part<'t, 'a, Vec<Simple>>, TextFault>
    requires height { (before.height ≡ simples_height (map bare_simple before.tree.items)) × (before.height ≤ limit) }
    ensures read { ReadsAs (λ p. (map bare_simple p.tree.items, lexemes p.rest.now)) result
        (one_more (behind_comma (simple_at limit)) (map bare_simple before.entry.tree.items)
        (lexemes before.entry.rest.now)) }
    ensures places { IfOk result (λ p. (ss : List Spot) →
        SomeSimplesAt (map placed_simple before.entry.tree.items) ss (spots before.entry.rest.now) →
        SomeSimplesAt (map placed_simple p.tree.items) ss (spots p.rest.now)) }
    ensures height { IfOk result (λ p. (p.height ≡ simples_height (map bare_simple p.tree.items)) ×
        (p.height ≤ limit)) }
{
    let comma = expect(context, before.rest, Sign::Comma)?;
    let found = simple(context, comma.rest, limit)?;
    Ok(Part {
        tree: push(before.tree, found.tree)?,
        height: before.height.max(found.height),
        rest: found.rest,
    })
}

// Simple forms, or none, and a sign after them.
#[tactic(auto, using(crate::proofs::SimplePlaces::no_simples, crate::proofs::SimplePlaces::simples_are))]
fn simples<'t, 'a>(
    context: Context,
    tokens: &'t [Token<'a>],
    limit: usize,
    stop: Sign,
) -> Result<Part<'t, 'a, Vec<Simple>>, TextFault>
    ensures read { ReadsAs (λ p. (map bare_simple p.tree.items, lexemes p.rest.now)) result
        (simples_to stop (simple_at limit) (lexemes tokens.now)) }
    ensures places { IfOk result
        (λ p. SimplesAt stop (map placed_simple p.tree.items) (spots tokens.now) (spots p.rest.now)) }
    ensures height { IfOk result (λ p. (p.height ≡ simples_height (map bare_simple p.tree.items)) ×
        (p.height ≤ limit)) }
{
    if let Some(end) = sign_part(tokens, stop) {
        return Ok(Part {
            tree: Vec::new(context.alloc),
            height: 0,
            rest: end.rest,
        });
    }
    let all = some_simples(context, tokens, limit)?;
    let all = closed_part(context, all, stop)?;
    Ok(Part {
        tree: all.tree,
        height: all.height,
        rest: all.rest,
    })
}

// What a `for` begins with, and a semicolon.
#[tactic(auto, using(ls_parser_spelling::specs::StatementPlaces::declares_at, ls_parser_spelling::specs::StatementPlaces::performs_at))]
fn opening<'t, 'a>(
    context: Context,
    tokens: &'t [Token<'a>],
    limit: usize,
) -> Result<Part<'t, 'a, Opening>, TextFault>
    ensures read { ReadsAs (λ p. (bare_opening p.tree, lexemes p.rest.now)) result
        (opening_at (local_at limit) (simple_at limit) (lexemes tokens.now)) }
    ensures places { IfOk result (λ p. OpeningAt (placed_opening p.tree) (spots tokens.now) (spots p.rest.now)) }
    ensures height { IfOk result (λ p. (p.height ≡ opening_height (bare_opening p.tree)) × (p.height ≤ limit)) }
{
    if starts_declaration(tokens) {
        let found = local_declaration(context, tokens, limit)?;
        return Ok(Part {
            tree: Opening::Declaration(found.tree),
            height: found.height,
            rest: found.rest,
        });
    }
    let found = simples(context, tokens, limit, Sign::Semicolon)?;
    Ok(Part {
        tree: Opening::Simples(found.tree),
        height: found.height,
        rest: found.rest,
    })
}

// What comes after the opening of a `for`: a condition or none, and its updates.
#[tactic(auto)]
fn turns<'t, 'a>(
    context: Context,
    tokens: &'t [Token<'a>],
    limit: usize,
) -> Result<Part<'t, 'a, (Option<Expression>, Vec<Simple>)>, TextFault>
    ensures read { ReadsAs
        (λ p. ((option_map bare p.tree.0, map bare_simple p.tree.1.items), lexemes p.rest.now)) result
        (turns_at (simple_at limit) (expression_at limit) (lexemes tokens.now)) }
    ensures places { IfOk result
        (λ p. (semicolon : Span) × (behind : List Spot) ×
        ReturnedAt (option_map placed p.tree.0) semicolon (spots tokens.now) behind ×
        SimplesAt signs.CloseParen (map placed_simple p.tree.1.items) behind (spots p.rest.now)) }
    ensures height { IfOk result
        (λ p. (p.height ≡
        max (value_height (option_map bare p.tree.0)) (simples_height (map bare_simple p.tree.1.items))) ×
        (p.height ≤ limit)) }
{
    let condition = value_part(context, tokens, limit)?;
    let updates = simples(context, condition.rest, limit, Sign::CloseParen)?;
    Ok(Part {
        tree: (condition.tree, updates.tree),
        height: condition.height.max(updates.height),
        rest: updates.rest,
    })
}

/// The head of a `for`, in parentheses.
#[tactic(auto, using(crate::proofs::SimplePlaces::head_is))]
pub fn head<'t, 'a>(
    context: Context,
    tokens: &'t [Token<'a>],
    limit: usize,
) -> Result<Part<'t, 'a, (Opening, Option<Expression>, Vec<Simple>)>, TextFault>
    ensures read { ReadsAs
        (λ p. ((bare_opening p.tree.0, option_map bare p.tree.1, map bare_simple p.tree.2.items), lexemes p.rest.now))
        result (head_in limit (lexemes tokens.now)) }
    ensures places { IfOk result
        (λ p. HeadAt (placed_opening p.tree.0) (option_map placed p.tree.1) (map placed_simple p.tree.2.items)
        (spots tokens.now) (spots p.rest.now)) }
    ensures height { IfOk result
        (λ p. (p.height ≡
        max (opening_height (bare_opening p.tree.0))
        (max (value_height (option_map bare p.tree.1)) (simples_height (map bare_simple p.tree.2.items)))) ×
        (p.height ≤ limit)) }
{
    let paren = expect(context, tokens, Sign::OpenParen)?;
    let opening = opening(context, paren.rest, limit)?;
    let turns = turns(context, opening.rest, limit)?;
    Ok(Part {
        tree: (opening.tree, turns.tree.0, turns.tree.1),
        height: opening.height.max(turns.height),
        rest: turns.rest,
    })
}
