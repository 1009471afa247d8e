// What comes after a primary: fields, calls and items, with their arguments and indexes.

ghost use Rattle.std.specs.Prelude.{◌≡◌, ◌+◌, ◌-◌, ◌<◌, ◌≤◌, ◌^◌, ◌∷◌, List, IfOk, map};
ghost use Rattle.ls_lexer.specs.Lexemes.{lexemes};
ghost use Rattle.ls_lexer.specs.declared.sign.Sign.TheVariants as signs;
ghost use Rattle.ls_tree.specs.WellFormed.{expression_height, expressions_height};
ghost use Rattle.ls_tree.specs.Views.{bare, expressions_of};
ghost use Rattle.ls_tree.specs.Placed.{placed, placed_all};
ghost use Rattle.ls_parser_spelling.specs.Places.{Spot, sign, spots, At, IndexAt, ArgumentsAt, SomeAt};
ghost use Rattle.ls_parser_tokens.specs.Answers.{ReadsAs};
ghost use Rattle.ls_parser_tokens.specs.Reading.{one_more, behind_comma};
ghost use Rattle.ls_parser_expressions.specs.ReadingExpressions.{expression_at, suffix_at, member_at, index_at};
ghost use Rattle.ls_parser_expressions.specs.ReadingExpressions.{item_at, arguments_at};

use crate::expressions::binary;
use crate::primaries::{called, is_new_array};
use ls_lexer::fault::TextFault;
use ls_lexer::sign::Sign;
use ls_lexer::token::{Span, Token};
use ls_parser_tokens::tokens::{
    Context, Enclosed, Part, boxed_part, closed_part, expect, name, push, sign_part, starts_with,
    syntax, too_deep, upto,
};
use ls_tree::tree::Expression;

// One suffix. What it belongs to is read already.
#[cycle(expressions)]
#[tactic(auto, using(crate::proofs::Posts::suffix_too_high, crate::proofs::Posts::suffix_fits, crate::proofs::Places::dotted))]
pub(crate) fn suffix<'t, 'a>(
    context: Context,
    left: Part<'t, 'a, Expression>,
    limit: usize,
) -> Result<Part<'t, 'a, Expression>, TextFault>
    requires limit { 0 < limit }
    requires height { left.height ≡ expression_height (bare left.tree) }
    ensures read { ReadsAs (λ p. (bare p.tree, lexemes p.rest.now)) result
        (suffix_at limit (expression_at (limit - 1)) (bare left.entry.tree) (lexemes left.entry.rest.now)) }
    ensures places { IfOk result (λ p. (ss : List Spot) → At (placed left.entry.tree) ss (spots left.entry.rest.now) →
        At (placed p.tree) ss (spots p.rest.now)) }
    ensures height { IfOk result (λ p. (p.height ≡ expression_height (bare p.tree)) × (p.height ≤ limit) ×
        (left.entry.height < p.height)) }
{
    if left.height >= limit {
        return Err(too_deep(context, left.rest));
    }
    let left = boxed_part(context.alloc, left)?;
    match sign_part(left.rest, Sign::Dot) {
        Some(dot) => member(context, left, dot.rest, limit - 1),
        None => item(context, left, limit - 1),
    }
}

// What comes after a dot.
#[cycle(expressions)]
#[tactic(auto, using(crate::proofs::Places::field_is, crate::proofs::Places::call_on_is))]
fn member<'t, 'a>(
    context: Context,
    left: Part<'t, 'a, Box<Expression>>,
    tokens: &'t [Token<'a>],
    limit: usize,
) -> Result<Part<'t, 'a, Expression>, TextFault>
    requires limit { limit + 1 < 2 ^ 64 }
    requires height { (left.height ≡ expression_height (bare left.tree.value)) × (left.height ≤ limit) }
    ensures read { ReadsAs (λ p. (bare p.tree, lexemes p.rest.now)) result
        (member_at (expression_at limit) (bare left.entry.tree.value) (lexemes tokens.now)) }
    ensures places { IfOk result (λ p. (ss : List Spot) (dot : Span) →
        At (placed left.entry.tree.value) ss (sign signs.Dot dot ∷ spots tokens.now) →
        At (placed p.tree) ss (spots p.rest.now)) }
    ensures height { IfOk result (λ p. (p.height ≡ expression_height (bare p.tree)) × (p.height ≤ limit + 1) ×
        (left.entry.height < p.height)) }
{
    let name = name(context, tokens)?;
    match sign_part(name.rest, Sign::OpenParen) {
        Some(open) => {
            let arguments = arguments(context, open.rest, limit)?;
            let span = upto(left.tree.span(), arguments.end);
            Ok(Part {
                tree: called(Some(left.tree), name.tree, arguments.tree, span),
                height: left.height.max(arguments.height) + 1,
                rest: arguments.rest,
            })
        }
        None => {
            let span = upto(left.tree.span(), name.tree.span);
            Ok(Part {
                tree: Expression::Field {
                    target: left.tree,
                    name: name.tree,
                    span,
                },
                height: left.height + 1,
                rest: name.rest,
            })
        }
    }
}

// An index in brackets.
#[cycle(expressions)]
#[tactic(auto, using(crate::proofs::Places::item_is))]
fn item<'t, 'a>(
    context: Context,
    left: Part<'t, 'a, Box<Expression>>,
    limit: usize,
) -> Result<Part<'t, 'a, Expression>, TextFault>
    requires limit { limit + 1 < 2 ^ 64 }
    requires height { (left.height ≡ expression_height (bare left.tree.value)) × (left.height ≤ limit) }
    ensures read { ReadsAs (λ p. (bare p.tree, lexemes p.rest.now)) result
        (item_at (expression_at limit) (bare left.entry.tree.value) (lexemes left.entry.rest.now)) }
    ensures places { IfOk result (λ p. (ss : List Spot) →
        At (placed left.entry.tree.value) ss (spots left.entry.rest.now) → At (placed p.tree) ss (spots p.rest.now)) }
    ensures height { IfOk result (λ p. (p.height ≡ expression_height (bare p.tree)) × (p.height ≤ limit + 1) ×
        (left.entry.height < p.height)) }
{
    if is_new_array(&left.tree) {
        return Err(syntax(context, left.rest));
    }
    let index = index(context, left.rest, limit)?;
    let span = upto(left.tree.span(), index.end);
    Ok(Part {
        tree: Expression::Item {
            array: left.tree,
            index: index.tree,
            span,
        },
        height: left.height.max(index.height) + 1,
        rest: index.rest,
    })
}

#[cycle(expressions)]
#[tactic(auto, using(crate::proofs::Places::index_is))]
pub(crate) fn index<'t, 'a>(
    context: Context,
    tokens: &'t [Token<'a>],
    limit: usize,
) -> Result<Enclosed<'t, 'a, Box<Expression>>, TextFault>
    ensures read { ReadsAs (λ p. (bare p.tree.value, lexemes p.rest.now)) result
        (index_at (expression_at limit) (lexemes tokens.now)) }
    ensures places { IfOk result (λ p. IndexAt (placed p.tree.value) p.end (spots tokens.now) (spots p.rest.now)) }
    ensures height { IfOk result (λ p. (p.height ≡ expression_height (bare p.tree.value)) × (p.height ≤ limit)) }
{
    let open = expect(context, tokens, Sign::OpenBracket)?;
    let index = binary(context, open.rest, 6, limit)?;
    let index = boxed_part(context.alloc, index)?;
    let index = closed_part(context, index, Sign::CloseBracket)?;
    Ok(index)
}

#[cycle(expressions)]
#[tactic(auto, using(crate::proofs::Repeats::group_none, crate::proofs::Repeats::group_begins, crate::proofs::Repeats::group_ends, crate::proofs::Repeats::group_goes_on, crate::proofs::Places::none_is, crate::proofs::Places::first_is, crate::proofs::Places::some_is))]
pub(crate) fn arguments<'t, 'a>(
    context: Context,
    tokens: &'t [Token<'a>],
    limit: usize,
) -> Result<Enclosed<'t, 'a, Vec<Expression>>, TextFault>
    ensures read { ReadsAs (λ p. (expressions_of p.tree.items, lexemes p.rest.now)) result
        (arguments_at (expression_at limit) (lexemes tokens.now)) }
    ensures places { IfOk result
        (λ p. ArgumentsAt (placed_all p.tree.items) p.end (spots tokens.now) (spots p.rest.now)) }
    ensures height { IfOk result (λ p. (p.height ≡ expressions_height (expressions_of p.tree.items)) ×
        (p.height ≤ limit)) }
{
    if let Some(close) = sign_part(tokens, Sign::CloseParen) {
        return Ok(Enclosed {
            tree: Vec::new(context.alloc),
            height: 0,
            end: close.span,
            rest: close.rest,
        });
    }
    let first = binary(context, tokens, 6, limit)?;
    let mut all = Part {
        tree: push(Vec::new(context.alloc), first.tree)?,
        height: first.height,
        rest: first.rest,
    };
    while !starts_with(all.rest, Sign::CloseParen) {
        all = one_argument(context, all, limit)?;
    }
    let all = closed_part(context, all, Sign::CloseParen)?;
    Ok(all)
}

// One more argument, after a comma.
#[cycle(expressions)]
#[tactic(auto, using(crate::proofs::Rows::expressions_height_push, crate::proofs::Rows::map_push, crate::proofs::Places::pushed_is))]
fn one_argument<'t, 'a>(
    context: Context,
    before: Part<'t, 'a, Vec<Expression>>,
    limit: usize,
) -> Result<Part<'t, 'a, Vec<Expression>>, TextFault>
    requires height { (before.height ≡ expressions_height (expressions_of before.tree.items)) ×
        (before.height ≤ limit) }
    ensures read { ReadsAs (λ p. (map bare p.tree.items, lexemes p.rest.now)) result
        (one_more (behind_comma (expression_at limit)) (map bare before.entry.tree.items)
        (lexemes before.entry.rest.now)) }
    ensures places { IfOk result (λ p. (ss : List Spot) →
        SomeAt (placed_all before.entry.tree.items) ss (spots before.entry.rest.now) →
        SomeAt (placed_all p.tree.items) ss (spots p.rest.now)) }
    ensures height { IfOk result (λ p. (p.height ≡ expressions_height (expressions_of p.tree.items)) ×
        (p.height ≤ limit)) }
{
    let comma = expect(context, before.rest, Sign::Comma)?;
    let argument = binary(context, comma.rest, 6, limit)?;
    Ok(Part {
        tree: push(before.tree, argument.tree)?,
        height: before.height.max(argument.height),
        rest: argument.rest,
    })
}
