// Expressions without their suffixes.

ghost use Rattle.std.specs.Prelude.{◌≡◌, ◌+◌, ◌-◌, ◌<◌, ◌≤◌, ◌^◌, ◌∷◌, List, IfOk, false};
ghost use Rattle.ls_lexer.specs.Lexemes.{Named, Reserved, lexemes};
ghost use Rattle.ls_lexer.specs.declared.sign.Sign.TheVariants as signs;
ghost use Rattle.ls_lexer.specs.declared.word.Word.TheVariants as words;
ghost use Rattle.ls_tree.specs.Trees.{Binary};
ghost use Rattle.ls_tree.specs.WellFormed.{expression_height, is_minus};
ghost use Rattle.ls_tree.specs.Views.{bare};
ghost use Rattle.ls_tree.specs.Placed.{placed};
ghost use Rattle.ls_parser_spelling.specs.Spelling.{sign_of_unary};
ghost use Rattle.ls_parser_spelling.specs.Places.{Spot, spot, sign, spots, At, OperandAt};
ghost use Rattle.ls_parser_tokens.specs.Answers.{ReadsAs};
ghost use Rattle.ls_parser_expressions.specs.ReadingExpressions.{joined_at, binary_at, signed_at, unary_at};
ghost use Rattle.ls_parser_expressions.specs.ReadingExpressions.{expression_at, post_at, primary_at, named_at};
ghost use Rattle.ls_parser_expressions.specs.ReadingExpressions.{object_at, new_at, paren_at};

use crate::operators::{has_operator, join, operator_part, unary_op};
use crate::primaries::{
    called, class_name, has_suffix, is_markable, new_markable, new_object, number,
};
use crate::suffixes::{arguments, index, suffix};
use ls_lexer::fault::TextFault;
use ls_lexer::sign::Sign;
use ls_lexer::token::{Span, Token, TokenKind};
use ls_lexer::word::Word;
use ls_parser_tokens::tokens::{
    Context, NamePart, Part, boxed_part, closed_part, expect, expect_word, make_name, name_part,
    sign_part, starts_with, syntax, too_deep, upto,
};
use ls_tree::tree::{BinaryOp, Expression, UnaryOp};

/// A chain of operators of each rank in turn, from the rank that binds most tightly. What is read of one rank is the
/// first operand of the next.
#[cycle(expressions)]
#[tactic(auto, using(crate::proofs::Chains::chain_starts, crate::proofs::Chains::operand_alone, crate::proofs::Chains::fails_starts, crate::proofs::Chains::chain_goes_on))]
pub fn binary<'t, 'a>(
    context: Context,
    tokens: &'t [Token<'a>],
    wanted: usize,
    limit: usize,
) -> Result<Part<'t, 'a, Expression>, TextFault>
    requires { wanted ≤ 6 }
    ensures read { ReadsAs (λ p. (bare p.tree, lexemes p.rest.now)) result
        (binary_at wanted limit (unary_at limit false) (lexemes tokens.now)) }
    ensures places { IfOk result (λ p. At (placed p.tree) (spots tokens.now) (spots p.rest.now)) }
    ensures height { IfOk result (λ p. (p.height ≡ expression_height (bare p.tree)) × (p.height ≤ limit)) }
{
    let mut left = unary(context, tokens, limit, false)?;
    let mut rank = 1;
    while rank <= wanted {
        if has_operator(left.rest, rank) {
            left = joined(context, left, rank, limit)?;
        } else {
            rank += 1;
        }
    }
    Ok(left)
}

// An operator and its right operand. The operator is the root of the answer, and `left` is its left operand.
#[cycle(expressions)]
#[tactic(auto, using(crate::proofs::Places::binary_is))]
fn joined<'t, 'a>(
    context: Context,
    left: Part<'t, 'a, Expression>,
    wanted: usize,
    limit: usize,
) -> Result<Part<'t, 'a, Expression>, TextFault>
    requires rank { (0 < wanted) × (wanted ≤ 6) }
    requires height { left.height ≡ expression_height (bare left.tree) }
    ensures read { ReadsAs (λ p. (bare p.tree, lexemes p.rest.now)) result
        (joined_at wanted limit (binary_at (wanted - 1) limit (unary_at limit false)) (bare left.entry.tree)
        (lexemes left.entry.rest.now)) }
    ensures places { IfOk result (λ p. (ss : List Spot) → At (placed left.entry.tree) ss (spots left.entry.rest.now) →
        At (placed p.tree) ss (spots p.rest.now)) }
    ensures height { IfOk result (λ p. (p.height ≡ expression_height (bare p.tree)) × (p.height ≤ limit) ×
        (left.entry.height < p.height)) }
{
    let right = operand(context, &left, wanted, limit)?;
    let (op, operand) = right.tree;
    Ok(Part {
        tree: join(context, op, left.tree, operand)?,
        height: left.height.max(right.height) + 1,
        rest: right.rest,
    })
}

// An operator and its right operand, where `left` comes before the operator.
#[cycle(expressions)]
#[tactic(auto, using(crate::proofs::Chains::joined_is, crate::proofs::Chains::left_too_high, crate::proofs::Chains::right_too_high, crate::proofs::Places::operand_is))]
fn operand<'t, 'a>(
    context: Context,
    left: &Part<'t, 'a, Expression>,
    wanted: usize,
    limit: usize,
) -> Result<Part<'t, 'a, (BinaryOp, Expression)>, TextFault>
    requires rank { (0 < wanted) × (wanted ≤ 6) }
    requires height { left.now.height ≡ expression_height (bare left.now.tree) }
    ensures read { ReadsAs (λ p. (Binary p.tree.0 (bare left.now.tree) (bare p.tree.1), lexemes p.rest.now)) result
        (joined_at wanted limit (binary_at (wanted - 1) limit (unary_at limit false)) (bare left.now.tree)
        (lexemes left.now.rest.now)) }
    ensures places { IfOk result
        (λ p. OperandAt p.tree.0 (placed p.tree.1) (spots left.now.rest.now) (spots p.rest.now)) }
    ensures height { IfOk result (λ p. (p.height ≡ expression_height (bare p.tree.1)) × (p.height < limit) ×
        (left.now.height < limit)) }
{
    let Some(operator) = operator_part(left.rest, wanted) else {
        return Err(syntax(context, left.rest));
    };
    if left.height >= limit {
        return Err(too_deep(context, left.rest));
    }
    let right = binary(context, operator.rest, wanted - 1, limit)?;
    if right.height >= limit {
        return Err(too_deep(context, operator.rest));
    }
    Ok(Part {
        tree: (operator.op, right.tree),
        height: right.height,
        rest: right.rest,
    })
}

#[cycle(expressions)]
#[tactic(auto, using(crate::proofs::Chains::unary_step, crate::proofs::Chains::unary_nothing, crate::proofs::Chains::unary_zero))]
fn unary<'t, 'a>(
    context: Context,
    tokens: &'t [Token<'a>],
    limit: usize,
    after_minus: bool,
) -> Result<Part<'t, 'a, Expression>, TextFault>
    ensures read { ReadsAs (λ p. (bare p.tree, lexemes p.rest.now)) result
        (unary_at limit after_minus (lexemes tokens.now)) }
    ensures places { IfOk result (λ p. At (placed p.tree) (spots tokens.now) (spots p.rest.now)) }
    ensures height { IfOk result (λ p. (p.height ≡ expression_height (bare p.tree)) × (p.height ≤ limit)) }
{
    if limit == 0 {
        return Err(too_deep(context, tokens));
    }
    let Some((token, rest)) = tokens.split_first() else {
        return Err(syntax(context, tokens));
    };
    match unary_op(token.kind) {
        Some(op) => signed(context, rest, limit - 1, op, token.span),
        None => post(context, tokens, limit, after_minus),
    }
}

// What comes after the sign of a unary operator. The operator is the root of the answer.
#[cycle(expressions)]
#[tactic(auto, using(crate::proofs::Places::unary_is))]
fn signed<'t, 'a>(
    context: Context,
    tokens: &'t [Token<'a>],
    limit: usize,
    op: UnaryOp,
    start: Span,
) -> Result<Part<'t, 'a, Expression>, TextFault>
    requires { limit + 1 < 2 ^ 64 }
    ensures read { ReadsAs (λ p. (bare p.tree, lexemes p.rest.now)) result
        (signed_at op (unary_at limit (is_minus op)) (lexemes tokens.now)) }
    ensures places { IfOk result
        (λ p. At (placed p.tree) (sign (sign_of_unary op) start ∷ spots tokens.now) (spots p.rest.now)) }
    ensures height { IfOk result (λ p. (p.height ≡ expression_height (bare p.tree)) × (p.height ≤ limit + 1)) }
{
    let operand = unary(context, tokens, limit, matches!(&op, UnaryOp::Minus))?;
    let span = upto(start, operand.tree.span());
    let operand = boxed_part(context.alloc, operand)?;
    Ok(Part {
        tree: Expression::Unary {
            op,
            operand: operand.tree,
            span,
        },
        height: operand.height + 1,
        rest: operand.rest,
    })
}

/// A primary and its suffixes.
#[cycle(expressions)]
#[tactic(auto, using(crate::proofs::Posts::post_begins, crate::proofs::Posts::post_nothing, crate::proofs::Posts::post_zero, crate::proofs::Repeats::repeat_ends, crate::proofs::Chains::chain_goes_on))]
pub fn post<'t, 'a>(
    context: Context,
    tokens: &'t [Token<'a>],
    limit: usize,
    after_minus: bool,
) -> Result<Part<'t, 'a, Expression>, TextFault>
    ensures read { ReadsAs (λ p. (bare p.tree, lexemes p.rest.now)) result
        (post_at limit after_minus (lexemes tokens.now)) }
    ensures places { IfOk result (λ p. At (placed p.tree) (spots tokens.now) (spots p.rest.now)) }
    ensures height { IfOk result (λ p. (p.height ≡ expression_height (bare p.tree)) × (p.height ≤ limit)) }
{
    if limit == 0 {
        return Err(too_deep(context, tokens));
    }
    let mut left = primary(context, tokens, limit - 1, after_minus)?;
    while has_suffix(left.rest) {
        left = suffix(context, left, limit)?;
    }
    Ok(left)
}

#[cycle(expressions)]
#[tactic(auto, using(ls_parser_spelling::specs::Places::true_at, ls_parser_spelling::specs::Places::false_at, ls_parser_spelling::specs::Places::null_at, ls_parser_spelling::specs::Places::this_at))]
fn primary<'t, 'a>(
    context: Context,
    tokens: &'t [Token<'a>],
    limit: usize,
    after_minus: bool,
) -> Result<Part<'t, 'a, Expression>, TextFault>
    requires { limit + 1 < 2 ^ 64 }
    ensures read { ReadsAs (λ p. (bare p.tree, lexemes p.rest.now)) result
        (primary_at after_minus (expression_at limit) (lexemes tokens.now)) }
    ensures places { IfOk result (λ p. At (placed p.tree) (spots tokens.now) (spots p.rest.now)) }
    ensures height { IfOk result (λ p. (p.height ≡ expression_height (bare p.tree)) × (p.height ≤ limit + 1)) }
{
    let Some((token, rest)) = tokens.split_first() else {
        return Err(syntax(context, tokens));
    };
    let span = token.span;
    let tree = match token.kind {
        TokenKind::Name(text) => return named(context, text, span, rest, limit),
        TokenKind::Number(text) => return number(context, text, span, rest, after_minus),
        TokenKind::Word(Word::New) => return made(context, rest, limit, span),
        TokenKind::Sign(Sign::OpenParen) => return paren(context, rest, limit, span),
        TokenKind::Word(Word::True) => Expression::True(span),
        TokenKind::Word(Word::False) => Expression::False(span),
        TokenKind::Word(Word::Null) => Expression::Null(span),
        TokenKind::Word(Word::This) => Expression::This(span),
        _ => return Err(syntax(context, tokens)),
    };
    Ok(Part {
        tree,
        height: 1,
        rest,
    })
}

// What begins with a name: the name or a call.
#[cycle(expressions)]
#[tactic(auto, using(crate::proofs::Places::name_is, crate::proofs::Places::call_is))]
fn named<'t, 'a>(
    context: Context,
    text: &'a str,
    span: Span,
    tokens: &'t [Token<'a>],
    limit: usize,
) -> Result<Part<'t, 'a, Expression>, TextFault>
    requires { limit + 1 < 2 ^ 64 }
    ensures read { ReadsAs (λ p. (bare p.tree, lexemes p.rest.now)) result
        (named_at (expression_at limit) text.now (lexemes tokens.now)) }
    ensures places { IfOk result
        (λ p. At (placed p.tree) (spot (Named text.now) span ∷ spots tokens.now) (spots p.rest.now)) }
    ensures height { IfOk result (λ p. (p.height ≡ expression_height (bare p.tree)) × (p.height ≤ limit + 1)) }
{
    let name = make_name(context, text, span)?;
    match sign_part(tokens, Sign::OpenParen) {
        Some(open) => {
            let arguments = arguments(context, open.rest, limit)?;
            let span = upto(span, arguments.end);
            Ok(Part {
                tree: called(None, name, arguments.tree, span),
                height: arguments.height + 1,
                rest: arguments.rest,
            })
        }
        None => Ok(Part {
            tree: Expression::Name(name),
            height: 1,
            rest: tokens,
        }),
    }
}

#[cycle(expressions)]
#[tactic(auto, using(crate::proofs::Places::paren_is))]
fn paren<'t, 'a>(
    context: Context,
    tokens: &'t [Token<'a>],
    limit: usize,
    start: Span,
) -> Result<Part<'t, 'a, Expression>, TextFault>
    requires { limit + 1 < 2 ^ 64 }
    ensures read { ReadsAs (λ p. (bare p.tree, lexemes p.rest.now)) result
        (paren_at (expression_at limit) (lexemes tokens.now)) }
    ensures places { IfOk result
        (λ p. At (placed p.tree) (sign signs.OpenParen start ∷ spots tokens.now) (spots p.rest.now)) }
    ensures height { IfOk result (λ p. (p.height ≡ expression_height (bare p.tree)) × (p.height ≤ limit + 1)) }
{
    let inner = binary(context, tokens, 6, limit)?;
    let inner = boxed_part(context.alloc, inner)?;
    let inner = closed_part(context, inner, Sign::CloseParen)?;
    Ok(Part {
        tree: Expression::Paren {
            inner: inner.tree,
            span: upto(start, inner.end),
        },
        height: inner.height + 1,
        rest: inner.rest,
    })
}

// What comes after `new`.
#[cycle(expressions)]
#[tactic(auto, using(crate::proofs::Places::new_array_is))]
fn made<'t, 'a>(
    context: Context,
    tokens: &'t [Token<'a>],
    limit: usize,
    start: Span,
) -> Result<Part<'t, 'a, Expression>, TextFault>
    requires { limit + 1 < 2 ^ 64 }
    ensures read { ReadsAs (λ p. (bare p.tree, lexemes p.rest.now)) result
        (new_at (expression_at limit) (lexemes tokens.now)) }
    ensures places { IfOk result
        (λ p. At (placed p.tree) (spot (Reserved words.New) start ∷ spots tokens.now) (spots p.rest.now)) }
    ensures height { IfOk result (λ p. (p.height ≡ expression_height (bare p.tree)) × (p.height ≤ limit + 1)) }
{
    if let Some(class) = name_part(tokens) {
        return object(context, class, limit, start);
    }
    let word = expect_word(context, tokens, Word::Boolean)?;
    let length = index(context, word.rest, limit)?;
    Ok(Part {
        tree: Expression::NewArray {
            length: length.tree,
            span: upto(start, length.end),
        },
        height: length.height + 1,
        rest: length.rest,
    })
}

// The name of a class after `new`, and what comes after that name.
#[cycle(expressions)]
#[tactic(auto, using(crate::proofs::Places::new_is, crate::proofs::Places::new_markable_is))]
fn object<'t, 'a>(
    context: Context,
    class: NamePart<'t, 'a>,
    limit: usize,
    start: Span,
) -> Result<Part<'t, 'a, Expression>, TextFault>
    requires { limit + 1 < 2 ^ 64 }
    ensures read { ReadsAs (λ p. (bare p.tree, lexemes p.rest.now)) result
        (object_at (expression_at limit) class.entry.text.now (lexemes class.entry.rest.now)) }
    ensures places { IfOk result
        (λ p. At (placed p.tree) (spot (Reserved words.New) start ∷ spot (Named class.entry.text.now) class.entry.span ∷
        spots class.entry.rest.now) (spots p.rest.now)) }
    ensures height { IfOk result (λ p. (p.height ≡ expression_height (bare p.tree)) × (p.height ≤ limit + 1)) }
{
    if is_markable(class.text) && starts_with(class.rest, Sign::Less) {
        let class = class_name(context, class.rest)?;
        let open = expect(context, class.rest, Sign::OpenParen)?;
        let arguments = arguments(context, open.rest, limit)?;
        let span = upto(start, arguments.end);
        Ok(Part {
            tree: new_markable(class.tree, arguments.tree, span),
            height: arguments.height + 1,
            rest: arguments.rest,
        })
    } else {
        let open = expect(context, class.rest, Sign::OpenParen)?;
        let arguments = arguments(context, open.rest, limit)?;
        let name = make_name(context, class.text, class.span)?;
        let span = upto(start, arguments.end);
        Ok(Part {
            tree: new_object(name, arguments.tree, span),
            height: arguments.height + 1,
            rest: arguments.rest,
        })
    }
}
