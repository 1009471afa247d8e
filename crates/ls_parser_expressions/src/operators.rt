// Operators.

ghost use Rattle.std.specs.Prelude.{◌≡◌, ◌∷◌, ◌-◌, ◌<◌, IfOk, IfSome, Some};
ghost use Rattle.ls_lexer.specs.Lexemes.{Marked, lexeme_of, lexemes};
ghost use Rattle.ls_parser_spelling.specs.Spelling.{sign_of, sign_of_unary};
ghost use Rattle.ls_parser_spelling.specs.Places.{spots, sign, upto};
ghost use Rattle.ls_tree.specs.PlacedTrees as trees;
ghost use Rattle.ls_tree.specs.Placed.{placed};
ghost use Rattle.ls_tree.specs.Trees.{Binary};
ghost use Rattle.ls_tree.specs.WellFormed.{rank_of};
ghost use Rattle.ls_tree.specs.Views.{bare};
ghost use Rattle.ls_parser_tokens.specs.Answers.{Finds};
ghost use Rattle.ls_parser_expressions.specs.ReadingExpressions.{operator_of_sign, operator_at, has_operator, unary_of};

use ls_lexer::fault::TextFault;
use ls_lexer::sign::Sign;
use ls_lexer::token::{Span, Token, TokenKind};
use ls_lexer::word::Word;
use ls_parser_tokens::tokens::{Context, two_boxed, upto};
use ls_tree::tree::{BinaryOp, Expression, UnaryOp};
use std::alloc::AllocError;

// ---- operators

/// The binary operator of a sign, or none.
pub fn operator_of(sign: Sign) -> Option<BinaryOp>
    ensures read { result ≡ operator_of_sign sign }
    ensures spelled { IfSome result (λ op. sign_of op ≡ sign) }
{
    match sign {
        Sign::Or => Some(BinaryOp::Or),
        Sign::And => Some(BinaryOp::And),
        Sign::Equal => Some(BinaryOp::Equal),
        Sign::NotEqual => Some(BinaryOp::NotEqual),
        Sign::Less => Some(BinaryOp::Less),
        Sign::Greater => Some(BinaryOp::Greater),
        Sign::LessEqual => Some(BinaryOp::LessEqual),
        Sign::GreaterEqual => Some(BinaryOp::GreaterEqual),
        Sign::Plus => Some(BinaryOp::Add),
        Sign::Minus => Some(BinaryOp::Subtract),
        Sign::Star => Some(BinaryOp::Multiply),
        Sign::Slash => Some(BinaryOp::Divide),
        Sign::Percent => Some(BinaryOp::Remainder),
        _ => None,
    }
}

/// How loosely an operator binds, from 1 (most tightly) to 6 (most loosely).
pub fn rank(op: BinaryOp) -> usize
    ensures { result ≡ rank_of op }
{
    match op {
        BinaryOp::Or => 6,
        BinaryOp::And => 5,
        BinaryOp::Equal | BinaryOp::NotEqual => 4,
        BinaryOp::Less | BinaryOp::Greater | BinaryOp::LessEqual | BinaryOp::GreaterEqual => 3,
        BinaryOp::Add | BinaryOp::Subtract => 2,
        BinaryOp::Multiply | BinaryOp::Divide | BinaryOp::Remainder => 1,
    }
}

/// An operator, its span, and the tokens after it.
#[derive(Clone, Copy)]
pub struct Operator<'t, 'a> {
    pub op: BinaryOp,
    pub span: Span,
    pub rest: &'t [Token<'a>],
}

/// The operator of this rank that the tokens begin with, or none.
#[inline(always)]
#[tactic(auto, using(crate::proofs::Places::operator_stands))]
pub fn operator_part<'t, 'a>(tokens: &'t [Token<'a>], wanted: usize) -> Option<Operator<'t, 'a>>
    ensures read { Finds (λ x. (x.op, lexemes x.rest.now)) result (operator_at wanted (lexemes tokens.now)) }
    ensures placed { IfSome result (λ x. spots tokens.now ≡ sign (sign_of x.op) x.span ∷ spots x.rest.now) }
{
    match tokens {
        [token, rest @ ..] => match token.kind {
            TokenKind::Sign(sign) => {
                let op = operator_of(sign)?;
                if rank(op) == wanted {
                    Some(Operator {
                        op,
                        span: token.span,
                        rest,
                    })
                } else {
                    None
                }
            }
            _ => None,
        },
        [] => None,
    }
}

/// Whether an operator of this rank comes first. This is asked once for each rank after each operand, so it makes no
/// `Operator`.
#[inline(always)]
pub fn has_operator(tokens: &[Token], wanted: usize) -> bool
    ensures { result ≡ has_operator wanted (lexemes tokens.now) }
{
    match tokens {
        [token, ..] => match token.kind {
            TokenKind::Sign(sign) => match operator_of(sign) {
                Some(op) => rank(op) == wanted,
                None => false,
            },
            _ => false,
        },
        [] => false,
    }
}

/// The unary operator of a token, or none.
pub fn unary_op(kind: TokenKind) -> Option<UnaryOp>
    ensures read { result ≡ unary_of (lexeme_of kind.entry) }
    ensures spelled { IfSome result (λ op. lexeme_of kind.entry ≡ Marked (sign_of_unary op)) }
{
    match kind {
        TokenKind::Sign(Sign::Minus) => Some(UnaryOp::Minus),
        TokenKind::Sign(Sign::Not) => Some(UnaryOp::Not),
        _ => None,
    }
}

/// A binary operator with its operands. Its span goes from the start of the left one to the end of the right one. The
/// only refusal is that memory ran out.
pub fn join(
    context: Context,
    op: BinaryOp,
    left: Expression,
    right: Expression,
) -> Result<Expression, AllocError>
    ensures read { IfOk result (λ t. bare t ≡ Binary op (bare left) (bare right)) }
    ensures placed { IfOk result
        (λ t. placed t ≡
        trees.Binary op (placed left) (placed right)
        (upto (trees.span_of (placed left)) (trees.span_of (placed right)))) }
{
    let span = upto(left.span(), right.span());
    let (left, right) = two_boxed(context.alloc, left, right)?;
    Ok(Expression::Binary {
        op,
        left,
        right,
        span,
    })
}
