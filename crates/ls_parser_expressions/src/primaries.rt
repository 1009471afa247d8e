// What an expression begins with, and its suffixes, if no expression is in them.

ghost use Rattle.std.specs.Prelude.{◌≡◌, ◌∷◌, ◌-◌, ◌<◌, IfOk};
ghost use Rattle.ls_lexer.specs.Lexemes.{Numeral, lexemes};
ghost use Rattle.ls_parser_spelling.specs.Places.{spot, spots, ClassNameAt, At};
ghost use Rattle.ls_tree.specs.PlacedTrees as trees;
ghost use Rattle.ls_tree.specs.Placed as views;
ghost use Rattle.ls_tree.specs.Placed.{placed, placed_name, placed_target, placed_all};
ghost use Rattle.ls_tree.specs.Trees.{NewArray, New, NewMarkable};
ghost use Rattle.ls_tree.specs.WellFormed.{expression_height, is_new_array};
ghost use Rattle.ls_tree.specs.Views.{name_text, bare, bare_target, call_of, expressions_of};
ghost use Rattle.ls_parser_tokens.specs.Answers.{ReadsAs};
ghost use Rattle.ls_parser_expressions.specs.ReadingExpressions.{is_markable, has_suffix, number_here, class_at};

use ls_lexer::fault::TextFault;
use ls_lexer::sign::Sign;
use ls_lexer::token::{Span, Token};
use ls_lexer::word::Word;
use ls_parser_tokens::tokens::{Context, Part, Read, closed, expect, name, starts_with};
use ls_tree::numbers::may_stand;
use ls_tree::tree::{Expression, Name};
use std::alloc::AllocError;

// ---- what comes after a primary

/// Whether a dot or an opening bracket comes first.
pub fn has_suffix(tokens: &[Token]) -> bool
    ensures { result ≡ has_suffix (lexemes tokens.now) }
{
    starts_with(tokens, Sign::Dot) || starts_with(tokens, Sign::OpenBracket)
}

/// Whether a tree is the making of an array.
pub fn is_new_array(tree: &Expression) -> bool
    ensures { result ≡ is_new_array (bare tree.now) }
{
    matches!(tree, Expression::NewArray { .. })
}

/// A call with its target, or without one.
pub fn called(
    target: Option<Box<Expression>>,
    name: Name,
    arguments: Vec<Expression>,
    span: Span,
) -> Expression
    ensures read { bare result ≡ call_of (bare_target target) (name_text name) (expressions_of arguments.items) }
    ensures placed { placed result ≡
        views.call_of (placed_target target) (placed_name name) (placed_all arguments.items) span }
{
    Expression::Call {
        target,
        name,
        arguments,
        span,
    }
}

// ---- primaries

/// Whether a name is `AtomicMarkableReference`.
pub fn is_markable(text: &str) -> bool
    ensures { result ≡ is_markable text.now }
{
    text == "AtomicMarkableReference"
}

/// A number. Refused with `BadNumber` if it is 2147483648 and isn't directly after a unary minus, or if memory runs
/// out.
#[tactic(auto, using(ls_parser_spelling::specs::Places::number_at))]
pub fn number<'t, 'a>(
    context: Context,
    text: &'a str,
    span: Span,
    rest: &'t [Token<'a>],
    after_minus: bool,
) -> Result<Part<'t, 'a, Expression>, TextFault>
    ensures read { ReadsAs (λ p. (bare p.tree, lexemes p.rest.now)) result
        (number_here after_minus text.now (lexemes rest.now)) }
    ensures placed { IfOk result
        (λ p. At (placed p.tree) (spot (Numeral text.now) span ∷ spots rest.now) (spots p.rest.now)) }
    ensures height { IfOk result (λ p. (p.height ≡ expression_height (bare p.tree)) × (p.height ≡ 1)) }
{
    if !may_stand(after_minus, text) {
        return Err(TextFault::BadNumber { at: span.start });
    }
    let text = String::from_str(context.alloc, text)?;
    Ok(Part {
        tree: Expression::Number { text, span },
        height: 1,
        rest,
    })
}

/// A name between `<` and `>`.
#[tactic(auto, using(crate::proofs::Places::class_name_is))]
pub fn class_name<'t, 'a>(
    context: Context,
    tokens: &'t [Token<'a>],
) -> Result<Read<'t, 'a, Name>, TextFault>
    ensures read { ReadsAs (λ n. (name_text n.tree, lexemes n.rest.now)) result (class_at (lexemes tokens.now)) }
    ensures placed { IfOk result (λ n. ClassNameAt (placed_name n.tree) (spots tokens.now) (spots n.rest.now)) }
{
    let open = expect(context, tokens, Sign::Less)?;
    let name = name(context, open.rest)?;
    closed(context, name, Sign::Greater)
}

/// The making of an object.
pub fn new_object(class: Name, arguments: Vec<Expression>, span: Span) -> Expression
    ensures read { bare result ≡ New (name_text class) (expressions_of arguments.items) }
    ensures placed { placed result ≡ trees.New (placed_name class) (placed_all arguments.items) span }
{
    Expression::New {
        class,
        arguments,
        span,
    }
}

/// The making of a markable.
pub fn new_markable(class: Name, arguments: Vec<Expression>, span: Span) -> Expression
    ensures read { bare result ≡ NewMarkable (name_text class) (expressions_of arguments.items) }
    ensures placed { placed result ≡ trees.NewMarkable (placed_name class) (placed_all arguments.items) span }
{
    Expression::NewMarkable {
        class,
        arguments,
        span,
    }
}
