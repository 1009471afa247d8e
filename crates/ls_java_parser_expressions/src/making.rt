// Nodes of expressions.

ghost use Rattle.std.specs.Prelude.{◌≡◌, ◌<◌, ◌≤◌, IfOk, OnOk, max};

use ls_java_lexer::fault::{JavaFault, Wanted};
use ls_java_lexer::token::TokenKind;
use ls_java_parser_tokens::reader::{
    Part, Reader, expected, expected_at, in_box, next, peek, push, span_from, too_deep,
};
use ls_java_tree::expressions::{Expression, ExpressionKind, Literal};
use ls_lexer::word::Word;

/// An expression in a box, and its height.
pub type Tree = Part<Box<Expression>>;

/// An expression of this kind and height, from a token to the last one that is read.
pub fn node(
    reader: &Reader,
    kind: ExpressionKind,
    first: usize,
    height: usize,
) -> Result<Tree, JavaFault>
    ensures { IfOk result (λ p. p.height ≡ height) }
{
    let span = span_from(reader, first);
    let tree = in_box(reader.alloc, Expression { kind, span })?;
    Ok(Part { tree, height })
}

/// The fault `TooDeep` if nothing may stand above a tree of this height.
pub fn below(reader: &Reader, height: usize, limit: usize) -> Result<(), JavaFault>
    ensures { OnOk result (height < limit) }
{
    if height >= limit {
        return Err(too_deep(reader));
    }
    Ok(())
}

/// The fault `TooDeep` if a tree is higher than the limit.
pub fn within(reader: &Reader, height: usize, limit: usize) -> Result<(), JavaFault>
    ensures { OnOk result (height ≤ limit) }
{
    if height > limit {
        return Err(too_deep(reader));
    }
    Ok(())
}

/// The fault that this isn't a variable, a field or an element, if it isn't one (JLS 15.26).
pub fn check_target(reader: &Reader, target: &Expression) -> Result<(), JavaFault> {
    match &target.kind {
        ExpressionKind::Name(_) => Ok(()),
        ExpressionKind::Field { .. } => Ok(()),
        ExpressionKind::Item { .. } => Ok(()),
        ExpressionKind::Paren(_) => Ok(()),
        _ => Err(expected_at(reader, target.span.first, Wanted::Target)),
    }
}

/// The literal that a token is, or none (JLS 3.10).
pub fn literal_of(kind: TokenKind) -> Option<Literal> {
    match kind {
        TokenKind::Number(number) => {
            if number.long {
                Some(Literal::Long(number.value))
            } else {
                Some(Literal::Int(number.value))
            }
        }
        TokenKind::Float => Some(Literal::Float),
        TokenKind::Character => Some(Literal::Character),
        TokenKind::Text => Some(Literal::Text),
        TokenKind::Word(Word::True) => Some(Literal::True),
        TokenKind::Word(Word::False) => Some(Literal::False),
        TokenKind::Word(Word::Null) => Some(Literal::Null),
        _ => None,
    }
}

/// The literal that must come next.
pub fn literal(reader: &mut Reader) -> Result<Tree, JavaFault>
    ensures { IfOk result (λ p. (p.height ≡ 1) × (reader.new.left < reader.old.left)) }
{
    match literal_of(peek(reader)) {
        Some(found) => {
            let token = next(reader)?;
            node(reader, ExpressionKind::Literal(found), token, 1)
        }
        None => Err(expected(reader, Wanted::Expression)),
    }
}

/// One more expression at the end of several. The height is that of the highest one.
pub fn push_tree(all: &mut Part<Vec<Expression>>, one: Tree) -> Result<(), JavaFault>
    ensures { OnOk result (all.new.height ≡ max all.old.height one.height) }
{
    let Part { tree, height } = one;
    push(&mut all.tree, Box::into_inner(tree))?;
    all.height = all.height.max(height);
    Ok(())
}
