// Expressions, from their outermost operator down. Each function of the cycle `expressions` goes at most as many nodes
// down as its depth says.

use crate::arrays::element;
use crate::choices::{choice, conditional};
use crate::creating::{array, creation};
use crate::invoking::call;
use crate::members::{member, named, outer_this, static_member, this_object, type_name};
use crate::operators::{binary, unary};
use crate::parts::{Part, as_kind, settle, settle_two};
use crate::simple::{cast_to, in_parentheses, literal_value, why_not};
use crate::targets::{assignment, count};
use ls_java_tables::constants::fold;
use ls_java_tables::kept::{Depth, down, with_left};
use ls_java_tables::remarks::{Stop, Why};
use ls_java_tables::restater::{Restater, refuse};
use ls_java_tables::ropes::Text;
use ls_java_tables::spelling::literal;
use ls_java_tables::types::kind_here;
use ls_java_tables::values::{Kind, Value};
use ls_java_tree::expressions::{BinaryOperator, Expression, ExpressionKind};
use ls_java_tree::names::Name;

/// The greatest height of an expression that is restated, in nodes.
pub const EXPRESSION_LIMIT: usize = 256;

/// The whole height of an expression.
pub fn whole<'a>(depth: Depth<'a>) -> Depth<'a> {
    with_left(depth, EXPRESSION_LIMIT)
}

/// An expression of at most so many nodes from top to bottom. The statements that it needs before go to the end of what
/// is written.
#[cycle(expressions)]
pub fn expression<'a>(
    restater: &mut Restater,
    out: &mut Text,
    tree: &'a Expression,
    depth: Depth<'a>,
) -> Result<Value, Stop> {
    let inner = down(depth)?;
    let wanted = restater.place.wanted;
    restater.place.wanted = None;
    let at = tree.span.first;
    match &tree.kind {
        ExpressionKind::Literal(written) => literal_value(restater, at, *written),
        ExpressionKind::Name(name) => named(restater, name),
        ExpressionKind::This(None) => this_object(restater, at),
        ExpressionKind::This(Some(class)) => outer_this(restater, class, at),
        ExpressionKind::Field { target, name } => field(restater, out, target, name, inner),
        ExpressionKind::Call { .. } => call(restater, out, tree, wanted, inner),
        ExpressionKind::New { .. } => creation(restater, out, tree, wanted, inner),
        ExpressionKind::NewArray { .. } => array(restater, out, tree, wanted, inner),
        ExpressionKind::Items { .. } => array(restater, out, tree, wanted, inner),
        ExpressionKind::Assign { .. } => assignment(restater, out, tree, true, inner),
        ExpressionKind::Count { .. } => count(restater, out, tree, true, inner),
        ExpressionKind::Binary { .. } => operation(restater, out, tree, inner),
        ExpressionKind::Item { .. } => operation(restater, out, tree, inner),
        _ => other(restater, out, tree, wanted, inner),
    }
}

// A field of an object, or a name behind the name of a class (JLS 15.11, 6.5.6.2).
#[cycle(expressions)]
fn field<'a>(
    restater: &mut Restater,
    out: &mut Text,
    target: &'a Expression,
    name: &'a Name,
    depth: Depth<'a>,
) -> Result<Value, Stop> {
    if let Some(class) = type_name(restater, target) {
        return static_member(restater, class, name);
    }
    let object = expression(restater, out, target, depth)?;
    member(restater, object, name)
}

// Two operands, or an array and an index (JLS 15.7).
#[cycle(expressions)]
fn operation<'a>(
    restater: &mut Restater,
    out: &mut Text,
    tree: &'a Expression,
    depth: Depth<'a>,
) -> Result<Value, Stop> {
    let at = tree.span.first;
    match &tree.kind {
        ExpressionKind::Binary {
            operator,
            left,
            right,
        } => {
            let first = part(restater, left, depth)?;
            let second = part(restater, right, depth)?;
            if *operator == BinaryOperator::And || *operator == BinaryOperator::Or {
                return conditional(restater, out, at, *operator, first, second);
            }
            let (one, other) = settle_two(restater, out, at, first, second)?;
            binary(restater, out, at, *operator, one, other)
        }
        ExpressionKind::Item { array, index } => {
            let first = part(restater, array, depth)?;
            let second = part(restater, index, depth)?;
            let (array, index) = settle_two(restater, out, at, first, second)?;
            element(restater, at, array, index)
        }
        _ => refuse(restater, at, Why::Other),
    }
}

// Parentheses, a unary operator, a cast, or `?:`.
#[cycle(expressions)]
fn other<'a>(
    restater: &mut Restater,
    out: &mut Text,
    tree: &'a Expression,
    wanted: Option<Kind>,
    depth: Depth<'a>,
) -> Result<Value, Stop> {
    let at = tree.span.first;
    match &tree.kind {
        ExpressionKind::Paren(operand) => {
            restater.place.wanted = wanted;
            let value = expression(restater, out, operand, depth)?;
            in_parentheses(restater, value)
        }
        ExpressionKind::Unary { operator, operand } => {
            if let Some(constant) = fold(restater, tree) {
                return literal(restater, constant, at);
            }
            let value = expression(restater, out, operand, depth)?;
            unary(restater, at, *operator, value)
        }
        ExpressionKind::Cast { types, operand } => {
            let Some(written) = types.first() else {
                return refuse(restater, at, Why::Cast);
            };
            let kind = kind_here(restater, written)?;
            restater.place.wanted = Some(kind);
            let value = expression(restater, out, operand, depth)?;
            cast_to(restater, at, kind, value)
        }
        ExpressionKind::Conditional { .. } => chosen(restater, out, tree, wanted, depth),
        kind => refuse(restater, at, why_not(kind)),
    }
}

// `?:` (JLS 15.25).
#[cycle(expressions)]
fn chosen<'a>(
    restater: &mut Restater,
    out: &mut Text,
    tree: &'a Expression,
    wanted: Option<Kind>,
    depth: Depth<'a>,
) -> Result<Value, Stop> {
    let at = tree.span.first;
    let ExpressionKind::Conditional {
        condition,
        then,
        otherwise,
    } = &tree.kind
    else {
        return refuse(restater, at, Why::Other);
    };
    let tested = part(restater, condition, depth)?;
    restater.place.wanted = wanted;
    let taken = part(restater, then, depth)?;
    restater.place.wanted = wanted;
    let left = part(restater, otherwise, depth)?;
    choice(restater, out, at, tested, taken, left)
}

/// An operand, with the statements that come before it.
#[cycle(expressions)]
pub fn part<'a>(
    restater: &mut Restater,
    tree: &'a Expression,
    depth: Depth<'a>,
) -> Result<Part, Stop> {
    let mut before = Text::EMPTY;
    let value = expression(restater, &mut before, tree, depth)?;
    if value.kind == Kind::Void {
        return refuse(restater, tree.span.first, Why::NoValue);
    }
    Ok(Part { value, before })
}

/// An operand where a kind is wanted.
#[cycle(expressions)]
pub fn part_as<'a>(
    restater: &mut Restater,
    tree: &'a Expression,
    kind: Kind,
    depth: Depth<'a>,
) -> Result<Part, Stop> {
    restater.place.wanted = Some(kind);
    let found = part(restater, tree, depth)?;
    let value = as_kind(restater, tree.span.first, found.value, kind)?;
    Ok(Part {
        value,
        before: found.before,
    })
}

/// Operands in their order, behind others.
#[cycle(expressions)]
pub(crate) fn parts<'a>(
    restater: &mut Restater,
    all: &mut Vec<Part>,
    trees: &'a [Expression],
    depth: Depth<'a>,
) -> Result<(), Stop> {
    for tree in trees {
        let one = part(restater, tree, depth)?;
        all.push(one)?;
    }
    Ok(())
}

/// The values of operands, which are evaluated in their order.
#[cycle(expressions)]
pub(crate) fn operands<'a>(
    restater: &mut Restater,
    out: &mut Text,
    at: usize,
    trees: &'a [Expression],
    depth: Depth<'a>,
) -> Result<Vec<Value>, Stop> {
    let mut all = Vec::new(restater.alloc);
    parts(restater, &mut all, trees, depth)?;
    settle(restater, out, at, &all)
}

/// An expression where a kind is wanted: the value of a variable, of `return`, or of a field.
pub fn expression_as<'a>(
    restater: &mut Restater,
    out: &mut Text,
    tree: &'a Expression,
    kind: Kind,
    depth: Depth<'a>,
) -> Result<Value, Stop> {
    let found = part_as(restater, tree, kind, whole(depth))?;
    ls_java_tables::spelling::append(restater, out, found.before)?;
    Ok(found.value)
}
