// Blocks and statements. Each function of the cycle `statements` goes at most as many statements down as its depth
// says.

use crate::branches::{if_statement, try_statement};
use crate::fors::{for_each, for_statement};
use crate::locals::locals;
use crate::loops::{do_statement, while_statement};
use crate::monitors::synchronized;
use crate::switches::switch_statement;
use crate::throws::throw_statement;
use ls_java_expressions::expressions::{expression_as, whole};
use ls_java_expressions::targets::effect;
use ls_java_expressions::writing::emit;
use ls_java_tables::kept::{Depth, down};
use ls_java_tables::remarks::{Stop, What, Why};
use ls_java_tables::restater::{Around, Restater, leave, mark, name_of, note, refuse};
use ls_java_tables::ropes::Text;
use ls_java_tables::spelling::{say, word};
use ls_java_tables::values::Kind;
use ls_java_tree::expressions::Expression;
use ls_java_tree::names::Name;
use ls_java_tree::statements::{Block, Statement, StatementKind};

/// The greatest height of a body that is restated, in statements.
pub const STATEMENT_LIMIT: usize = 256;

/// A part with locals of its own begins. The answer is for `leave_part`.
pub(crate) fn enter_part(restater: &mut Restater, around: Around) -> Result<usize, Stop> {
    restater.around.push(around)?;
    Ok(mark(restater))
}

/// A part with locals of its own ends.
pub(crate) fn leave_part(restater: &mut Restater, mark: usize) {
    restater.around.pop();
    leave(restater, mark);
}

/// A block (JLS 14.2).
#[cycle(statements)]
pub fn block<'a>(
    restater: &mut Restater,
    out: &mut Text,
    tree: &'a Block,
    around: Around,
    depth: Depth<'a>,
) -> Result<(), Stop> {
    let mark = enter_part(restater, around)?;
    say(restater, out, "{", tree.span.first)?;
    statements(restater, out, &tree.statements, depth)?;
    say(restater, out, "}", tree.span.last)?;
    leave_part(restater, mark);
    Ok(())
}

/// Statements in their order.
#[cycle(statements)]
pub(crate) fn statements<'a>(
    restater: &mut Restater,
    out: &mut Text,
    trees: &'a [Statement],
    depth: Depth<'a>,
) -> Result<(), Stop> {
    for tree in trees {
        statement(restater, out, tree, depth)?;
    }
    Ok(())
}

/// The statements that a body is, without braces.
#[cycle(statements)]
pub(crate) fn inside<'a>(
    restater: &mut Restater,
    out: &mut Text,
    tree: &'a Statement,
    around: Around,
    depth: Depth<'a>,
) -> Result<(), Stop> {
    let mark = enter_part(restater, around)?;
    match &tree.kind {
        StatementKind::Block(inner) => statements(restater, out, &inner.statements, depth)?,
        _ => statement(restater, out, tree, depth)?,
    }
    leave_part(restater, mark);
    Ok(())
}

/// A body, in braces.
#[cycle(statements)]
pub(crate) fn body<'a>(
    restater: &mut Restater,
    out: &mut Text,
    tree: &'a Statement,
    around: Around,
    depth: Depth<'a>,
) -> Result<(), Stop> {
    say(restater, out, "{", tree.span.first)?;
    inside(restater, out, tree, around, depth)?;
    say(restater, out, "}", tree.span.last)
}

/// A statement (JLS 14.5) of at most so many statements from top to bottom.
#[cycle(statements)]
pub fn statement<'a>(
    restater: &mut Restater,
    out: &mut Text,
    tree: &'a Statement,
    depth: Depth<'a>,
) -> Result<(), Stop> {
    let inner = down(depth)?;
    match &tree.kind {
        StatementKind::Block(tree) => block(restater, out, tree, Around::Block, inner),
        StatementKind::If { .. } => if_statement(restater, out, tree, inner),
        StatementKind::While { .. } => while_statement(restater, out, tree, inner),
        StatementKind::DoWhile { .. } => do_statement(restater, out, tree, inner),
        StatementKind::For { .. } => for_statement(restater, out, tree, inner),
        StatementKind::ForEach { .. } => for_each(restater, out, tree, inner),
        StatementKind::Switch { .. } => switch_statement(restater, out, tree, inner),
        StatementKind::Try { .. } => try_statement(restater, out, tree, inner),
        StatementKind::Synchronized { .. } => synchronized(restater, out, tree, inner),
        StatementKind::Labeled { label, body } => { labeled(restater, out, label, body, inner) }
        _ => simple(restater, out, tree, depth),
    }
}

// A label and its loop (JLS 14.7).
#[cycle(statements)]
fn labeled<'a>(
    restater: &mut Restater,
    out: &mut Text,
    label: &'a Name,
    body: &'a Statement,
    depth: Depth<'a>,
) -> Result<(), Stop> {
    match &body.kind {
        StatementKind::While { .. } => {}
        StatementKind::DoWhile { .. } => {}
        StatementKind::For { .. } => {}
        StatementKind::ForEach { .. } => {}
        _ => return refuse(restater, label.token, Why::LabelHere),
    }
    restater.place.label = Some(name_of(restater, label));
    statement(restater, out, body, depth)
}

/// The label of a loop, with its colon, or nothing. A label is that of the next loop alone.
pub(crate) fn label_text(restater: &mut Restater, at: usize) -> Result<Text, Stop> {
    let Some(label) = restater.place.label else {
        return Ok(Text::EMPTY);
    };
    restater.place.label = None;
    let mut text = word(restater, label, at)?;
    say(restater, &mut text, ":", at)?;
    Ok(text)
}

// A statement that holds no others.
fn simple<'a>(
    restater: &mut Restater,
    out: &mut Text,
    tree: &'a Statement,
    depth: Depth<'a>,
) -> Result<(), Stop> {
    let at = tree.span.first;
    match &tree.kind {
        StatementKind::Locals(declaration) => locals(restater, out, declaration, depth),
        StatementKind::Expression(written) => { effect(restater, out, written, whole(depth)) }
        StatementKind::Return(value) => returned(restater, out, at, value.as_ref(), depth),
        StatementKind::Throw(thrown) => throw_statement(restater, out, at, thrown),
        StatementKind::Break(label) => break_statement(restater, out, at, label.as_ref()),
        StatementKind::Continue(label) => jump(restater, out, at, "continue", label.as_ref()),
        StatementKind::Assert { .. } => note(restater, at, What::Assert),
        StatementKind::Empty => say(restater, out, ";", at),
        _ => refuse(restater, at, Why::Other),
    }
}

// `return` (JLS 14.17).
fn returned<'a>(
    restater: &mut Restater,
    out: &mut Text,
    at: usize,
    value: Option<&'a Expression>,
    depth: Depth<'a>,
) -> Result<(), Stop> {
    let kind = restater.place.result;
    match value {
        Some(value) => {
            let value = expression_as(restater, out, value, kind, depth)?;
            emit(restater, out, at, "return # ;", &[value.text])
        }
        None if kind == Kind::Void => say(restater, out, "return ;", at),
        None => say(restater, out, "return this ;", at),
    }
}

// `break` or `continue`, perhaps with a label (JLS 14.15, 14.16).
fn jump(
    restater: &mut Restater,
    out: &mut Text,
    at: usize,
    jump: &'static str,
    label: Option<&Name>,
) -> Result<(), Stop> {
    say(restater, out, jump, at)?;
    if let Some(label) = label {
        let name = name_of(restater, label);
        let text = word(restater, name, label.token)?;
        ls_java_tables::spelling::append(restater, out, text)?;
    }
    say(restater, out, ";", at)
}

// Whether the innermost loop or `switch` is a `switch`.
fn is_in_switch(restater: &Restater) -> bool {
    for around in restater.around.iter().rev() {
        match *around {
            Around::Switch => return true,
            Around::Loop => return false,
            _ => {}
        }
    }
    false
}

// `break`. One of a `switch` is restated only where its group ends.
fn break_statement(
    restater: &mut Restater,
    out: &mut Text,
    at: usize,
    label: Option<&Name>,
) -> Result<(), Stop> {
    if label.is_none() && is_in_switch(restater) {
        return refuse(restater, at, Why::BreakInCase);
    }
    jump(restater, out, at, "break", label)
}
