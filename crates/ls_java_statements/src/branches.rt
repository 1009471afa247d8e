// `if` (JLS 14.9) and `try` (JLS 14.20).

use crate::statements::{block, body};
use ls_java_expressions::expressions::{part, whole};
use ls_java_expressions::writing::emit;
use ls_java_tables::kept::{Depth, down};
use ls_java_tables::remarks::{Stop, What, Why};
use ls_java_tables::restater::{Around, Restater, note, refuse};
use ls_java_tables::ropes::Text;
use ls_java_tables::spelling::{append, say};
use ls_java_tables::values::Value;
use ls_java_tree::statements::{Catch, Statement, StatementKind};
use ls_java_tree::types::{Type, TypeKind};

/// `if`.
#[cycle(statements)]
pub(crate) fn if_statement<'a>(
    restater: &mut Restater,
    out: &mut Text,
    tree: &'a Statement,
    depth: Depth<'a>,
) -> Result<(), Stop> {
    let StatementKind::If { condition, .. } = &tree.kind else {
        return refuse(restater, tree.span.first, Why::Other);
    };
    let test = part(restater, condition, whole(depth))?;
    append(restater, out, test.before)?;
    branches(restater, out, tree, test.value, depth)
}

// The branches of an `if` whose condition is restated.
#[cycle(statements)]
fn branches<'a>(
    restater: &mut Restater,
    out: &mut Text,
    tree: &'a Statement,
    test: Value,
    depth: Depth<'a>,
) -> Result<(), Stop> {
    let at = tree.span.first;
    let StatementKind::If {
        then,
        otherwise,
        ..
    } = &tree.kind
    else {
        return refuse(restater, at, Why::Other);
    };
    emit(restater, out, at, "if ( # )", &[test.text])?;
    body(restater, out, then, Around::If, depth)?;
    match otherwise {
        Some(otherwise) => else_branch(restater, out, otherwise, depth),
        None => Ok(()),
    }
}

// `else`. An `if` follows it as it is, if its condition needs no statements.
#[cycle(statements)]
fn else_branch<'a>(
    restater: &mut Restater,
    out: &mut Text,
    tree: &'a Statement,
    depth: Depth<'a>,
) -> Result<(), Stop> {
    let at = tree.span.first;
    say(restater, out, "else", at)?;
    let StatementKind::If { condition, .. } = &tree.kind else {
        return body(restater, out, tree, Around::If, depth);
    };
    let inner = down(depth)?;
    let test = part(restater, condition, whole(depth))?;
    if test.before == Text::EMPTY {
        return branches(restater, out, tree, test.value, inner);
    }
    emit(restater, out, at, "{ #", &[test.before])?;
    branches(restater, out, tree, test.value, inner)?;
    say(restater, out, "}", tree.span.last)
}

// Whether a type is InterruptedException, which no thread throws.
fn is_interrupt(written: &Type) -> bool {
    match &written.kind {
        TypeKind::Class(class) => class.name.text.as_str() == "InterruptedException",
        _ => false,
    }
}

// The catches of a `try` are left out if none of them is reached.
fn check_catches(restater: &mut Restater, catches: &[Catch]) -> Result<(), Stop> {
    for one in catches {
        if !one.types.iter().all(|written| is_interrupt(written)) {
            return refuse(restater, one.span.first, Why::Catch);
        }
        note(restater, one.span.first, What::CatchInterrupted)?;
    }
    Ok(())
}

/// `try`.
#[cycle(statements)]
pub(crate) fn try_statement<'a>(
    restater: &mut Restater,
    out: &mut Text,
    tree: &'a Statement,
    depth: Depth<'a>,
) -> Result<(), Stop> {
    let at = tree.span.first;
    let StatementKind::Try {
        body,
        catches,
        finally,
    } = &tree.kind
    else {
        return refuse(restater, at, Why::Other);
    };
    check_catches(restater, catches)?;
    let Some(finally) = finally else {
        return block(restater, out, body, Around::Block, depth);
    };
    say(restater, out, "try", at)?;
    block(restater, out, body, Around::Block, depth)?;
    say(restater, out, "finally", finally.span.first)?;
    block(restater, out, finally, Around::Block, depth)
}
