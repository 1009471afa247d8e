// How bodies end (JLS 14.21): whether their ends are reached, and whether they go on with the next turn.

use crate::statements::STATEMENT_LIMIT;
use ls_java_tables::restater::{Restater, name_of};
use ls_java_tables::words::WordId;
use ls_java_tree::names::Name;
use ls_java_tree::statements::{Statement, StatementKind, SwitchGroup};

/// Whether the end of a body may be reached, as far as its last statement shows it. At most so many blocks are looked
/// into.
pub fn reaches_end(tree: &Statement, limit: usize) -> bool {
    if limit == 0 {
        return true;
    }
    match &tree.kind {
        StatementKind::Block(block) => match block.statements.last() {
            Some(last) => reaches_end(last, limit - 1),
            None => true,
        },
        StatementKind::Return(_) => false,
        StatementKind::Throw(_) => false,
        StatementKind::Break(_) => false,
        StatementKind::Continue(_) => false,
        _ => true,
    }
}

/// Whether a statement is `break` without a label.
pub fn is_break(tree: &Statement) -> bool {
    matches!(&tree.kind, StatementKind::Break(None))
}

// Whether a `continue` is of the loop with a label, where its innermost loop is another one or not.
fn is_of(
    restater: &Restater,
    target: Option<&Name>,
    label: Option<WordId>,
    is_inner: bool,
) -> bool {
    match target {
        None => !is_inner,
        Some(name) => label == Some(name_of(restater, name)),
    }
}

// What is asked of statements: whether they have a `continue` of the loop with a label, where their innermost loop is
// another one or not.
#[derive(Clone, Copy)]
struct Asked {
    label: Option<WordId>,
    is_inner: bool,
}

// Whether one of these statements has the `continue`.
#[cycle(continues)]
fn any_continues(restater: &Restater, trees: &[Statement], asked: Asked, limit: usize) -> bool {
    for tree in trees {
        if continues_in(restater, tree, asked, limit) {
            return true;
        }
    }
    false
}

// Whether one of these groups has the `continue`.
#[cycle(continues)]
fn groups_continue(
    restater: &Restater,
    groups: &[SwitchGroup],
    asked: Asked,
    limit: usize,
) -> bool {
    for group in groups {
        if any_continues(restater, &group.statements, asked, limit) {
            return true;
        }
    }
    false
}

// Whether a statement has the `continue`. Where the limit is reached, it may.
#[cycle(continues)]
fn continues_in(restater: &Restater, tree: &Statement, asked: Asked, limit: usize) -> bool {
    if limit == 0 {
        return true;
    }
    let inner = limit - 1;
    let nested = Asked {
        is_inner: true,
        ..asked
    };
    match &tree.kind {
        StatementKind::Continue(target) => {
            is_of(restater, target.as_ref(), asked.label, asked.is_inner)
        }
        StatementKind::Labeled { body, .. } => continues_in(restater, body, asked, inner),
        StatementKind::While { body, .. } => continues_in(restater, body, nested, inner),
        StatementKind::DoWhile { body, .. } => continues_in(restater, body, nested, inner),
        StatementKind::For { body, .. } => continues_in(restater, body, nested, inner),
        StatementKind::ForEach { body, .. } => continues_in(restater, body, nested, inner),
        _ => parts_continue(restater, tree, asked, inner),
    }
}

// Whether a block, an `if`, a `try`, a `switch` or a `synchronized` has the `continue`.
#[cycle(continues)]
fn parts_continue(restater: &Restater, tree: &Statement, asked: Asked, limit: usize) -> bool {
    match &tree.kind {
        StatementKind::Block(block) => { any_continues(restater, &block.statements, asked, limit) }
        StatementKind::If {
            then,
            otherwise,
            ..
        } => {
            if continues_in(restater, then, asked, limit) {
                return true;
            }
            match otherwise {
                Some(otherwise) => continues_in(restater, otherwise, asked, limit),
                None => false,
            }
        }
        StatementKind::Synchronized { body, .. } => {
            any_continues(restater, &body.statements, asked, limit)
        }
        StatementKind::Try { body, finally, .. } => {
            if any_continues(restater, &body.statements, asked, limit) {
                return true;
            }
            match finally {
                Some(block) => any_continues(restater, &block.statements, asked, limit),
                None => false,
            }
        }
        StatementKind::Switch { groups, .. } => groups_continue(restater, groups, asked, limit),
        _ => false,
    }
}

/// Whether the body of a loop has a `continue` of the loop, which has this label, if any.
pub fn continues(restater: &Restater, body: &Statement, label: Option<WordId>) -> bool {
    let asked = Asked {
        label,
        is_inner: false,
    };
    continues_in(restater, body, asked, STATEMENT_LIMIT)
}
