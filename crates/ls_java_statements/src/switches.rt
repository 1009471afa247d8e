// `switch` (JLS 14.11), as `if` and `else`.

use crate::endings::is_break;
use crate::statements::{enter_part, leave_part, statement, statements};
use ls_java_expressions::expressions::{part, whole};
use ls_java_expressions::members::enum_value;
use ls_java_expressions::operators::joined;
use ls_java_expressions::parts::keep_as;
use ls_java_expressions::writing::emit;
use ls_java_tables::constants::fold;
use ls_java_tables::finding::enum_constant;
use ls_java_tables::kept::Depth;
use ls_java_tables::kinds::is_number;
use ls_java_tables::remarks::{Stop, Why};
use ls_java_tables::restater::{Around, Restater, name_of, refuse};
use ls_java_tables::ropes::Text;
use ls_java_tables::spelling::{append, literal, say};
use ls_java_tables::values::{Kind, Sort, Value};
use ls_java_tree::expressions::{BinaryOperator, Expression, ExpressionKind};
use ls_java_tree::statements::{Statement, StatementKind, SwitchGroup};

// Statements without a `break` at their end.
fn but_break(trees: &[Statement]) -> &[Statement] {
    match trees.split_last() {
        Some((last, others)) if is_break(last) => others,
        _ => trees,
    }
}

// Whether a statement leaves what it stands in, or is a block that ends so.
fn leaves(tree: &Statement) -> bool {
    match &tree.kind {
        StatementKind::Block(block) => match block.statements.last() {
            Some(last) => is_jump(last),
            None => false,
        },
        _ => is_jump(tree),
    }
}

fn is_jump(tree: &Statement) -> bool {
    matches!(
        &tree.kind,
        StatementKind::Break(_)
            | StatementKind::Return(_)
            | StatementKind::Throw(_)
            | StatementKind::Continue(_)
    )
}

// A group, and whether it is the last one, has to leave the `switch`, and `default` stands in the last one.
fn check_group(restater: &mut Restater, group: &SwitchGroup, is_last: bool) -> Result<(), Stop> {
    let at = group.span.first;
    if is_last {
        return Ok(());
    }
    match group.statements.last() {
        Some(last) if leaves(last) => {}
        _ => return refuse(restater, at, Why::CaseGoesOn),
    }
    if is_default(group) {
        return refuse(restater, at, Why::DefaultFirst);
    }
    Ok(())
}

// Whether `default` is one of the labels.
fn is_default(group: &SwitchGroup) -> bool {
    group.labels.iter().any(|label| label.is_none())
}

// The value of a label: a constant of the enum, or a constant expression.
fn label_value(restater: &mut Restater, subject: Value, label: &Expression) -> Result<Value, Stop> {
    let at = label.span.first;
    if let (Kind::Enum(number), ExpressionKind::Name(name)) = (subject.kind, &label.kind) {
        let wanted = name_of(restater, name);
        if let Some(constant) = enum_constant(restater, number, wanted) {
            return enum_value(restater, number, constant, at);
        }
    }
    match fold(restater, label) {
        Some(constant) => literal(restater, constant, at),
        None => refuse(restater, at, Why::SwitchOn),
    }
}

// The test whether the subject is one of the labels.
fn test(restater: &mut Restater, subject: Value, group: &SwitchGroup) -> Result<Text, Stop> {
    let at = group.span.first;
    let mut all = Text::EMPTY;
    for label in &group.labels {
        if let Some(label) = label {
            let value = label_value(restater, subject, label)?;
            let one = joined(restater, at, BinaryOperator::Equal, subject, value)?;
            if all != Text::EMPTY {
                say(restater, &mut all, "||", at)?;
            }
            append(restater, &mut all, one.text)?;
        }
    }
    Ok(all)
}

// The subject of a `switch`, in a local.
fn subject_of<'a>(
    restater: &mut Restater,
    out: &mut Text,
    tree: &'a Expression,
    depth: Depth<'a>,
) -> Result<Value, Stop> {
    let at = tree.span.first;
    let found = part(restater, tree, whole(depth))?;
    append(restater, out, found.before)?;
    if !is_number(found.value.kind) {
        return refuse(restater, at, Why::SwitchOn);
    }
    match found.value.sort {
        Sort::Local(_) => Ok(found.value),
        _ => {
            let kind = found.value.kind;
            keep_as(restater, out, at, found.value, kind)
        }
    }
}

/// `switch`. Each group but the last one has to end in a jump.
#[cycle(statements)]
pub(crate) fn switch_statement<'a>(
    restater: &mut Restater,
    out: &mut Text,
    tree: &'a Statement,
    depth: Depth<'a>,
) -> Result<(), Stop> {
    let at = tree.span.first;
    let StatementKind::Switch { subject, groups } = &tree.kind else {
        return refuse(restater, at, Why::Other);
    };
    let subject = subject_of(restater, out, subject, depth)?;
    for (place, group) in groups.iter().enumerate() {
        let is_last = place.saturating_add(1) == groups.len();
        check_group(restater, group, is_last)?;
        let at = group.span.first;
        if place != 0 {
            say(restater, out, "else", at)?;
        }
        if !is_default(group) {
            let test = test(restater, subject, group)?;
            emit(restater, out, at, "if ( # )", &[test])?;
        }
        case_body(restater, out, group, depth)?;
    }
    Ok(())
}

// The statements of a group, without the `break` at their end.
#[cycle(statements)]
fn case_body<'a>(
    restater: &mut Restater,
    out: &mut Text,
    group: &'a SwitchGroup,
    depth: Depth<'a>,
) -> Result<(), Stop> {
    let mark = enter_part(restater, Around::Switch)?;
    say(restater, out, "{", group.span.first)?;
    let all = but_break(&group.statements);
    match all.split_last() {
        Some((last, others)) => {
            statements(restater, out, others, depth)?;
            case_end(restater, out, last, depth)?;
        }
        None => {}
    }
    say(restater, out, "}", group.span.last)?;
    leave_part(restater, mark);
    Ok(())
}

// The last statement of a group. A block may end in the `break` of the group.
#[cycle(statements)]
fn case_end<'a>(
    restater: &mut Restater,
    out: &mut Text,
    tree: &'a Statement,
    depth: Depth<'a>,
) -> Result<(), Stop> {
    let StatementKind::Block(block) = &tree.kind else {
        return statement(restater, out, tree, depth);
    };
    let mark = enter_part(restater, Around::Switch)?;
    say(restater, out, "{", block.span.first)?;
    statements(restater, out, but_break(&block.statements), depth)?;
    say(restater, out, "}", block.span.last)?;
    leave_part(restater, mark);
    Ok(())
}
