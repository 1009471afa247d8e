// `while` (JLS 14.12) and `do` (JLS 14.13).

use crate::endings::{continues, reaches_end};
use crate::statements::{STATEMENT_LIMIT, body, inside, label_text};
use ls_java_expressions::expressions::{part, whole};
use ls_java_expressions::parts::Part;
use ls_java_expressions::writing::{emit, write};
use ls_java_tables::constants::fold;
use ls_java_tables::kept::Depth;
use ls_java_tables::remarks::{Stop, Why};
use ls_java_tables::restater::{Around, Restater, fresh, refuse};
use ls_java_tables::ropes::Text;
use ls_java_tables::spelling::{append, bound, say, word};
use ls_java_tables::values::{Constant, PRIMARY};
use ls_java_tree::expressions::Expression;
use ls_java_tree::statements::{Statement, StatementKind};

/// Whether a condition is the constant `true`.
pub(crate) fn is_always(restater: &Restater, condition: &Expression) -> bool {
    fold(restater, condition) == Some(Constant::Boolean(true))
}

/// What leaves a loop where its condition doesn't hold, with the statements of the condition.
pub(crate) fn leave_unless(restater: &mut Restater, at: usize, test: Part) -> Result<Text, Stop> {
    let operand = bound(restater, test.value, PRIMARY)?;
    let parts = [test.before, operand];
    write(restater, at, "# if ( ! # ) break ;", &parts)
}

/// `while`. Where its condition needs statements, these and a `break` stand at the head of the body.
#[cycle(statements)]
pub(crate) fn while_statement<'a>(
    restater: &mut Restater,
    out: &mut Text,
    tree: &'a Statement,
    depth: Depth<'a>,
) -> Result<(), Stop> {
    let at = tree.span.first;
    let StatementKind::While {
        condition,
        body: inner,
    } = &tree.kind
    else {
        return refuse(restater, at, Why::Other);
    };
    let label = label_text(restater, at)?;
    if is_always(restater, condition) {
        emit(restater, out, at, "# while ( true )", &[label])?;
        return body(restater, out, inner, Around::Loop, depth);
    }
    let test = part(restater, condition, whole(depth))?;
    if test.before == Text::EMPTY {
        let parts = [label, test.value.text];
        emit(restater, out, at, "# while ( # )", &parts)?;
        return body(restater, out, inner, Around::Loop, depth);
    }
    let leaving = leave_unless(restater, at, test)?;
    emit(restater, out, at, "# while ( true ) { #", &[label, leaving])?;
    inside(restater, out, inner, Around::Loop, depth)?;
    say(restater, out, "}", tree.span.last)
}

/// The flag of a loop that has to know whether a turn was made, and what begins with it: its declaration, the label,
/// and the head of the loop, which ends in `if ( flag ) {`.
pub(crate) fn flagged(
    restater: &mut Restater,
    out: &mut Text,
    at: usize,
    label: Text,
) -> Result<Text, Stop> {
    let name = fresh(restater, "again")?;
    let flag = word(restater, name, at)?;
    let pattern = "boolean # = false ; # while ( true ) { if ( # ) {";
    emit(restater, out, at, pattern, &[flag, label, flag])?;
    Ok(flag)
}

/// `do`: a loop without a condition, which is left at its end, or if a `continue` leads there, at its head from the
/// second turn on.
#[cycle(statements)]
pub(crate) fn do_statement<'a>(
    restater: &mut Restater,
    out: &mut Text,
    tree: &'a Statement,
    depth: Depth<'a>,
) -> Result<(), Stop> {
    let at = tree.span.first;
    let StatementKind::DoWhile {
        body: inner,
        condition,
    } = &tree.kind
    else {
        return refuse(restater, at, Why::Other);
    };
    let name = restater.place.label;
    let label = label_text(restater, at)?;
    if is_always(restater, condition) {
        emit(restater, out, at, "# while ( true )", &[label])?;
        return body(restater, out, inner, Around::Loop, depth);
    }
    let mut turn = Text::EMPTY;
    inside(restater, &mut turn, inner, Around::Loop, depth)?;
    let test = part(restater, condition, whole(depth))?;
    let end = condition.span.first;
    let leaving = leave_unless(restater, end, test)?;
    if continues(restater, inner, name) {
        let flag = flagged(restater, out, at, label)?;
        let parts = [leaving, flag, turn];
        emit(restater, out, at, "# } # = true ; # }", &parts)
    } else if reaches_end(inner, STATEMENT_LIMIT) {
        let parts = [label, turn];
        emit(restater, out, at, "# while ( true ) { #", &parts)?;
        append(restater, out, leaving)?;
        say(restater, out, "}", end)
    } else {
        let parts = [label, turn];
        emit(restater, out, at, "# while ( true ) { # }", &parts)
    }
}
