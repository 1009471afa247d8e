// `&&`, `||` (JLS 15.23, 15.24) and `?:` (JLS 15.25): operands that may not be evaluated.

use crate::operators::joined;
use crate::parts::{Part, as_kind, declared, keep};
use crate::writing::emit;
use ls_java_tables::kinds::is_number;
use ls_java_tables::remarks::{Stop, Why};
use ls_java_tables::restater::{Restater, refuse};
use ls_java_tables::ropes::Text;
use ls_java_tables::spelling::append;
use ls_java_tables::values::{Kind, Value};
use ls_java_tree::expressions::BinaryOperator;

/// `&&` or `||`. Where the right operand has statements, they run only if it is evaluated.
pub fn conditional(
    restater: &mut Restater,
    out: &mut Text,
    at: usize,
    operator: BinaryOperator,
    left: Part,
    right: Part,
) -> Result<Value, Stop> {
    append(restater, out, left.before)?;
    if right.before == Text::EMPTY {
        return joined(restater, at, operator, left.value, right.value);
    }
    let found = keep(restater, out, at, left.value)?;
    let pattern = if operator == BinaryOperator::And {
        "if ( # ) { # # = # ; }"
    } else {
        "if ( ! # ) { # # = # ; }"
    };
    let parts = [found.text, right.before, found.text, right.value.text];
    emit(restater, out, at, pattern, &parts)?;
    Ok(found)
}

// The kind of a choice of two (JLS 15.25).
fn chosen_kind(then: Kind, otherwise: Kind) -> Kind {
    if then == Kind::Null {
        otherwise
    } else if then != otherwise && is_number(then) && is_number(otherwise) {
        Kind::Int
    } else {
        then
    }
}

/// `?:`. The statements of each operand run only if it is evaluated.
pub fn choice(
    restater: &mut Restater,
    out: &mut Text,
    at: usize,
    condition: Part,
    then: Part,
    otherwise: Part,
) -> Result<Value, Stop> {
    let kind = chosen_kind(then.value.kind, otherwise.value.kind);
    if kind == Kind::Null {
        return refuse(restater, at, Why::Other);
    }
    append(restater, out, condition.before)?;
    let one = as_kind(restater, at, then.value, kind)?;
    let other = as_kind(restater, at, otherwise.value, kind)?;
    let found = declared(restater, out, at, "t", kind)?;
    let name = found.text;
    let taken = [condition.value.text, then.before, name, one.text];
    emit(restater, out, at, "if ( # ) { # # = # ; }", &taken)?;
    let left = [otherwise.before, name, other.text];
    emit(restater, out, at, "else { # # = # ; }", &left)?;
    Ok(found)
}
