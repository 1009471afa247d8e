// Calls of a number's methods: of an Integer, a Long, a Boolean, an item or a constant of an enum.

use crate::operators::{binary, joined};
use crate::parts::{keep_as, keep_reading};
use crate::writing::emit;
use ls_java_tables::remarks::{Stop, What, Why};
use ls_java_tables::restater::{Restater, name_of, note, refuse_word};
use ls_java_tables::ropes::Text;
use ls_java_tables::spelling::{bound, literal};
use ls_java_tables::values::{Constant, Kind, SUM, Value};
use ls_java_tree::expressions::BinaryOperator;
use ls_java_tree::names::Name;

/// -1, 0 or 1: whether a number is less than another one, equal to it, or greater.
pub fn comparison(
    restater: &mut Restater,
    out: &mut Text,
    at: usize,
    left: Value,
    right: Value,
) -> Result<Value, Stop> {
    let one = keep_reading(restater, out, at, left)?;
    let other = keep_reading(restater, out, at, right)?;
    let zero = literal(restater, Constant::Int(0), at)?;
    let found = keep_as(restater, out, at, zero, Kind::Int)?;
    let first = bound(restater, one, SUM)?;
    let second = bound(restater, other, SUM)?;
    let less = [first, second, found.text];
    emit(restater, out, at, "if ( # < # ) # = - 1 ;", &less)?;
    emit(restater, out, at, "else if ( # > # ) # = 1 ;", &less)?;
    Ok(found)
}

/// A method of a number.
pub fn number_call(
    restater: &mut Restater,
    out: &mut Text,
    name: &Name,
    number: Value,
    arguments: &[Value],
) -> Result<Value, Stop> {
    let at = name.token;
    match (name.text.as_str(), arguments) {
        ("hashCode", []) => {
            note(restater, at, What::HashOfItem)?;
            Ok(Value {
                kind: Kind::Int,
                ..number
            })
        }
        ("intValue" | "longValue", []) => Ok(Value {
            kind: Kind::Int,
            ..number
        }),
        ("booleanValue", []) => Ok(number),
        ("ordinal", []) => {
            let one = literal(restater, Constant::Int(1), at)?;
            joined(restater, at, BinaryOperator::Subtract, number, one)
        }
        ("equals", [other]) => { binary(restater, out, at, BinaryOperator::Equal, number, *other) }
        ("compareTo", [other]) => comparison(restater, out, at, number, *other),
        _ => {
            let wanted = name_of(restater, name);
            refuse_word(restater, at, wanted, Why::NoLibraryMethod)
        }
    }
}
