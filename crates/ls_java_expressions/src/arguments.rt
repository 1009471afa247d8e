// Arguments of calls (JLS 15.12.2): their kinds, and how they are written.

use crate::parts::as_kind;
use ls_java_tables::remarks::{Stop, Why};
use ls_java_tables::restater::{Restater, needs_number, refuse};
use ls_java_tables::ropes::Text;
use ls_java_tables::spelling::{append, literal, local_value, say};
use ls_java_tables::values::{Constant, Kind, Value};

/// The kinds of values.
pub fn kinds_of(restater: &Restater, values: &[Value]) -> Result<Vec<Kind>, Stop> {
    let mut kinds = Vec::new(restater.alloc);
    for value in values {
        kinds.push(value.kind)?;
    }
    Ok(kinds)
}

/// One more argument, behind a comma if it isn't the first one.
pub fn add_argument(
    restater: &mut Restater,
    list: &mut Text,
    at: usize,
    argument: Text,
) -> Result<(), Stop> {
    if *list != Text::EMPTY {
        say(restater, list, ",", at)?;
    }
    append(restater, list, argument)
}

/// Arguments with commas between them.
pub fn listed(restater: &mut Restater, at: usize, values: &[Value]) -> Result<Text, Stop> {
    let mut list = Text::EMPTY;
    for value in values {
        add_argument(restater, &mut list, at, value.text)?;
    }
    Ok(list)
}

/// Arguments where parameters of these kinds are, behind the arguments that a list has.
pub fn fitted(
    restater: &mut Restater,
    list: &mut Text,
    at: usize,
    values: &[Value],
    kinds: &[Kind],
) -> Result<(), Stop> {
    for (place, value) in values.iter().enumerate() {
        let kind = match kinds.get(place) {
            Some(kind) => *kind,
            None => value.kind,
        };
        let value = as_kind(restater, at, *value, kind)?;
        add_argument(restater, list, at, value.text)?;
    }
    Ok(())
}

// The name of the parameter for the thread's number in the method of a number.
fn number_name(restater: &Restater, method: usize) -> Option<ls_java_tables::words::WordId> {
    restater.tables.methods.get(method)?.me
}

/// The number of the thread: a parameter of the method.
pub fn my_number(restater: &mut Restater, at: usize) -> Result<Value, Stop> {
    let Some(method) = restater.place.method else {
        return refuse(restater, at, Why::NumberInConstructor);
    };
    match number_name(restater, method) {
        Some(name) => local_value(restater, name, Kind::Int, at),
        None => {
            needs_number(restater, method)?;
            literal(restater, Constant::Int(0), at)
        }
    }
}
