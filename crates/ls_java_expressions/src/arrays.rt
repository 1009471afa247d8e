// Arrays and their elements (JLS 10, 15.10, 15.13).

use crate::parts::{Part, as_kind, declared, keep, keep_reading, settle};
use crate::writing::{emit, write};
use ls_java_tables::kinds::kind_of_element;
use ls_java_tables::needs::length_seen;
use ls_java_tables::remarks::{Stop, Why};
use ls_java_tables::restater::{Restater, asks_boolean_length, fresh, refuse};
use ls_java_tables::ropes::Text;
use ls_java_tables::spelling::{append, bound, literal, local_value, value_of, word};
use ls_java_tables::types::{note_array, type_text};
use ls_java_tables::values::{Constant, Element, Kind, PRIMARY, SUM, Sort, Value};

/// Whether arrays of these elements are arrays of the class text.
pub fn is_plain(restater: &Restater, element: Element) -> bool {
    element == Element::Boolean && !restater.facts.boolean_lengths
}

// The element of an array that a value is.
fn element_in(restater: &mut Restater, at: usize, array: Value) -> Result<Element, Stop> {
    match array.kind {
        Kind::Array(element) => Ok(element),
        _ => refuse(restater, at, Why::NotAnArray),
    }
}

/// An element, which is read.
pub fn element(
    restater: &mut Restater,
    at: usize,
    array: Value,
    index: Value,
) -> Result<Value, Stop> {
    let element = element_in(restater, at, array)?;
    let object = bound(restater, array, PRIMARY)?;
    let pattern = if is_plain(restater, element) {
        "# [ # ]"
    } else {
        "# . get ( # )"
    };
    let text = write(restater, at, pattern, &[object, index.text])?;
    let kind = kind_of_element(element);
    Ok(value_of(restater, text, kind, PRIMARY, Sort::Reading))
}

/// An element is written.
pub fn write_element(
    restater: &mut Restater,
    out: &mut Text,
    array: Value,
    index: Value,
    value: Value,
) -> Result<(), Stop> {
    let at = restater.ropes.first_token(array.text);
    let element = element_in(restater, at, array)?;
    let object = bound(restater, array, PRIMARY)?;
    let pattern = if is_plain(restater, element) {
        "# [ # ] = # ;"
    } else {
        "# . set ( # , # ) ;"
    };
    let value = as_kind(restater, at, value, kind_of_element(element))?;
    emit(
        restater,
        out,
        at,
        pattern,
        &[object, index.text, value.text],
    )
}

/// The length of an array.
pub fn length(restater: &mut Restater, at: usize, array: Value) -> Result<Value, Stop> {
    let element = element_in(restater, at, array)?;
    if element == Element::Boolean {
        asks_boolean_length(restater);
    }
    let object = bound(restater, array, PRIMARY)?;
    let text = write(restater, at, "# . length", &[object])?;
    Ok(value_of(restater, text, Kind::Int, PRIMARY, Sort::Reading))
}

// A length is known to be made.
fn see_length(restater: &mut Restater, length: Value) {
    match length.sort {
        Sort::Constant(Constant::Int(count)) => length_seen(restater, Some(count)),
        _ => length_seen(restater, None),
    }
}

/// A new array of a kind, of a length.
pub fn made(restater: &mut Restater, at: usize, kind: Kind, length: Value) -> Result<Value, Stop> {
    see_length(restater, length);
    match kind {
        Kind::Array(element) if is_plain(restater, element) => {
            let text = write(restater, at, "new boolean [ # ]", &[length.text])?;
            Ok(value_of(restater, text, kind, PRIMARY, Sort::Reading))
        }
        Kind::Array(element) => {
            note_array(restater, element, at)?;
            made_class(restater, at, kind, length)
        }
        _ => made_class(restater, at, kind, length),
    }
}

// An object of a class of arrays.
fn made_class(
    restater: &mut Restater,
    at: usize,
    kind: Kind,
    length: Value,
) -> Result<Value, Stop> {
    let class = type_text(restater, kind, at)?;
    let text = write(restater, at, "new # ( # )", &[class, length.text])?;
    Ok(value_of(restater, text, kind, PRIMARY, Sort::Reading))
}

/// A loop over the numbers below a limit: its local, and its head with `{`.
pub fn counting(
    restater: &mut Restater,
    out: &mut Text,
    at: usize,
    limit: Text,
) -> Result<Value, Stop> {
    let name = fresh(restater, "i")?;
    let local = word(restater, name, at)?;
    emit(
        restater,
        out,
        at,
        "for ( int # = 0 ; # < # ; # ++ ) {",
        &[local, local, limit, local],
    )?;
    local_value(restater, name, Kind::Int, at)
}

/// A new array with lengths: one, or two, where the second is that of each row (JLS 15.10.1).
pub fn sized(
    restater: &mut Restater,
    out: &mut Text,
    at: usize,
    kind: Kind,
    lengths: &[Part],
) -> Result<Value, Stop> {
    let lengths = settle(restater, out, at, lengths)?;
    let Some(length) = lengths.first().copied() else {
        return refuse(restater, at, Why::ItemsHere);
    };
    let Some(second) = lengths.get(1).copied() else {
        return made(restater, at, kind, length);
    };
    let count = keep_reading(restater, out, at, length)?;
    let size = keep_reading(restater, out, at, second)?;
    let array = made(restater, at, kind, count)?;
    let rows = keep(restater, out, at, array)?;
    let limit = bound(restater, count, SUM)?;
    let index = counting(restater, out, at, limit)?;
    let element = element_in(restater, at, array)?;
    let row = made(restater, at, kind_of_element(element), size)?;
    write_element(restater, out, rows, index, row)?;
    emit(restater, out, at, "}", &[])?;
    Ok(rows)
}

// Whether an element needs no statement, since it begins with this value.
fn is_default(value: Value) -> bool {
    match value.sort {
        Sort::Constant(Constant::Int(number)) => number == 0,
        Sort::Constant(Constant::Boolean(truth)) => !truth,
        _ => value.kind == Kind::Null,
    }
}

/// A new array of so many items: it goes to a local, and its items are written afterwards (JLS 10.6).
pub fn begin_items(
    restater: &mut Restater,
    out: &mut Text,
    at: usize,
    kind: Kind,
    count: usize,
) -> Result<Value, Stop> {
    if !matches!(&kind, Kind::Array(_)) {
        return refuse(restater, at, Why::ItemsHere);
    }
    let Ok(count) = i32::try_from(count) else {
        return refuse(restater, at, Why::TooMuch);
    };
    let length = literal(restater, Constant::Int(count), at)?;
    let array = made(restater, at, kind, length)?;
    keep(restater, out, at, array)
}

/// An item of a new array.
pub fn add_item(
    restater: &mut Restater,
    out: &mut Text,
    array: Value,
    place: usize,
    item: Part,
) -> Result<(), Stop> {
    let at = restater.ropes.first_token(array.text);
    append(restater, out, item.before)?;
    if is_default(item.value) {
        return Ok(());
    }
    let Ok(place) = i32::try_from(place) else {
        return refuse(restater, at, Why::TooMuch);
    };
    let index = literal(restater, Constant::Int(place), at)?;
    write_element(restater, out, array, index, item.value)
}
