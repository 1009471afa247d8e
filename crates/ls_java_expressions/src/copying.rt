// What fills and copies arrays: `Arrays.fill`, `Arrays.copyOf` and `System.arraycopy`, as loops.

use crate::arrays::{counting, element, length, made, write_element};
use crate::atomics::no_method;
use crate::operators::joined;
use crate::parts::{keep, keep_reading};
use crate::writing::emit;
use ls_java_tables::remarks::{Stop, What, Why};
use ls_java_tables::restater::{Restater, fresh, is_named, note, refuse};
use ls_java_tables::ropes::Text;
use ls_java_tables::spelling::{bound, local_value, nothing, word};
use ls_java_tables::values::{Constant, Kind, PRODUCT, SUM, Sort, Value};
use ls_java_tree::expressions::BinaryOperator;
use ls_java_tree::names::Name;

/// A static method of Arrays: a loop.
pub fn arrays(
    restater: &mut Restater,
    out: &mut Text,
    name: &Name,
    arguments: &[Value],
) -> Result<Value, Stop> {
    let (Some(array), Some(other)) = (arguments.first(), arguments.get(1)) else {
        return no_method(restater, name, Why::NoLibraryMethod);
    };
    let at = name.token;
    let array = keep_reading(restater, out, at, *array)?;
    let other = keep_reading(restater, out, at, *other)?;
    note(restater, at, What::CopyLoop)?;
    if is_named(name, "fill") && arguments.len() == 2 {
        let limit = length(restater, at, array)?;
        let index = counting(restater, out, at, limit.text)?;
        write_element(restater, out, array, index, other)?;
        emit(restater, out, at, "}", &[])?;
        return Ok(nothing());
    }
    if is_named(name, "copyOf") && arguments.len() == 2 {
        return copy_of(restater, out, at, array, other);
    }
    no_method(restater, name, Why::NoLibraryMethod)
}

// `Arrays.copyOf`.
fn copy_of(
    restater: &mut Restater,
    out: &mut Text,
    at: usize,
    array: Value,
    count: Value,
) -> Result<Value, Stop> {
    let new = made(restater, at, array.kind, count)?;
    let copy = keep(restater, out, at, new)?;
    let size = length(restater, at, array)?;
    let size = keep(restater, out, at, size)?;
    let limit = bound(restater, count, SUM)?;
    let parts = [limit, size.text, size.text, limit];
    emit(restater, out, at, "if ( # < # ) # = # ;", &parts)?;
    let index = counting(restater, out, at, size.text)?;
    let item = element(restater, at, array, index)?;
    write_element(restater, out, copy, index, item)?;
    emit(restater, out, at, "}", &[])?;
    Ok(copy)
}

// What `System.arraycopy` is handed: none of it reads.
#[derive(Clone, Copy)]
struct Copying {
    source: Value,
    from: Value,
    target: Value,
    to: Value,
    count: Value,
}

/// `System.arraycopy`, as java.lang.System says it: nothing is copied if a place lies outside of its array. Within one
/// array it is as if the elements went through another one: where they go to later places, the last is copied first.
pub fn array_copy(
    restater: &mut Restater,
    out: &mut Text,
    name: &Name,
    arguments: &[Value],
) -> Result<Value, Stop> {
    let ("arraycopy", [source, from, target, to, count]) = (name.text.as_str(), arguments) else {
        return no_method(restater, name, Why::NoLibraryMethod);
    };
    let at = name.token;
    if source.kind != target.kind {
        return refuse(restater, at, Why::CopyTypes);
    }
    note(restater, at, What::CopyLoop)?;
    let copying = Copying {
        source: keep_reading(restater, out, at, *source)?,
        from: keep_reading(restater, out, at, *from)?,
        target: keep_reading(restater, out, at, *target)?,
        to: keep_reading(restater, out, at, *to)?,
        count: keep_reading(restater, out, at, *count)?,
    };
    check_places(restater, out, at, copying)?;
    match goes_up(copying) {
        Some(true) => downwards(restater, out, at, copying)?,
        Some(false) => upwards(restater, out, at, copying)?,
        None => {
            let from = bound(restater, copying.from, SUM)?;
            let to = bound(restater, copying.to, SUM)?;
            emit(restater, out, at, "if ( # < # ) {", &[from, to])?;
            downwards(restater, out, at, copying)?;
            emit(restater, out, at, "} else {", &[])?;
            upwards(restater, out, at, copying)?;
            emit(restater, out, at, "}", &[])?;
        }
    }
    Ok(nothing())
}

// Whether elements go to later places, if both places are constants.
fn goes_up(copying: Copying) -> Option<bool> {
    match (copying.from.sort, copying.to.sort) {
        (Sort::Constant(Constant::Int(from)), Sort::Constant(Constant::Int(to))) => Some(from < to),
        _ => None,
    }
}

// The first element is copied first.
fn upwards(
    restater: &mut Restater,
    out: &mut Text,
    at: usize,
    copying: Copying,
) -> Result<(), Stop> {
    let limit = bound(restater, copying.count, SUM)?;
    let index = counting(restater, out, at, limit)?;
    copy_element(restater, out, at, copying, index)
}

// The last element is copied first.
fn downwards(
    restater: &mut Restater,
    out: &mut Text,
    at: usize,
    copying: Copying,
) -> Result<(), Stop> {
    let index = counting_down(restater, out, at, copying.count)?;
    copy_element(restater, out, at, copying, index)
}

// A place outside of its array is told before anything is copied.
fn check_places(
    restater: &mut Restater,
    out: &mut Text,
    at: usize,
    copying: Copying,
) -> Result<(), Stop> {
    let source_length = length(restater, at, copying.source)?;
    let source_length = keep(restater, out, at, source_length)?;
    let target_length = length(restater, at, copying.target)?;
    let target_length = keep(restater, out, at, target_length)?;
    let from = bound(restater, copying.from, SUM)?;
    let to = bound(restater, copying.to, SUM)?;
    let count = bound(restater, copying.count, SUM)?;
    let less = bound(restater, copying.count, PRODUCT)?;
    let pattern = "if ( # < 0 || # < 0 || # < 0 || # > # - # || # > # - # ) {";
    let parts = [
        from,
        to,
        count,
        from,
        source_length.text,
        less,
        to,
        target_length.text,
        less,
    ];
    emit(restater, out, at, pattern, &parts)?;
    let name = fresh(restater, "none")?;
    let none = word(restater, name, at)?;
    let pattern = "boolean [ ] # = new boolean [ 0 ] ; # [ 0 ] = true ; }";
    emit(restater, out, at, pattern, &[none, none])
}

// A loop over the numbers below a limit, from the greatest one down: its local, and its head with `{`.
fn counting_down(
    restater: &mut Restater,
    out: &mut Text,
    at: usize,
    limit: Value,
) -> Result<Value, Stop> {
    let limit = bound(restater, limit, SUM)?;
    let name = fresh(restater, "i")?;
    let local = word(restater, name, at)?;
    let pattern = "for ( int # = # - 1 ; # >= 0 ; # -- ) {";
    emit(restater, out, at, pattern, &[local, limit, local, local])?;
    local_value(restater, name, Kind::Int, at)
}

// The loop's body, and its `}`.
fn copy_element(
    restater: &mut Restater,
    out: &mut Text,
    at: usize,
    copying: Copying,
    index: Value,
) -> Result<(), Stop> {
    let from = joined(restater, at, BinaryOperator::Add, copying.from, index)?;
    let to = joined(restater, at, BinaryOperator::Add, copying.to, index)?;
    let item = element(restater, at, copying.source, from)?;
    write_element(restater, out, copying.target, to, item)?;
    emit(restater, out, at, "}", &[])
}
