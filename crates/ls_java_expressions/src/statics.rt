// Calls behind the name of a class (JLS 15.12.1): of the file, or of the library.

use crate::arguments::my_number;
use crate::atomics::no_method;
use crate::calls::method_call;
use crate::copying::{array_copy, arrays};
use crate::members::is_around;
use crate::numbers::comparison;
use crate::operators::{binary, joined};
use crate::parts::{keep, keep_as, keep_reading};
use crate::writing::emit;
use ls_java_tables::finding::{class_here, gone, has_method, unknown};
use ls_java_tables::kinds::is_number;
use ls_java_tables::remarks::{Stop, What, Why};
use ls_java_tables::restater::{Restater, fresh, is_named, name_of, note};
use ls_java_tables::ropes::Text;
use ls_java_tables::spelling::{bound, literal, nothing, word};
use ls_java_tables::tables::Gone;
use ls_java_tables::values::{Constant, Kind, PRIMARY, SUM, Value};
use ls_java_tree::expressions::BinaryOperator;
use ls_java_tree::names::Name;

/// How many arguments of a static method are evaluated: those of methods that are left out aren't.
pub fn evaluated(class: &Name, name: &Name, count: usize) -> usize {
    match (class.text.as_str(), name.text.as_str()) {
        ("Thread" | "TimeUnit" | "LockSupport", _) => 0,
        ("Objects", "requireNonNull") => count.min(1),
        _ => count,
    }
}

/// A static method.
pub fn static_call(
    restater: &mut Restater,
    out: &mut Text,
    class: &Name,
    name: &Name,
    arguments: &[Value],
) -> Result<Value, Stop> {
    let owner = name_of(restater, class);
    let wanted = name_of(restater, name);
    if let Some(number) = class_here(restater, owner) {
        if !has_method(restater, number, wanted) {
            return unknown(restater, name.token, wanted, Why::NoMethod);
        }
        if !is_around(restater, number) {
            return no_method(restater, name, Why::StaticElsewhere);
        }
        return method_call(restater, name, number, None, arguments);
    }
    if gone(restater, owner) == Some(Gone::ThreadNumber) {
        return my_number(restater, name.token);
    }
    library_static(restater, out, class, name, arguments)
}

// A static method of the library.
fn library_static(
    restater: &mut Restater,
    out: &mut Text,
    class: &Name,
    name: &Name,
    arguments: &[Value],
) -> Result<Value, Stop> {
    match class.text.as_str() {
        "Math" | "StrictMath" => math(restater, out, name, arguments),
        "Integer" | "Long" | "Boolean" => boxed(restater, out, name, arguments),
        "Objects" => objects(restater, out, name, arguments),
        "Arrays" => arrays(restater, out, name, arguments),
        "System" => array_copy(restater, out, name, arguments),
        "Thread" | "TimeUnit" | "LockSupport" => thread(restater, name),
        _ => {
            let owner = name_of(restater, class);
            unknown(restater, class.token, owner, Why::UnknownClass)
        }
    }
}

// What a thread does without effect here: it yields, sleeps or spins. No thread is interrupted.
fn thread(restater: &mut Restater, name: &Name) -> Result<Value, Stop> {
    match name.text.as_str() {
        "yield" | "onSpinWait" | "sleep" | "park" | "parkNanos" | "unpark" => {
            note(restater, name.token, What::LeftOut)?;
            Ok(nothing())
        }
        "interrupted" => {
            note(restater, name.token, What::LeftOut)?;
            literal(restater, Constant::Boolean(false), name.token)
        }
        _ => no_method(restater, name, Why::NoLibraryMethod),
    }
}

// A method of Math.
fn math(
    restater: &mut Restater,
    out: &mut Text,
    name: &Name,
    arguments: &[Value],
) -> Result<Value, Stop> {
    let at = name.token;
    match (name.text.as_str(), arguments) {
        ("max", [one, other]) => {
            extreme(restater, out, at, "if ( # > # ) # = # ;", *one, *other)
        }
        ("min", [one, other]) => {
            extreme(restater, out, at, "if ( # < # ) # = # ;", *one, *other)
        }
        ("abs", [one]) => {
            let kept = keep_as(restater, out, at, *one, Kind::Int)?;
            let parts = [kept.text, kept.text, kept.text];
            emit(restater, out, at, "if ( # < 0 ) # = - # ;", &parts)?;
            Ok(kept)
        }
        ("floorMod", [one, other]) => floor_mod(restater, out, at, *one, *other),
        _ => no_method(restater, name, Why::NoLibraryMethod),
    }
}

// The greater or the less of two numbers: the second one, where the pattern's test holds of it and the first.
fn extreme(
    restater: &mut Restater,
    out: &mut Text,
    at: usize,
    pattern: &'static str,
    one: Value,
    other: Value,
) -> Result<Value, Stop> {
    let first = keep_as(restater, out, at, one, Kind::Int)?;
    let second = keep_reading(restater, out, at, other)?;
    let operand = bound(restater, second, SUM)?;
    let parts = [operand, first.text, first.text, second.text];
    emit(restater, out, at, pattern, &parts)?;
    Ok(first)
}

// `Math.floorMod`: the rest with the sign of the divisor.
fn floor_mod(
    restater: &mut Restater,
    out: &mut Text,
    at: usize,
    one: Value,
    other: Value,
) -> Result<Value, Stop> {
    let first = keep_reading(restater, out, at, one)?;
    let divisor = keep_reading(restater, out, at, other)?;
    let rest = joined(restater, at, BinaryOperator::Remainder, first, divisor)?;
    let kept = keep_as(restater, out, at, rest, Kind::Int)?;
    let operand = bound(restater, divisor, PRIMARY)?;
    let pattern = "if ( # != 0 && ( # < 0 ) != ( # < 0 ) ) # += # ;";
    let parts = [kept.text, kept.text, operand, kept.text, operand];
    emit(restater, out, at, pattern, &parts)?;
    Ok(kept)
}

// A static method of Integer, Long or Boolean.
fn boxed(
    restater: &mut Restater,
    out: &mut Text,
    name: &Name,
    arguments: &[Value],
) -> Result<Value, Stop> {
    let at = name.token;
    match (name.text.as_str(), arguments) {
        ("valueOf" | "hashCode", [one]) => Ok(*one),
        ("sum", [one, other]) => joined(restater, at, BinaryOperator::Add, *one, *other),
        ("compare", [one, other]) => comparison(restater, out, at, *one, *other),
        _ => math(restater, out, name, arguments),
    }
}

// A static method of Objects.
fn objects(
    restater: &mut Restater,
    out: &mut Text,
    name: &Name,
    arguments: &[Value],
) -> Result<Value, Stop> {
    let at = name.token;
    match (name.text.as_str(), arguments) {
        ("equals", [one, other]) => {
            binary(restater, out, at, BinaryOperator::Equal, *one, *other)
        }
        ("hash" | "hashCode", [one]) if is_number(one.kind) => Ok(*one),
        ("requireNonNull", [one]) => {
            let kept = keep(restater, out, at, *one)?;
            let name = fresh(restater, "thrown")?;
            let thrown = word(restater, name, at)?;
            let pattern = if is_number(one.kind) {
                "if ( # == 0 ) { boolean [ ] # = null ; # [ 0 ] = true ; }"
            } else {
                "if ( # == null ) { boolean [ ] # = null ; # [ 0 ] = true ; }"
            };
            emit(restater, out, at, pattern, &[kept.text, thrown, thrown])?;
            Ok(kept)
        }
        _ => no_method(restater, name, Why::NoLibraryMethod),
    }
}
