// Assignments (JLS 15.26), `++` and `--` (JLS 15.14, 15.15).

use crate::arrays::{element, write_element};
use crate::members::member;
use crate::operators::{binary, joined};
use crate::parts::{Part, as_kind, is_disturbed, keep, keep_as, settle, settle_two};
use crate::writing::{emit, write};
use ls_java_tables::kinds::is_number;
use ls_java_tables::remarks::{Stop, Why};
use ls_java_tables::restater::{Restater, refuse};
use ls_java_tables::ropes::Text;
use ls_java_tables::spelling::{append, bound, literal};
use ls_java_tables::values::{Constant, Kind, PRIMARY, Sort, Value, reads};
use ls_java_tree::expressions::{BinaryOperator, Count};
use ls_java_tree::names::Name;
use std::alloc::AllocError;

/// What is assigned to: a local or a field by its name alone, a field of an object, or an element. `first` is the
/// variable, the object or the array, and `second` the index.
#[derive(Copy)]
pub enum Target<'t> {
    Variable {
        variable: Value,
    },
    Field {
        object: Part,
        name: &'t Name,
        kind: Kind,
    },
    Element {
        array: Part,
        index: Part,
        kind: Kind,
    },
}

impl<'t> Clone for Target<'t> {
    fn clone(&self) -> Result<Target<'t>, AllocError> {
        Ok(*self)
    }
}

/// The kind of what is assigned to.
pub fn target_kind(target: Target) -> Kind {
    match target {
        Target::Variable { variable } => variable.kind,
        Target::Field { kind, .. } => kind,
        Target::Element { kind, .. } => kind,
    }
}

// A part without statements.
fn settled(value: Value) -> Part {
    Part {
        value,
        before: Text::EMPTY,
    }
}

// The parts of a target are evaluated, and then the right side (JLS 15.26.1).
fn evaluated<'t>(
    restater: &mut Restater,
    out: &mut Text,
    at: usize,
    target: Target<'t>,
    right: Part,
) -> Result<(Target<'t>, Value), Stop> {
    match target {
        Target::Variable { .. } => {
            append(restater, out, right.before)?;
            Ok((target, right.value))
        }
        Target::Field { object, name, kind } => {
            let (object, value) = settle_two(restater, out, at, object, right)?;
            let object = settled(object);
            Ok((Target::Field { object, name, kind }, value))
        }
        Target::Element { array, index, kind } => {
            let values = settle(restater, out, at, &[array, index, right])?;
            let (Some(array), Some(index), Some(value)) = (
                values.first(),
                values.get(1),
                values.get(2),
            ) else {
                return refuse(restater, at, Why::Other);
            };
            let array = settled(*array);
            let index = settled(*index);
            Ok((Target::Element { array, index, kind }, *value))
        }
    }
}

// What stands in a target whose parts are evaluated.
fn load(restater: &mut Restater, at: usize, target: Target) -> Result<Value, Stop> {
    match target {
        Target::Variable { variable } => Ok(variable),
        Target::Field { object, name, .. } => member(restater, object.value, name),
        Target::Element { array, index, .. } => { element(restater, at, array.value, index.value) }
    }
}

// A value is written to a target whose parts are evaluated.
fn store(
    restater: &mut Restater,
    out: &mut Text,
    at: usize,
    target: Target,
    value: Value,
) -> Result<(), Stop> {
    let kind = target_kind(target);
    if kind == Kind::Condition || kind == Kind::Random {
        return Ok(());
    }
    let value = as_kind(restater, at, value, kind)?;
    match target {
        Target::Element { array, index, .. } => {
            write_element(restater, out, array.value, index.value, value)
        }
        _ => {
            let place = load(restater, at, target)?;
            emit(restater, out, at, "# = # ;", &[place.text, value.text])
        }
    }
}

// The local that a target is.
fn local_in(target: Target) -> Option<Value> {
    match target {
        Target::Variable { variable } => match variable.sort {
            Sort::Local(_) => Some(variable),
            _ => None,
        },
        _ => None,
    }
}

/// `target = right` (JLS 15.26.1). As a value it is what was assigned.
pub fn assigned(
    restater: &mut Restater,
    out: &mut Text,
    at: usize,
    target: Target,
    right: Part,
    is_value: bool,
) -> Result<Value, Stop> {
    let kind = target_kind(target);
    let mut right = right;
    right.value = as_kind(restater, at, right.value, kind)?;
    if is_value && reads(right.value) {
        let value = right.value;
        right.value = keep_as(restater, &mut right.before, at, value, kind)?;
    }
    let (target, value) = evaluated(restater, out, at, target, right)?;
    store(restater, out, at, target, value)?;
    match (local_in(target), value.sort) {
        (_, Sort::Constant(_)) => Ok(value),
        (Some(local), _) => Ok(local),
        (None, _) => Ok(value),
    }
}

// `target += right`, where the class text has it: a local or a field that is a number.
fn added(
    restater: &mut Restater,
    out: &mut Text,
    at: usize,
    target: Target,
    operator: BinaryOperator,
    right: Part,
) -> Result<Value, Stop> {
    let (target, value) = evaluated(restater, out, at, target, right)?;
    let place = load(restater, at, target)?;
    if operator == BinaryOperator::Add {
        emit(restater, out, at, "# += # ;", &[place.text, value.text])?;
    } else {
        let operand = bound(restater, value, PRIMARY)?;
        emit(restater, out, at, "# += - # ;", &[place.text, operand])?;
    }
    Ok(value)
}

// A part of a target goes to a local if it reads, or if the statements of the right side disturb it.
fn once(
    restater: &mut Restater,
    out: &mut Text,
    at: usize,
    part: Part,
    later: Text,
) -> Result<Part, Stop> {
    if reads(part.value) || is_disturbed(restater, part.value, later) {
        let value = keep(restater, out, at, part.value)?;
        return Ok(settled(value));
    }
    Ok(settled(part.value))
}

// The parts of a target are evaluated once, before what stands there is read.
fn fixed_parts<'t>(
    restater: &mut Restater,
    out: &mut Text,
    at: usize,
    target: Target<'t>,
    later: Text,
) -> Result<Target<'t>, Stop> {
    match target {
        Target::Variable { .. } => Ok(target),
        Target::Field { object, name, kind } => {
            append(restater, out, object.before)?;
            let object = once(restater, out, at, object, later)?;
            Ok(Target::Field { object, name, kind })
        }
        Target::Element { array, index, kind } => {
            let (first, second) = settle_two(restater, out, at, array, index)?;
            let array = once(restater, out, at, settled(first), later)?;
            let index = once(restater, out, at, settled(second), later)?;
            Ok(Target::Element { array, index, kind })
        }
    }
}

// Whether `op=` is `+=` of the class text.
fn is_added(target: Target, operator: BinaryOperator, right: Part) -> bool {
    let adds = operator == BinaryOperator::Add || operator == BinaryOperator::Subtract;
    adds && right.before == Text::EMPTY
        && is_number(target_kind(target))
        && !matches!(&target, Target::Element { .. })
}

/// `target op= right` as a statement (JLS 15.26.2).
pub fn compound_statement(
    restater: &mut Restater,
    out: &mut Text,
    at: usize,
    target: Target,
    operator: BinaryOperator,
    right: Part,
) -> Result<Value, Stop> {
    if is_added(target, operator, right) {
        return added(restater, out, at, target, operator, right);
    }
    let (target, new) = compounded(restater, out, at, target, operator, right)?;
    store(restater, out, at, target, new)?;
    Ok(new)
}

/// `target op= right` as a value: what was assigned.
pub fn compound_value(
    restater: &mut Restater,
    out: &mut Text,
    at: usize,
    target: Target,
    operator: BinaryOperator,
    right: Part,
) -> Result<Value, Stop> {
    let kind = target_kind(target);
    let (target, new) = compounded(restater, out, at, target, operator, right)?;
    let value = keep_as(restater, out, at, new, kind)?;
    store(restater, out, at, target, value)?;
    Ok(value)
}

// What `op=` assigns, and the target with its parts evaluated: what stands there is read, then the right side is
// evaluated (JLS 15.26.2).
fn compounded<'t>(
    restater: &mut Restater,
    out: &mut Text,
    at: usize,
    target: Target<'t>,
    operator: BinaryOperator,
    right: Part,
) -> Result<(Target<'t>, Value), Stop> {
    let target = fixed_parts(restater, out, at, target, right.before)?;
    let found = load(restater, at, target)?;
    let is_element = matches!(&target, Target::Element { .. });
    let old = if right.before != Text::EMPTY || is_element {
        keep(restater, out, at, found)?
    } else {
        found
    };
    append(restater, out, right.before)?;
    let new = binary(restater, out, at, operator, old, right.value)?;
    Ok((target, new))
}

// Whether it counts up.
fn operator_of(count: Count) -> BinaryOperator {
    match count {
        Count::UpBefore => BinaryOperator::Add,
        Count::UpAfter => BinaryOperator::Add,
        Count::DownBefore => BinaryOperator::Subtract,
        Count::DownAfter => BinaryOperator::Subtract,
    }
}

// `target++` or `target--` of the class text, as a statement.
fn counted_in_place(
    restater: &mut Restater,
    out: &mut Text,
    at: usize,
    operator: BinaryOperator,
    place: Value,
) -> Result<(), Stop> {
    let pattern = if operator == BinaryOperator::Add {
        "# ++ ;"
    } else {
        "# -- ;"
    };
    emit(restater, out, at, pattern, &[place.text])
}

// A target that is a number.
fn check_number(restater: &mut Restater, at: usize, target: Target) -> Result<(), Stop> {
    if target_kind(target) == Kind::Int || target_kind(target) == Kind::Item {
        return Ok(());
    }
    refuse(restater, at, Why::CountOf)
}

/// `++` or `--` as a statement.
pub fn count_statement(
    restater: &mut Restater,
    out: &mut Text,
    at: usize,
    target: Target,
    count: Count,
) -> Result<Value, Stop> {
    check_number(restater, at, target)?;
    let operator = operator_of(count);
    let target = fixed_parts_if_element(restater, out, at, target)?;
    let found = load(restater, at, target)?;
    if !matches!(&target, Target::Element { .. }) {
        counted_in_place(restater, out, at, operator, found)?;
        return Ok(found);
    }
    let one = literal(restater, Constant::Int(1), at)?;
    let new = joined(restater, at, operator, found, one)?;
    store(restater, out, at, target, new)?;
    Ok(new)
}

// The parts of a target are evaluated: for an element to locals, since it is read and written.
fn fixed_parts_if_element<'t>(
    restater: &mut Restater,
    out: &mut Text,
    at: usize,
    target: Target<'t>,
) -> Result<Target<'t>, Stop> {
    match target {
        Target::Field { object, name, kind } => {
            append(restater, out, object.before)?;
            let object = settled(object.value);
            Ok(Target::Field { object, name, kind })
        }
        _ => fixed_parts(restater, out, at, target, Text::EMPTY),
    }
}

/// `++` or `--` as a value (JLS 15.14.2, 15.15.1): before it, what stood there; after it, what was assigned.
pub fn count_value(
    restater: &mut Restater,
    out: &mut Text,
    at: usize,
    target: Target,
    count: Count,
) -> Result<Value, Stop> {
    check_number(restater, at, target)?;
    let operator = operator_of(count);
    let target = fixed_parts(restater, out, at, target, Text::EMPTY)?;
    let found = load(restater, at, target)?;
    let one = literal(restater, Constant::Int(1), at)?;
    if count == Count::UpAfter || count == Count::DownAfter {
        let old = keep_as(restater, out, at, found, Kind::Int)?;
        let new = joined(restater, at, operator, old, one)?;
        store(restater, out, at, target, new)?;
        return Ok(old);
    }
    if let Some(local) = local_in(target) {
        counted_in_place(restater, out, at, operator, local)?;
        return Ok(local);
    }
    let new = joined(restater, at, operator, found, one)?;
    let kept = keep_as(restater, out, at, new, Kind::Int)?;
    store(restater, out, at, target, kept)?;
    Ok(kept)
}
