// Operands, and the order in which they are evaluated (JLS 15.7).

ghost use Rattle.std.specs.Prelude.{◌≡◌, ◌≢◌, IfOk, IsTrue};

use crate::writing::emit;
use ls_java_tables::halves::is_half;
use ls_java_tables::kinds::is_number;
use ls_java_tables::remarks::{Stop, What, Why};
use ls_java_tables::restater::{Restater, fresh, note, refuse};
use ls_java_tables::ropes::{Text, name_bit};
use ls_java_tables::spelling::{append, literal, local_value, word};
use ls_java_tables::types::type_text;
use ls_java_tables::values::{Constant, Kind, PRIMARY, Sort, Value};
use std::alloc::AllocError;

/// An operand: its value, and the statements that come before it.
#[derive(Copy)]
pub struct Part {
    pub value: Value,
    pub before: Text,
}

impl Clone for Part {
    fn clone(&self) -> Result<Part, AllocError> {
        Ok(*self)
    }
}

/// The value goes to a fresh local of a kind.
pub fn keep_as(
    restater: &mut Restater,
    out: &mut Text,
    at: usize,
    value: Value,
    kind: Kind,
) -> Result<Value, Stop>
    ensures { IfOk result (λ kept. kept.sort ≢ Sort.Reading) }
{
    let name = fresh(restater, "t")?;
    let type_name = type_text(restater, kind, at)?;
    let spelled = word(restater, name, at)?;
    emit(
        restater,
        out,
        at,
        "# # = # ;",
        &[type_name, spelled, value.text],
    )?;
    Ok(Value {
        text: spelled,
        kind,
        binding: PRIMARY,
        sort: Sort::Local(name),
        names: name_bit(name),
    })
}

/// The value goes to a fresh local.
pub fn keep(restater: &mut Restater, out: &mut Text, at: usize, value: Value) -> Result<Value, Stop>
    ensures { IfOk result (λ kept. kept.sort ≢ Sort.Reading) }
{
    keep_as(restater, out, at, value, value.kind)
}

/// The value goes to a fresh local if it reads.
pub fn keep_reading(
    restater: &mut Restater,
    out: &mut Text,
    at: usize,
    value: Value,
) -> Result<Value, Stop>
    ensures { IfOk result (λ kept. kept.sort ≢ Sort.Reading) }
{
    if value.sort == Sort::Reading {
        keep(restater, out, at, value)
    } else {
        Ok(value)
    }
}

/// A local without a value.
pub fn declared(
    restater: &mut Restater,
    out: &mut Text,
    at: usize,
    base: &'static str,
    kind: Kind,
) -> Result<Value, Stop> {
    let name = fresh(restater, base)?;
    let type_name = type_text(restater, kind, at)?;
    let spelled = word(restater, name, at)?;
    emit(restater, out, at, "# # ;", &[type_name, spelled])?;
    local_value(restater, name, kind, at)
}

// Whether a value is always the same.
fn is_fixed(value: Value) -> bool {
    match value.sort {
        Sort::Constant(_) => true,
        Sort::Fixed => true,
        _ => false,
    }
}

/// Whether a value can't be moved behind statements: it reads, or it names a word that they name.
pub fn is_disturbed(restater: &Restater, value: Value, later: Text) -> bool
    ensures { later.node ≢ 0 → value.sort ≡ Sort.Reading → IsTrue result }
{
    if later == Text::EMPTY {
        return false;
    }
    if value.sort == Sort::Reading {
        return true;
    }
    !is_fixed(value) && value.names & restater.ropes.names(later) != 0
}

// Whether a later operand has statements that disturb the one at a place.
fn is_moved(restater: &Restater, value: Value, parts: &[Part], place: usize) -> bool {
    parts
        .iter()
        .skip(place.saturating_add(1))
        .any(|later| is_disturbed(restater, value, later.before))
}

/// Operands from left to right (JLS 15.7.1): the statements of each one, and its value, which goes to a local if a
/// later operand has statements that disturb it.
pub fn settle(
    restater: &mut Restater,
    out: &mut Text,
    at: usize,
    parts: &[Part],
) -> Result<Vec<Value>, Stop> {
    let mut settled = Vec::new(restater.alloc);
    for (place, part) in parts.iter().enumerate() {
        append(restater, out, part.before)?;
        let value = if is_moved(restater, part.value, parts, place) {
            keep(restater, out, at, part.value)?
        } else {
            part.value
        };
        settled.push(value).map_err(AllocError::from)?;
    }
    Ok(settled)
}

/// Two operands from left to right, as `settle` has them: the left one doesn't read where the right one has statements.
pub fn settle_two(
    restater: &mut Restater,
    out: &mut Text,
    at: usize,
    left: Part,
    right: Part,
) -> Result<(Value, Value), Stop>
    ensures { IfOk result (λ p. right.before.node ≢ 0 → p.0.sort ≢ Sort.Reading) }
{
    append(restater, out, left.before)?;
    let first = if is_disturbed(restater, left.value, right.before) {
        keep(restater, out, at, left.value)?
    } else {
        left.value
    };
    append(restater, out, right.before)?;
    Ok((first, right.value))
}

// Whether one lock of a ReadWriteLock meets another kind than its own. They are written as different classes.
fn is_other_half(value: Kind, kind: Kind) -> bool {
    value != kind && (is_half(value) || is_half(kind))
}

/// A value where one of a kind is wanted: `null` is 0 where a number is.
pub fn as_kind(
    restater: &mut Restater,
    at: usize,
    value: Value,
    kind: Kind,
) -> Result<Value, Stop> {
    if value.kind != Kind::Null {
        if is_other_half(value.kind, kind) {
            return refuse(restater, at, Why::HalfAsLock);
        }
        return Ok(value);
    }
    if kind == Kind::Boolean {
        return refuse(restater, at, Why::NullBoolean);
    }
    if is_number(kind) {
        note(restater, at, What::ZeroForNull)?;
        return literal(restater, Constant::Int(0), at);
    }
    Ok(value)
}
