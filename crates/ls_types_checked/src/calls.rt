// The calls of a thread program against the classes of a file.

ghost use Rattle.std.specs.Prelude.{◌≡◌, [], IfOk, option_map, Some};
ghost use Rattle.ls_checked.specs.PlainProgram.{plain_call};
ghost use Rattle.ls_types_elaboration.specs.Known.{number_of};
ghost use Rattle.ls_types_elaboration.specs.Tables.{method_sign_of};
ghost use Rattle.ls_types_checked.specs.CheckedFile.{elaborated_file, names_of};
ghost use Rattle.ls_types_programs.specs.ProgramCalls.{maker, is_plain, callable, fits, with_argument, is_full};
ghost use Rattle.ls_types_programs.specs.ProgramCalls.{plain_number, minus_number, call_of};
ghost use Rattle.ls_types_programs.specs.Stops.{Unknown, unmarked, callee_mark, fault_for, why_method, why_value};
ghost use Rattle.ls_types_checked.specs.ProgramViews.{callee_of, pending_of, ReadsAs, Called};

use crate::checked::Checked;
use crate::fault::ProgramFault;
use ls_checked::program::ProgramCall;
use ls_events::value::{Value, ValueType};
use ls_types_elaboration::known::{MethodSign, number_of as class_number};
use ls_types_elaboration::numbers::digits_of;
use std::alloc::{AllocError, Global};

/// What is called: the constructor of a class, for a new setup name; or a method of the object that a setup name
/// holds.
#[derive(Clone, Copy)]
pub enum Callee<'a> {
    Maker {
        name: &'a str,
        class: usize,
        class_name: &'a str,
    },
    Method {
        name: usize,
        method: usize,
        method_name: &'a str,
        answers: Option<ValueType>,
    },
}

/// A call, with the arguments that are read so far, and the place where the class or method is named.
#[derive(Drop)]
pub struct Pending<'a> {
    pub callee: Callee<'a>,
    pub at: usize,
    pub types: Vec<ValueType>,
    pub values: Vec<Value>,
}

fn begun<'a>(
    alloc: Global,
    callee: Callee<'a>,
    at: usize,
    types: &[ValueType],
) -> Result<Pending<'a>, AllocError>
    ensures read { IfOk result
        (λ p. pending_of p ≡ record { callee = callee_of callee.entry; types = types.now; values = [] }) }
    ensures place { IfOk result (λ p. p.at ≡ at) }
{
    Ok(Pending {
        callee,
        at,
        types: Vec::from_slice(alloc, types)?,
        values: Vec::new(alloc),
    })
}

/// A making of a class of the file. If no class has that name, it is refused with `UnknownThing` at `at`. Else the
/// only refusal is that memory ran out.
pub fn maker<'a>(
    alloc: Global,
    checked: &Checked,
    name: &'a str,
    class_name: &'a str,
    at: usize,
) -> Result<Pending<'a>, ProgramFault>
    ensures read { ReadsAs pending_of result
        (maker (elaborated_file checked.now) name.entry.now class_name.entry.now
        (number_of (names_of checked.now) class_name.entry.now)) }
    ensures place { Called at (Unknown at) result }
{
    let Some(class) = class_number(checked.class_names(), class_name) else {
        return Err(ProgramFault::UnknownThing { at });
    };
    let callee = Callee::Maker {
        name,
        class,
        class_name,
    };
    match checked.class_signs().get(class) {
        None => Ok(begun(alloc, callee, at, &[])?),
        Some(c) => Ok(begun(alloc, callee, at, &c.parameters)?),
    }
}

fn is_plain(answers: Option<ValueType>) -> bool
    ensures { result ≡ is_plain answers }
{
    match answers {
        None => true,
        Some(ValueType::Int) => true,
        Some(ValueType::Boolean) => true,
        Some(ValueType::BooleanArray) => false,
        Some(ValueType::Class(_)) => false,
        Some(ValueType::Lock) => false,
        Some(ValueType::Markable(_)) => false,
    }
}

/// A call of the method that is found on what setup name `n` holds. If no method is found, it is refused with
/// `UnknownThing` at `at`. If the method answers a reference, it is refused with `ReferenceResult` at `at`. Else the
/// only refusal is that memory ran out.
pub fn called_on<'a>(
    alloc: Global,
    found: Option<&MethodSign>,
    n: usize,
    name: &'a str,
    at: usize,
) -> Result<Pending<'a>, ProgramFault>
    ensures read { ReadsAs pending_of result
        (callable n name.entry.now (option_map (λ m. method_sign_of m.now) found.entry)) }
    ensures place { Called at (fault_for unmarked at (why_method (option_map (λ m. method_sign_of m.now) found.entry)))
        result }
{
    let Some(m) = found else {
        return Err(ProgramFault::UnknownThing { at });
    };
    if !is_plain(m.result) {
        return Err(ProgramFault::ReferenceResult { at });
    }
    let callee = Callee::Method {
        name: n,
        method: m.number,
        method_name: name,
        answers: m.result,
    };
    Ok(begun(alloc, callee, at, &m.parameters)?)
}

fn fits(t: ValueType, v: Value) -> bool
    ensures { result ≡ fits (Some t) v }
{
    match (t, v) {
        (ValueType::Int, Value::Int(_)) => true,
        (ValueType::Boolean, Value::Boolean(_)) => true,
        _ => false,
    }
}

/// One more argument, which is at `at`. If it is one too many, it is refused with `UnknownThing` at the place of the
/// class or method. If it is of another type than its parameter, it is refused with `UnknownThing` at `at`. Else the
/// only refusal is that memory ran out.
pub fn with_argument<'a>(
    mut p: Pending<'a>,
    v: Value,
    at: usize,
) -> Result<Pending<'a>, ProgramFault>
    ensures read { ReadsAs pending_of result (with_argument (pending_of p.entry) v) }
    ensures place { Called p.entry.at (fault_for (callee_mark p.entry.at) at (why_value (pending_of p.entry))) result }
{
    let Some(t) = p.types.get(p.values.len()) else {
        return Err(ProgramFault::UnknownThing { at: p.at });
    };
    if !fits(*t, v) {
        return Err(ProgramFault::UnknownThing { at });
    }
    p.values.push(v)?;
    Ok(p)
}

/// Whether every parameter has its argument.
pub fn is_full(p: &Pending) -> bool
    ensures { result ≡ is_full (pending_of p.now) }
{
    p.values.len() == p.types.len()
}

/// A number without a minus, if it is below 2147483648.
pub fn plain_number(text: &str) -> Option<Value>
    ensures { result ≡ plain_number text.now }
{
    let n = digits_of(text.as_bytes());
    if n < 2_147_483_648 {
        Some(Value::Int(n as i32))
    } else {
        None
    }
}

/// A number after a minus.
pub fn minus_number(text: &str) -> Value
    ensures { result ≡ minus_number text.now }
{
    let n = digits_of(text.as_bytes()) as i64;
    Value::Int((-n) as i32)
}

/// The call as the program keeps it. The only refusal is that memory ran out.
pub fn call_of(alloc: Global, names: usize, p: Pending) -> Result<ProgramCall, AllocError>
    ensures { IfOk result (λ c. plain_call c ≡ call_of names (pending_of p.entry)) }
{
    let values = p.values;
    match p.callee {
        Callee::Maker {
            class,
            class_name,
            ..
        } => {
            let class_name = String::from_str(alloc, class_name)?;
            Ok(ProgramCall::Making {
                name: names,
                class,
                class_name,
                values,
            })
        }
        Callee::Method {
            name,
            method,
            method_name,
            answers,
        } => {
            let method_name = String::from_str(alloc, method_name)?;
            Ok(ProgramCall::Calling {
                name,
                method,
                method_name,
                result: answers,
                values,
            })
        }
    }
}
