// Which calls and names are the same.

ghost use Rattle.std.specs.Prelude.{◌≡◌, map};
ghost use Rattle.std.specs.Bool.{Decides};
ghost use Rattle.ls_checked.specs.PlainProgram.{plain_call, plain_name};

use ls_checked::program::{ProgramCall, SetupName};
use ls_events::value::{Value, ValueType};

/// Whether values are the same.
fn same_values(first: &[Value], second: &[Value]) -> bool
    ensures { Decides result (first.now ≡ second.now) }
{
    first == second
}

/// Whether results are the same.
fn same_results(first: Option<ValueType>, second: Option<ValueType>) -> bool
    ensures { Decides result (first ≡ second) }
{
    first == second
}

/// Whether two calls are the same.
pub fn same_call(first: &ProgramCall, second: &ProgramCall) -> bool
    ensures { Decides result (plain_call first.now ≡ plain_call second.now) }
{
    match (first, second) {
        (
            ProgramCall::Making {
                name: first_name,
                class: first_class,
                class_name: first_text,
                values: first_values,
            },
            ProgramCall::Making {
                name,
                class,
                class_name,
                values,
            },
        ) => {
            first_name == name
                && first_class == class
                && first_text.as_str() == class_name.as_str()
                && same_values(first_values.as_slice(), values.as_slice())
        }
        (
            ProgramCall::Calling {
                name: first_name,
                method: first_method,
                method_name: first_text,
                result: first_result,
                values: first_values,
            },
            ProgramCall::Calling {
                name,
                method,
                method_name,
                result,
                values,
            },
        ) => {
            first_name == name
                && first_method == method
                && first_text.as_str() == method_name.as_str()
                && same_results(*first_result, *result)
                && same_values(first_values.as_slice(), values.as_slice())
        }
        _ => false,
    }
}

/// Whether calls are the same, one after another.
pub fn same_calls(first: &[ProgramCall], second: &[ProgramCall]) -> bool
    ensures { Decides result (map plain_call first.now ≡ map plain_call second.now) }
{
    if first.len() != second.len() {
        return false;
    }
    for i in 0..first.len() {
        if !same_call(&first[i], &second[i]) {
            return false;
        }
    }
    true
}

/// Whether two setup names are the same, and of objects of one class.
fn same_name(first: &SetupName, second: &SetupName) -> bool
    ensures { Decides result (plain_name first.now ≡ plain_name second.now) }
{
    first.class == second.class && first.name.as_str() == second.name.as_str()
}

/// Whether setup names are the same, one after another.
pub fn same_names(first: &[SetupName], second: &[SetupName]) -> bool
    ensures { Decides result (map plain_name first.now ≡ map plain_name second.now) }
{
    if first.len() != second.len() {
        return false;
    }
    for i in 0..first.len() {
        if !same_name(&first[i], &second[i]) {
            return false;
        }
    }
    true
}
