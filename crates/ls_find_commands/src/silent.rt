// Whether a menu has a call that answers a value.

ghost use Rattle.std.specs.Prelude.{◌≡◌, ◌⊎◌, IfOk, false, map, string_bytes, true};
ghost use Rattle.std.specs.List.{list_any};
ghost use Rattle.ls_checked.specs.PlainProgram.{plain_call, plain_program};
ghost use Rattle.ls_find_commands.specs.Entries.{CompilesNot};
ghost use Rattle.ls_find_commands.specs.Silent.{Answer, IsNotSilent, IsSilent, IsSilentBeside, answers_value};
ghost use Rattle.ls_find_commands.specs.Silent.{setup_answers};

use crate::entries::{compiled_entry, setup_calls};
use ls_checked::program::{Program, ProgramCall};
use ls_family_search::Programs;
use std::alloc::{AllocError, Global};

/// Whether a call is of a method that answers a value.
fn answers_value(call: &ProgramCall) -> bool
    ensures { result ≡ answers_value (plain_call call.now) }
{
    match call {
        ProgramCall::Making { .. } => false,
        ProgramCall::Calling { result, .. } => result.is_some(),
    }
}

/// Whether one of some calls is.
fn any_answers(calls: &[ProgramCall]) -> bool
    ensures { result ≡ list_any answers_value (map plain_call calls.now) }
{
    for call in calls {
        if answers_value(call) {
            return true;
        }
    }
    false
}

/// Whether a call of the setup is.
fn setup_answers(program: &Program) -> bool
    ensures { result ≡ setup_answers (plain_program program.now) }
{
    any_answers(setup_calls(program))
}

/// Whether one of the calls of an entry answers a value, or the entry doesn't compile.
fn answers(alloc: Global, classes: &str, making: &str, calls: &str) -> Result<bool, AllocError>
    ensures none { IfOk result (λ some. some ≡ false → Answer false classes.now making.now calls.now) }
    ensures one { IfOk result (λ some. some ≡ true →
        Answer true classes.now making.now calls.now ⊎ CompilesNot classes.now making.now calls.now) }
{
    match compiled_entry(alloc, classes, making, calls)? {
        Some(image) => Ok(setup_answers(image.program())),
        None => Ok(true),
    }
}

/// Whether no call of which threads choose answers a value.
fn is_silent(alloc: Global, classes: &str, programs: &Programs<'_>) -> Result<bool, AllocError>
    ensures silent { IfOk result (λ silent. silent ≡ true → IsSilent classes.now programs.now) }
    ensures one { IfOk result (λ silent. silent ≡ false → IsNotSilent classes.now programs.now) }
{
    let making = programs.making();
    for calls in programs.menu().threads() {
        if answers(alloc, classes, making, calls.as_str())? {
            return Ok(false);
        }
    }
    Ok(true)
}

/// What is said beside `none` of a menu without a call that answers a value, where that is asked.
pub(crate) fn silent_beside(
    alloc: Global,
    asked: bool,
    classes: &str,
    programs: &Programs<'_>,
) -> Result<String, AllocError>
    ensures { IfOk result (λ text. IsSilentBeside asked classes.now programs.now (string_bytes text)) }
{
    if !asked {
        return Ok(String::new(alloc));
    }
    let silent = is_silent(alloc, classes, programs)?;
    if !silent {
        return Ok(String::new(alloc));
    }
    String::from_str(
        alloc,
        "// no call of the menu answers a value: of its calls it is only told which throw, wait or turn for ever\n",
    )
}
