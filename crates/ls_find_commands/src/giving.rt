// Which calls that run one at a time are looked for.

ghost use Rattle.std.specs.Prelude.{◌≡◌, ◌⊎◌, IfOk, false, map, true};
ghost use Rattle.std.specs.List.{list_any};
ghost use Rattle.ls_checked.specs.Plain.{plain_file};
ghost use Rattle.ls_checked.specs.PlainProgram.{plain_call};
ghost use Rattle.ls_find_commands.specs.Entries.{CompilesNot};
ghost use Rattle.ls_find_commands.specs.Giving.{Gives, IsWanted, NoneGives, SomeGives, call_gives, setup_gives};
ghost use Rattle.ls_translation.specs.Texts.{file_of, program_of};

use crate::entries::{compiled_entry, setup_calls};
use ls_alone::Wanted;
use ls_checked::program::ProgramCall;
use ls_checked::tree::File;
use ls_family_search::Programs;
use ls_guarded::giving::gives_back;
use ls_image::image::Image;
use std::alloc::{AllocError, Global};

/// Whether a call is of a method that may give back a lock that another call has taken.
fn call_gives(alloc: Global, file: &File, call: &ProgramCall) -> Result<bool, AllocError>
    ensures { IfOk result (λ gives. gives ≡ call_gives (plain_file file.now) (plain_call call.now)) }
{
    match call {
        ProgramCall::Making { .. } => Ok(false),
        ProgramCall::Calling { method, .. } => gives_back(alloc, file, *method),
    }
}

/// Whether one of some calls is.
fn any_gives(alloc: Global, file: &File, calls: &[ProgramCall]) -> Result<bool, AllocError>
    ensures { IfOk result (λ gives. gives ≡ list_any (call_gives (plain_file file.now)) (map plain_call calls.now)) }
{
    for call in calls {
        if call_gives(alloc, file, call)? {
            return Ok(true);
        }
    }
    Ok(false)
}

/// Whether a call of the setup is.
fn setup_gives(alloc: Global, image: &Image) -> Result<bool, AllocError>
    ensures { IfOk result (λ gives. gives ≡ setup_gives (file_of image.now) (program_of image.now)) }
{
    any_gives(alloc, image.checked().file(), setup_calls(image.program()))
}

/// Whether a call of an entry is, or the entry doesn't compile.
fn entry_gives(alloc: Global, classes: &str, making: &str, calls: &str) -> Result<bool, AllocError>
    ensures none { IfOk result (λ some. some ≡ false → Gives false classes.now making.now calls.now) }
    ensures one { IfOk result (λ some. some ≡ true →
        Gives true classes.now making.now calls.now ⊎ CompilesNot classes.now making.now calls.now) }
{
    match compiled_entry(alloc, classes, making, calls)? {
        Some(image) => setup_gives(alloc, &image),
        None => Ok(true),
    }
}

/// Whether a call of some entry of the menu is, or an entry doesn't compile.
fn some_gives(alloc: Global, classes: &str, programs: &Programs<'_>) -> Result<bool, AllocError>
    ensures none { IfOk result (λ some. some ≡ false → NoneGives classes.now programs.now) }
    ensures one { IfOk result (λ some. some ≡ true → SomeGives classes.now programs.now) }
{
    let making = programs.making();
    let entries = programs.calls(alloc)?;
    for calls in entries.as_slice() {
        if entry_gives(alloc, classes, making, calls.as_str())? {
            return Ok(true);
        }
    }
    Ok(false)
}

/// Which faults of calls that run one at a time are looked for: each, if that is asked. Else, if threads that wait are
/// looked for, that a thread waits, unless the menu has a call that gives back a lock that another call has taken. The
/// only refusal is that memory ran out.
pub(crate) fn wanted_of(
    alloc: Global,
    strict: bool,
    waiting: bool,
    classes: &str,
    programs: &Programs<'_>,
) -> Result<Wanted, AllocError>
    ensures { IfOk result (IsWanted strict waiting classes.now programs.now) }
{
    if strict {
        return Ok(Wanted::All);
    }
    if !waiting {
        return Ok(Wanted::Nothing);
    }
    let some = some_gives(alloc, classes, programs)?;
    if some {
        return Ok(Wanted::Nothing);
    }
    Ok(Wanted::Waits)
}
