// Entries of a menu, compiled.

ghost use Rattle.std.specs.Prelude.{◌≡◌, IfNone, IfOk, IfSome, map};
ghost use Rattle.ls_checked.specs.PlainProgram.{plain_call, plain_program};
ghost use Rattle.ls_find_commands.specs.Entries.{CompilesNot, IsEntry, setup_calls};

use ls_checked::program::{Program, ProgramCall};
use ls_compiler::compile;
use ls_families::print_alone;
use ls_faults::fault::ToolFault;
use ls_image::image::Image;
use std::alloc::{AllocError, Global};

/// The image of a class text with the program that makes an object and then makes the calls of an entry. None if they
/// don't compile. The only refusal is that memory ran out.
pub(crate) fn compiled_entry(
    alloc: Global,
    classes: &str,
    making: &str,
    calls: &str,
) -> Result<Option<Image>, AllocError>
    ensures some { IfOk result (λ some. IfSome some (IsEntry classes.now making.now calls.now)) }
    ensures none { IfOk result (λ some. IfNone some (CompilesNot classes.now making.now calls.now)) }
{
    let program = print_alone(alloc, making, 0, calls)?;
    match compile(alloc, classes, program.as_str()) {
        Ok(image) => Ok(Some(image)),
        Err(fault) => match ToolFault::from(fault) {
            ToolFault::Memory => Err(AllocError),
            _ => Ok(None),
        },
    }
}

/// The calls of a program's setup.
pub(crate) fn setup_calls(program: &Program) -> &[ProgramCall]
    ensures { map plain_call result.now ≡ setup_calls (plain_program program.now) }
{
    match program.threads.first() {
        Some(setup) => setup.calls.as_slice(),
        None => &[],
    }
}
