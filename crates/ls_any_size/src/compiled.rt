// Programs of one call, compiled.

ghost use Rattle.std.specs.Prelude.{IfOk, IfSome, string_bytes};
ghost use Rattle.ls_families.specs.Texts.{alone_text};
ghost use Rattle.ls_image.specs.Images.{Compiles};

use ls_compiler::compile;
use ls_compiler::fault::CompileFault;
use ls_families::print_alone;
use ls_image::image::Image;
use ls_lexer::fault::TextFault;
use ls_types_checked::checked::CheckFault;
use ls_types_checked::fault::ProgramFault;
use std::alloc::{AllocError, Global};

/// The image of a class text with the program that makes the object and then makes this call. None if there is none.
pub(crate) fn with_call(
    alloc: Global,
    classes: &str,
    making: &str,
    call: &str,
) -> Result<Option<Image>, AllocError>
    ensures { IfOk result (λ some. IfSome some (Compiles classes.now (alone_text making.now 0 call.now))) }
{
    let program = print_alone(alloc, making, 0, call)?;
    match compile(alloc, classes, program.as_str()) {
        Ok(image) => Ok(Some(image)),
        Err(
            CompileFault::Text(TextFault::Memory)
            | CompileFault::Check(CheckFault::Memory)
            | CompileFault::Program(ProgramFault::Memory),
        ) => Err(AllocError),
        Err(_) => Ok(None),
    }
}
