// The image of a class text that specifies a program.

ghost use Rattle.std.specs.Prelude.{IfErr, IfOk};
ghost use Rattle.ls_checked.specs.PlainProgram.{plain_program};
ghost use Rattle.ls_specified.specs.Specified.{IsNoSpecification, Specifies};

use crate::fault::SpecificationFault;
use crate::results::{are_same, results_of};
use ls_checked::program::Program;
use ls_compiler::compile;
use ls_image::image::Image;
use std::alloc::Global;

/// The image of a class text that specifies a program, with the program's text. Each call answers the type there that
/// it answers in the program.
pub fn specified(
    alloc: Global,
    like: &str,
    text: &str,
    program: &Program,
) -> Result<Image, SpecificationFault>
    ensures some { IfOk result (Specifies like.now text.now (plain_program program.now)) }
    ensures none { IfErr result (IsNoSpecification like.now text.now (plain_program program.now)) }
{
    let image = match compile(alloc, like, text) {
        Ok(image) => image,
        Err(fault) => return Err(SpecificationFault::NotCompiled(fault)),
    };
    let Ok(results) = results_of(alloc, image.program().threads.as_slice()) else {
        return Err(SpecificationFault::Memory);
    };
    let Ok(wanted) = results_of(alloc, program.threads.as_slice()) else {
        return Err(SpecificationFault::Memory);
    };
    if !are_same(results.as_slice(), wanted.as_slice()) {
        return Err(SpecificationFault::OtherResult);
    }
    Ok(image)
}
