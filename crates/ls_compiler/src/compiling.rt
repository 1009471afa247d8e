// The whole way from two texts to an image.

ghost use Rattle.std.specs.Prelude.{IfOk};
ghost use Rattle.ls_image.specs.Images.{Compiles};
ghost use Rattle.ls_compiler.specs.Answers.{CompilesTo, IsWithinLimits};

use crate::fault::CompileFault;
use ls_image::image::Image;
use ls_linker::build;
use ls_parser::parsing::parse_text;
use ls_types::{check, read_program};
use ls_types_checked::source::Source;
use std::alloc::Global;

/// The image of a class text and a program text. Faults come in the order of the stages: those of the class text, of
/// its check, of the program text, and of the code. Memory may run out at any stage.
pub fn compile(alloc: Global, classes: &str, program: &str) -> Result<Image, CompileFault>
    ensures compiled { IfOk result (λ image. Compiles classes.now program.now image) }
    ensures within { IfOk result IsWithinLimits }
    ensures refused { CompilesTo classes.now program.now result }
{
    let parsed = parse_text(alloc, classes)?;
    let checked = check(alloc, parsed)?;
    let program = read_program(alloc, program, &checked)?;
    let source = Source::new(checked, program);
    let code = build(alloc, &source)?;
    Ok(Image::new(source, code))
}
