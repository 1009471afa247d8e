// The command `compile`.

ghost use Rattle.std.specs.Prelude.{IfOk, ◌≡◌, string_bytes};
ghost use Rattle.ls_checked.specs.PlainProgram.{plain_program};
ghost use Rattle.ls_image.specs.Images.{program_of_image};
ghost use Rattle.ls_commands.specs.Compiled.{counts_text, CountsTo, file_of_image};
ghost use Rattle.ls_faults.specs.Given.{GivesText};

use ls_compiler::compile;
use ls_faults::fault::ToolFault;
use ls_image::image::Image;
use std::alloc::{AllocError, Global};
use std::fmt::Write;

/// How many classes, methods and threads an image has. Constructors count as methods, and the setup as no thread.
fn counts_text(alloc: Global, image: &Image) -> Result<String, AllocError>
    ensures { IfOk result (λ text. string_bytes text ≡
        counts_text (file_of_image image.now) (plain_program (program_of_image image.now))) }
{
    let file = image.checked().file();
    let classes = file.classes.len();
    let methods = file.methods.len();
    let threads = image.program().threads.len().saturating_sub(1);
    format!(in alloc; "classes {classes}\nmethods {methods}\nthreads {threads}\n")
}

/// How many classes, methods and threads the image of the two texts has.
pub fn count(alloc: Global, classes: &str, program: &str) -> Result<String, ToolFault>
    ensures { GivesText (CountsTo classes.now program.now) result }
{
    let image = compile(alloc, classes, program)?;
    Ok(counts_text(alloc, &image)?)
}
