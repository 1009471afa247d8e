// The command `order` for a history of a program.

ghost use Rattle.ls_checked.specs.PlainProgram.{plain_program};
ghost use Rattle.ls_faults.specs.Given.{GivesText};
ghost use Rattle.ls_types_checked.specs.CheckedFile.{elaborated_file};
ghost use Rattle.ls_commands.specs.Compiled.{plain_program_of};
ghost use Rattle.ls_commands.specs.Likeness.{AnswersLike, OrdersLike};
ghost use Rattle.ls_image.specs.Images.{checked_of};
ghost use Rattle.ls_commands.specs.SerialOrdered.{OrdersIn, OrdersOf, OrdersSerially};

use crate::checking::with_feed;
use ls_checked::program::Program;
use ls_compiler::compile;
use ls_faults::fault::ToolFault;
use ls_image::image::Image;
use ls_parser::parsing::parse_text;
use ls_report::{HistoryFault, read_history};
use ls_serial_orders::{Named, run_of, tell};
use ls_specified::specified;
use ls_types::{check, read_program};
use ls_types_checked::checked::Checked;
use std::alloc::Global;

/// The order of whole calls that explains a history of a program of the checked file.
fn ordered(
    alloc: Global,
    checked: &Checked,
    program: &Program,
    history: &str,
) -> Result<String, ToolFault>
    ensures { GivesText (OrdersOf (elaborated_file checked.now) (plain_program program.now) history.now) result }
{
    let history = with_feed(alloc, history)?;
    let history = read_history(alloc, history.as_str())?;
    match run_of(alloc, program, history.events())? {
        Named::Run(run) => {
            let text = tell(alloc, checked.file(), program, run.as_slice())?;
            Ok(text)
        }
        Named::Foreign(at) => Err(ToolFault::History(HistoryFault::BadHistory { at })),
    }
}

/// The same for the program that the text is for the checked file.
fn run(alloc: Global, checked: &Checked, program: &str, history: &str) -> Result<String, ToolFault>
    ensures { GivesText (OrdersIn (elaborated_file checked.now) program.now history.now) result }
{
    let program = read_program(alloc, program, checked)?;
    ordered(alloc, checked, &program, history)
}

/// The order of whole calls that explains a history of a program, or the event from which on none does.
pub fn serial_order(
    alloc: Global,
    classes: &str,
    program: &str,
    history: &str,
) -> Result<String, ToolFault>
    ensures { GivesText (OrdersSerially classes.now program.now history.now) result }
{
    let parsed = parse_text(alloc, classes)?;
    let checked = check(alloc, parsed)?;
    run(alloc, &checked, program, history)
}

/// The order that explains a history of an image's program by a reference, which specifies the program of a text.
fn ordered_by(
    alloc: Global,
    image: &Image,
    reference: &str,
    program: &str,
    history: &str,
) -> Result<String, ToolFault>
    ensures { GivesText (AnswersLike reference.now program.now image.now
        (λ s. OrdersOf (elaborated_file (checked_of s)) (plain_program_of s) history.now)) result }
{
    let like = specified(alloc, reference, program, image.program())?;
    ordered(alloc, like.checked(), like.program(), history)
}

/// The order of whole calls of a reference that explains a history of a program, or the event from which on none does.
pub fn serial_order_like(
    alloc: Global,
    reference: &str,
    classes: &str,
    program: &str,
    history: &str,
) -> Result<String, ToolFault>
    ensures { GivesText (OrdersLike reference.now classes.now program.now history.now) result }
{
    let image = compile(alloc, classes, program)?;
    ordered_by(alloc, &image, reference, program, history)
}
