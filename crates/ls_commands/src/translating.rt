// The command `translate`.

ghost use Rattle.ls_commands.specs.Compiled.{names_of_image};
ghost use Rattle.ls_commands.specs.Translated.{Translated, TranslatesTo, Turned};
ghost use Rattle.ls_faults.specs.Given.{GivesText, GivesOne};
ghost use Rattle.ls_schedule.specs.Reading.{schedule_of};

use ls_command_line::Side;
use ls_compiler::compile;
use ls_events::schedule::Schedule;
use ls_faults::fault::ToolFault;
use ls_image::image::Image;
use ls_schedule::{print_schedule, read_schedule};
use ls_translation::{to_machine, to_source};
use std::alloc::Global;

/// The schedule of the other side.
fn turned(
    alloc: Global,
    image: &Image,
    to: Side,
    cells: usize,
    schedule: &Schedule,
) -> Result<Schedule, ToolFault>
    ensures { GivesOne (λ steps. steps) (Turned image.now cells schedule.now to) result }
{
    match to {
        Side::Source => Ok(to_source(alloc, image, cells, schedule)?),
        Side::Machine => Ok(to_machine(alloc, image, cells, schedule)?),
    }
}

/// The text of the schedule of the other side.
fn translated(
    alloc: Global,
    image: &Image,
    to: Side,
    cells: usize,
    schedule: &str,
) -> Result<String, ToolFault>
    ensures { GivesText (Translated image.now to cells (schedule_of (names_of_image image.now) schedule.now)) result }
{
    let schedule = read_schedule(alloc, schedule, image.program())?;
    let steps = turned(alloc, image, to, cells, &schedule)?;
    Ok(print_schedule(alloc, &steps, image.program())?)
}

/// The schedule of the other side, for a compiled program and a machine with so many cells.
pub fn translate(
    alloc: Global,
    to: Side,
    cells: usize,
    classes: &str,
    program: &str,
    schedule: &str,
) -> Result<String, ToolFault>
    ensures { GivesText (TranslatesTo to cells classes.now program.now schedule.now) result }
{
    let image = compile(alloc, classes, program)?;
    translated(alloc, &image, to, cells, schedule)
}
