// The command `replay`.

ghost use Rattle.ls_schedule.specs.Reading.{schedule_of};
ghost use Rattle.ls_commands.specs.Compiled.{names_of_image, Replayed, ReplaysTo};
ghost use Rattle.ls_faults.specs.Given.{GivesText};

use ls_compiler::compile;
use ls_faults::fault::ToolFault;
use ls_image::image::Image;
use ls_report::print_history;
use ls_schedule::read_schedule;
use ls_text_laws::compiled_is_readable;
use std::alloc::Global;

/// The history of the image's run under the schedule, on a machine with so many cells.
fn replayed(alloc: Global, image: &Image, cells: usize, schedule: &str) -> Result<String, ToolFault>
    ensures { GivesText (Replayed image.now cells (schedule_of (names_of_image image.now) schedule.now)) result }
{
    let schedule = read_schedule(alloc, schedule, image.program())?;
    let record = ls_schedule::replay(alloc, image, cells, schedule)?;
    Ok(print_history(alloc, record.history(), image.program())?)
}

/// The history of the compiled program's run under the schedule, on a machine with so many cells.
pub fn replay(
    alloc: Global,
    cells: usize,
    classes: &str,
    program: &str,
    schedule: &str,
) -> Result<String, ToolFault>
    ensures { GivesText (ReplaysTo cells classes.now program.now schedule.now) result }
{
    let image = compile(alloc, classes, program)?;
    compiled_is_readable();
    replayed(alloc, &image, cells, schedule)
}
