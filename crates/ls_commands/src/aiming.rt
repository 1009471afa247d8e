// The command `aim`.

ghost use Rattle.ls_checked.specs.PlainProgram.{plain_program};
ghost use Rattle.ls_faults.specs.Given.{GivesText};
ghost use Rattle.ls_labels.specs.Names.{names_of};
ghost use Rattle.ls_types_checked.specs.CheckedFile.{elaborated_file};
ghost use Rattle.ls_commands.specs.Aimed.{AimsIn, AimsTo, IsAim};

use crate::showing::names_in;
use ls_aim::aim as schedule_of;
use ls_faults::fault::ToolFault;
use ls_labels::names::Names;
use ls_parser::parsing::parse_text;
use ls_schedule::print_schedule;
use ls_text_laws::schedules_read_back;
use ls_types::{check, read_program};
use ls_types_checked::checked::Checked;
use std::alloc::Global;

/// The text of the schedule to which the targets lead.
fn aimed(alloc: Global, names: Names, targets: &str) -> Result<String, ToolFault>
    ensures { GivesText (IsAim (names_of names.entry) targets.now) result }
{
    let schedule = schedule_of(alloc, names, targets)?;
    Ok(print_schedule(alloc, &schedule, names.program)?)
}

/// The same for the program that the text is for the checked file.
fn run(alloc: Global, checked: &Checked, program: &str, targets: &str) -> Result<String, ToolFault>
    ensures { GivesText (AimsIn (elaborated_file checked.now) program.now targets.now) result }
{
    let program = read_program(alloc, program, checked)?;
    schedules_read_back();
    aimed(alloc, names_in(checked, &program), targets)
}

/// The text of the schedule to which the targets lead, for the Java text.
pub fn aim(alloc: Global, classes: &str, program: &str, targets: &str) -> Result<String, ToolFault>
    ensures { GivesText (AimsTo classes.now program.now targets.now) result }
{
    let parsed = parse_text(alloc, classes)?;
    let checked = check(alloc, parsed)?;
    run(alloc, &checked, program, targets)
}
