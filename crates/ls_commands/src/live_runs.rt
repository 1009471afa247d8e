// The commands that run live threads: `live`, and `replay` with its turns.

ghost use Rattle.std.specs.Prelude.{IfOk, ◌≡◌, ◌++◌, string_bytes};
ghost use Rattle.ls_checked.specs.PlainProgram.{plain_program};
ghost use Rattle.ls_commands.specs.Compiled.{names_of_image};
ghost use Rattle.ls_commands.specs.Lived.{Lived, LivesTo, NoMore, ReplayedLive, ReplaysLiveTo};
ghost use Rattle.ls_faults.specs.Given.{GivesText};
ghost use Rattle.ls_report.specs.Printing.{run_text};
ghost use Rattle.ls_schedule.specs.Printing.{schedule_text};
ghost use Rattle.ls_schedule.specs.Reading.{schedule_of, thread_names};
ghost use Rattle.ls_schedule.specs.Records.{happened, scheduled};

use ls_checked::program::Program;
use ls_compiler::compile;
use ls_faults::fault::ToolFault;
use ls_image::image::Image;
use ls_live::{OpenGate, play_live, play_turns};
use ls_report::print_history;
use ls_schedule::{Record, print_schedule, read_schedule};
use ls_text_laws::{compiled_is_readable, schedules_read_back};
use std::alloc::{AllocError, Global};
use std::sync::Wait;
use std::thread::Threads;

/// The schedule of a record, and after it its history.
fn record_text(alloc: Global, kept: &Record, program: &Program) -> Result<String, AllocError>
    ensures { IfOk result (λ text. string_bytes text ≡ schedule_text (thread_names program.now) (scheduled kept.now) ++
        run_text (plain_program program.now) (happened kept.now)) }
{
    let mut text = print_schedule(alloc, kept.schedule(), program)?;
    let history = print_history(alloc, kept.history(), program)?;
    text.push_str(history.as_str())?;
    Ok(text)
}

/// The record of a live run of an image, on a machine with so many cells, as a text.
fn lived<R: Threads + Wait + Sync>(
    rt: &R,
    alloc: Global,
    image: &Image,
    cells: usize,
    limit: usize,
) -> Result<String, ToolFault>
    ensures { GivesText (Lived image.now cells limit NoMore) result }
{
    let record = play_live(rt, alloc, image, cells, limit, &OpenGate)?;
    Ok(record_text(alloc, &record, image.program())?)
}

/// A live run of the compiled program: the schedule that was recorded, of steps that are each of a thread that is due,
/// and its history. `replay` of what is printed of the schedule prints that history.
pub fn live<R: Threads + Wait + Sync>(
    rt: &R,
    alloc: Global,
    cells: usize,
    limit: usize,
    classes: &str,
    program: &str,
) -> Result<String, ToolFault>
    ensures { GivesText (LivesTo cells limit classes.now program.now) result }
{
    let image = compile(alloc, classes, program)?;
    compiled_is_readable();
    schedules_read_back();
    lived(rt, alloc, &image, cells, limit)
}

/// The history of the image's run under the schedule, each thread of the program on a thread of its own.
fn replayed_live<R: Threads + Wait + Sync>(
    rt: &R,
    alloc: Global,
    image: &Image,
    cells: usize,
    schedule: &str,
) -> Result<String, ToolFault>
    ensures { GivesText (ReplayedLive image.now cells (schedule_of (names_of_image image.now) schedule.now)) result }
{
    let schedule = read_schedule(alloc, schedule, image.program())?;
    let record = play_turns(rt, alloc, image, cells, &schedule, &OpenGate)?;
    Ok(print_history(alloc, record.history(), image.program())?)
}

/// The history of the compiled program's run under the schedule, each thread of it on a thread of its own, in the
/// schedule's turns.
pub fn replay_live<R: Threads + Wait + Sync>(
    rt: &R,
    alloc: Global,
    cells: usize,
    classes: &str,
    program: &str,
    schedule: &str,
) -> Result<String, ToolFault>
    ensures { GivesText (ReplaysLiveTo cells classes.now program.now schedule.now) result }
{
    let image = compile(alloc, classes, program)?;
    compiled_is_readable();
    replayed_live(rt, alloc, &image, cells, schedule)
}
