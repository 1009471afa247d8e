// Schedules and their runs.

ghost use Rattle.std.specs.Prelude.{◌≡◌, ◌++◌, ◌+◌, ◌≤◌, IfOk, length, replicate};
ghost use Rattle.ls_events.specs.Limits.{most_steps};
ghost use Rattle.ls_checked.specs.Plain.{plain_file};
ghost use Rattle.ls_checked.specs.PlainProgram.{plain_program};
ghost use Rattle.ls_source.specs.Stands.{StandsFor};
ghost use Rattle.ls_serial_search.specs.Orders.{progress_at};

use ls_checked::program::Program;
use ls_checked::tree::File;
use ls_events::schedule::Schedule;
use ls_source::playing::Playing;
use std::alloc::{AllocError, Global};

/// The run of a program of a file after these threads' steps. The only refusal is that memory ran out.
pub fn played_along<'a>(
    alloc: Global,
    file: &'a File,
    program: &'a Program,
    steps: &[u8],
) -> Result<Playing<'a>, AllocError>
    ensures { IfOk result
        (λ r. StandsFor r (progress_at (plain_file file.now) (plain_program program.now) steps.now)) }
{
    let mut run = Playing::new(alloc, file, program)?;
    for thread in steps {
        let _did = run.step(alloc, *thread as usize)?;
    }
    Ok(run)
}

/// The run of a program of a file after a schedule. The only refusal is that memory ran out.
pub(crate) fn played<'a>(
    alloc: Global,
    file: &'a File,
    program: &'a Program,
    schedule: &Schedule,
) -> Result<Playing<'a>, AllocError>
    ensures { IfOk result
        (λ r. StandsFor r (progress_at (plain_file file.now) (plain_program program.now) schedule.now)) }
{
    played_along(alloc, file, program, schedule.steps())
}

/// The schedule with so many steps more of a thread. The only refusal is that memory ran out.
pub(crate) fn with_steps(
    alloc: Global,
    schedule: &Schedule,
    thread: u8,
    count: usize,
) -> Result<Schedule, AllocError>
    requires { length schedule.now + count ≤ most_steps }
    ensures { IfOk result (λ longer. longer ≡ schedule.now ++ replicate count thread) }
{
    let mut longer = schedule.copied(alloc)?;
    longer.push_run(thread, count)?;
    Ok(longer)
}
