// A schedule after which a call never ends, though it ends in calls that run one at a time.

ghost use Rattle.std.specs.Prelude.{◌≡◌, ◌≤◌, IfOk, true};
ghost use Rattle.ls_checked.specs.CheckedTree.{File as FileValue};
ghost use Rattle.ls_checked.specs.CheckedProgram.{Program as ProgramValue};
ghost use Rattle.ls_checked.specs.Plain.{plain_file};
ghost use Rattle.ls_checked.specs.PlainProgram.{plain_program};
ghost use Rattle.ls_serial_search.specs.Endless.{AreEndlessRuns, TellEndlessRuns};
ghost use Rattle.ls_serial_search.specs.Histories.{lists_of};
ghost use Rattle.ls_specification.specs.Specification.{spec_file, spec_program};
ghost use Rattle.ls_spinning.specs.Turning.{TurnsForEver};
ghost use Rattle.ls_endless_calls.specs.Turning.{IsEndless};

use crate::excusing::is_unexcused;
use crate::listing::{Left, left_over};
use ls_checked::program::Program;
use ls_checked::tree::File;
use ls_events::schedule::{MOST_STEPS, Schedule};
use ls_serial_search::endless::{EndlessRuns, endless_runs};
use ls_serial_search::telling::Bounds;
use ls_specification::Specification;
use ls_spinning::{Turning, find_turning, turns_after};
use std::alloc::{AllocError, Global};

/// Whether threads turn for ever in calls that end where calls run one at a time.
#[derive(Drop)]
pub enum Endless {
    /// After no schedule.
    Never,
    /// After this one.
    After(Schedule),
    /// It isn't known.
    Unknown,
}

/// Whether threads turn for ever so after these steps, if it is known, by a specification whose runs these are.
fn confirmed(
    alloc: Global,
    file: &File,
    program: &Program,
    endless: &EndlessRuns,
    steps: Vec<u8>,
    limit: usize,
) -> Result<Endless, AllocError>
    ensures { IfOk result (λ e. (sfile : FileValue) (sprogram : ProgramValue) →
        (endless.now.complete ≡ true → TellEndlessRuns sfile sprogram (lists_of endless.now.runs.items)) →
        IsEndless sfile sprogram (plain_file file.now) (plain_program program.now) e) }
{
    if steps.len() > MOST_STEPS {
        return Ok(Endless::Unknown);
    }
    let schedule = Schedule::of(steps);
    if !turns_after(alloc, file, program, &schedule, limit)?
        || !is_unexcused(alloc, file, program, endless, &schedule)?
    {
        return Ok(Endless::Unknown);
    }
    Ok(Endless::After(schedule))
}

/// Whether threads turn for ever so, by all states, and by a specification whose runs these are.
fn endless_by_states(
    alloc: Global,
    file: &File,
    program: &Program,
    endless: &EndlessRuns,
    limit: usize,
) -> Result<Endless, AllocError>
    requires { 1 ≤ limit }
    ensures { IfOk result (λ e. (sfile : FileValue) (sprogram : ProgramValue) →
        AreEndlessRuns sfile sprogram (lists_of endless.now.runs.items) →
        (endless.now.complete ≡ true → TellEndlessRuns sfile sprogram (lists_of endless.now.runs.items)) →
        IsEndless sfile sprogram (plain_file file.now) (plain_program program.now) e) }
{
    match left_over(alloc, file, program, &endless.runs, limit)? {
        Left::Nothing => Ok(Endless::Never),
        Left::Cut => Ok(Endless::Unknown),
        Left::Steps(steps) => confirmed(alloc, file, program, endless, steps, limit),
    }
}

/// The runs of a specification up to a call that never ends.
fn runs_of(alloc: Global, specification: Specification<'_>) -> Result<EndlessRuns, AllocError>
    ensures runs { IfOk result (λ e.
        AreEndlessRuns (spec_file specification.entry) (spec_program specification.entry) (lists_of e.runs.items)) }
    ensures all { IfOk result (λ e. e.complete ≡ true →
        TellEndlessRuns (spec_file specification.entry) (spec_program specification.entry) (lists_of e.runs.items)) }
{
    let Specification { file, program } = specification;
    endless_runs(alloc, file, program, &Bounds::usual())
}

/// Whether threads turn for ever so, where they turn for ever after a schedule.
fn endless_after(
    alloc: Global,
    specification: Specification<'_>,
    file: &File,
    program: &Program,
    schedule: Schedule,
    limit: usize,
) -> Result<Endless, AllocError>
    requires room { 1 ≤ limit }
    requires turns { TurnsForEver (plain_file file.now) (plain_program program.now) schedule }
    ensures { IfOk result (IsEndless (spec_file specification.entry) (spec_program specification.entry)
        (plain_file file.now) (plain_program program.now)) }
{
    let endless = runs_of(alloc, specification)?;
    if is_unexcused(alloc, file, program, &endless, &schedule)? {
        return Ok(Endless::After(schedule));
    }
    endless_by_states(alloc, file, program, &endless, limit)
}

/// Whether threads turn for ever so, where it isn't known whether they turn for ever.
fn endless_at_all(
    alloc: Global,
    specification: Specification<'_>,
    file: &File,
    program: &Program,
    limit: usize,
) -> Result<Endless, AllocError>
    requires { 1 ≤ limit }
    ensures { IfOk result (IsEndless (spec_file specification.entry) (spec_program specification.entry)
        (plain_file file.now) (plain_program program.now)) }
{
    let endless = runs_of(alloc, specification)?;
    endless_by_states(alloc, file, program, &endless, limit)
}

/// Whether threads of a program turn for ever in a call that ends where calls of a specification run one at a time, and
/// a schedule after which they do. Each call that is pending where threads turn for ever is looked at. It isn't known
/// where more states would be needed than this limit, more orders of calls or longer calls than usual, or where threads
/// that go on in turn come neither to an event nor to rest, and don't turn for ever. A refusal is that memory ran out,
/// or that a store, a work or a state has no number left.
pub fn find_endless(
    alloc: Global,
    specification: Specification<'_>,
    file: &File,
    program: &Program,
    limit: usize,
) -> Result<Endless, AllocError>
    requires { 1 ≤ limit }
    ensures { IfOk result (IsEndless (spec_file specification.entry) (spec_program specification.entry)
        (plain_file file.now) (plain_program program.now)) }
{
    match find_turning(alloc, file, program, limit)? {
        Turning::Never => Ok(Endless::Never),
        Turning::Unknown => endless_at_all(alloc, specification, file, program, limit),
        Turning::After(schedule) => endless_after(
            alloc,
            specification,
            file,
            program,
            schedule,
            limit,
        ),
    }
}
