// A run whose history isn't linearizable, with the fewest context switches.

ghost use Rattle.std.specs.Prelude.{◌≡◌, ◌≤◌, IfNone, IfOk, IsTrue};
ghost use Rattle.ls_checked.specs.CheckedTree.{File as FileValue};
ghost use Rattle.ls_checked.specs.CheckedProgram.{Program as ProgramValue};
ghost use Rattle.ls_checked.specs.Plain.{plain_file};
ghost use Rattle.ls_checked.specs.PlainProgram.{plain_program};
ghost use Rattle.ls_fewest_switches.specs.Switches.{HasFewestOf, IsSought, switches};
ghost use Rattle.ls_meaning.specs.Runs.{source_history};
ghost use Rattle.ls_search_laws.specs.Stepping.{ActAll};
ghost use Rattle.ls_specification.specs.Specification.{spec_file, spec_program};
ghost use Rattle.ls_source_judge.specs.Laws.{BadAreNotLinearizable, GoodAreLinearizable};
ghost use Rattle.ls_source_judge.specs.Judged.{IsNotLike, IsSimplestUnlike};

use crate::watching::{SerialObserver, serial_observer};
use ls_checked::program::Program;
use ls_checked::tree::File;
use ls_events::schedule::Schedule;
use ls_fewest_switches::{SimpleRun, Target, simplest, simplest_bad};
use ls_serial_search::telling::Bounds;
use ls_specification::Specification;
use std::alloc::{AllocError, Global};

/// A schedule whose history an observer calls bad, if it does so of this one's, with the fewest context switches. So it
/// is of a history that isn't linearizable to a specification, if the observer is one of that, and has no doubt.
fn simplest_by(
    alloc: Global,
    serial: &SerialObserver,
    file: &File,
    program: &Program,
    found: &Schedule,
    limit: usize,
) -> Result<SimpleRun, AllocError>
    ensures bad { IfOk result (λ r. (sfile : FileValue) (sprogram : ProgramValue) →
        GoodAreLinearizable serial.now.observer sfile sprogram →
        BadAreNotLinearizable serial.now.observer sfile sprogram →
        IsNotLike sfile sprogram (plain_file file.now) (plain_program program.now) found.now →
        IsNotLike sfile sprogram (plain_file file.now) (plain_program program.now) r.schedule) }
    ensures acts { IfOk result (λ r. ActAll (plain_file file.now) (plain_program program.now) found.now →
        ActAll (plain_file file.now) (plain_program program.now) r.schedule) }
    ensures few { IfOk result (λ r. switches r.schedule ≤ switches found.now) }
    ensures fewest { IfOk result (λ r. IsTrue r.fewest → (sfile : FileValue) (sprogram : ProgramValue) →
        GoodAreLinearizable serial.now.observer sfile sprogram →
        IsSimplestUnlike sfile sprogram (plain_file file.now) (plain_program program.now) r.schedule) }
{
    let target = Target {
        stuck: false,
        limit,
    };
    let run = simplest_bad(alloc, &serial.observer, file, program, target, found)?;
    Ok(run)
}

/// A schedule whose history isn't linearizable to a specification, if that of this one isn't, with no more context
/// switches; if possible with the fewest of all such schedules. At most so many states are kept. If more would be
/// needed, or not all serial histories are known, it has the fewest of those with the history of this one, or it is
/// this one. A refusal is that memory ran out, or that a store, a work or a state has no number left. A call that
/// answers an object is refused too: the calls of a program that was read answer none.
pub fn simplest_unexplained(
    alloc: Global,
    specification: Specification<'_>,
    file: &File,
    program: &Program,
    found: &Schedule,
    limit: usize,
) -> Result<SimpleRun, AllocError>
    ensures bad { IfOk result (λ r.
        IsNotLike (spec_file specification.entry) (spec_program specification.entry)
        (plain_file file.now) (plain_program program.now) found.now →
        IsNotLike (spec_file specification.entry) (spec_program specification.entry)
        (plain_file file.now) (plain_program program.now) r.schedule) }
    ensures acts { IfOk result (λ r. ActAll (plain_file file.now) (plain_program program.now) found.now →
        ActAll (plain_file file.now) (plain_program program.now) r.schedule) }
    ensures few { IfOk result (λ r. switches r.schedule ≤ switches found.now) }
    ensures fewest { IfOk result (λ r. IsTrue r.fewest →
        IsSimplestUnlike (spec_file specification.entry) (spec_program specification.entry)
        (plain_file file.now) (plain_program program.now) r.schedule) }
{
    let target = Target {
        stuck: false,
        limit,
    };
    let along = simplest(alloc, file, program, target, found)?;
    let serial = serial_observer(alloc, specification, Bounds::usual())?;
    if serial.doubt.is_some() {
        return Ok(SimpleRun {
            schedule: along.schedule,
            fewest: false,
        });
    }
    let run = simplest_by(alloc, &serial, file, program, &along.schedule, limit)?;
    Ok(run)
}
