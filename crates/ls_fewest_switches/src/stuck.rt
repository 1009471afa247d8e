// A schedule after which no thread acts and one waits, with the fewest context switches.

ghost use Rattle.std.specs.Prelude.{◌≡◌, ◌≤◌, IfOk, IsTrue};
ghost use Rattle.ls_checked.specs.Plain.{plain_file};
ghost use Rattle.ls_checked.specs.PlainProgram.{plain_program};
ghost use Rattle.ls_search_laws.specs.Stepping.{ActAll};
ghost use Rattle.ls_search.specs.Verdicts.{LeavesStuck};
ghost use Rattle.ls_fewest_switches.specs.Switches.{HasFewestStuck, switches};

use crate::anything::Anything;
use crate::fewest::{SimpleRun, Target, simplest, simplest_bad};
use ls_checked::program::Program;
use ls_checked::tree::File;
use ls_events::schedule::Schedule;
use std::alloc::{AllocError, Global};

/// A schedule after which no thread acts and one waits, if that is so after this one, with no more context switches; if
/// possible with the fewest of all such schedules. At most so many states are kept. If more would be needed, it has the
/// fewest of those with the history of this one, or it is this one. It is refused as `simplest` is.
pub fn simplest_stuck(
    alloc: Global,
    file: &File,
    program: &Program,
    found: &Schedule,
    limit: usize,
) -> Result<SimpleRun, AllocError>
    ensures stuck { IfOk result (λ r. LeavesStuck (plain_file file.now) (plain_program program.now) found.now →
        LeavesStuck (plain_file file.now) (plain_program program.now) r.schedule) }
    ensures acts { IfOk result (λ r. ActAll (plain_file file.now) (plain_program program.now) found.now →
        ActAll (plain_file file.now) (plain_program program.now) r.schedule) }
    ensures few { IfOk result (λ r. switches r.schedule ≤ switches found.now) }
    ensures fewest { IfOk result (λ r. IsTrue r.fewest →
        HasFewestStuck (plain_file file.now) (plain_program program.now) r.schedule) }
{
    let target = Target { stuck: true, limit };
    let along = simplest(alloc, file, program, target, found)?;
    let run = simplest_bad(alloc, &Anything, file, program, target, &along.schedule)?;
    Ok(run)
}
