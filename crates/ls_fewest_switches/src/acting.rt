// The steps of a schedule that act.

ghost use Rattle.std.specs.Prelude.{◌≡◌, ◌≤◌, ◌++◌, ◌∷◌, [], IfOk, IfSome, OnOk, length};
ghost use Rattle.ls_checked.specs.Plain.{plain_file};
ghost use Rattle.ls_checked.specs.PlainProgram.{plain_program};
ghost use Rattle.ls_meaning.specs.Runs.{source_history, source_run};
ghost use Rattle.ls_meaning.specs.Still.{IsActing, IsStill};
ghost use Rattle.ls_search.specs.Runs.{progress_at};
ghost use Rattle.ls_search_laws.specs.Stepping.{ActAll};
ghost use Rattle.ls_source.specs.Shown.{progress_of};
ghost use Rattle.ls_fewest_switches.specs.Acting.{acting};
ghost use Rattle.ls_fewest_switches.specs.Switches.{switches};

use ls_checked::program::Program;
use ls_checked::tree::File;
use ls_meaning::step::{Did, has_acted};
use ls_source::run::SourceRun;
use std::alloc::{AllocError, Global};

/// The run after a schedule, and the steps of the schedule that acted.
#[derive(Drop)]
struct ActingRun<'a> {
    run: SourceRun<'a>,
    steps: Vec<u8>,
}

/// Adds a step, if it acted.
fn keep_acting(steps: &mut Vec<u8>, thread: u8, did: Did) -> Result<(), AllocError>
    ensures acts { OnOk result (IsActing did → steps.new.items ≡ steps.old.items ++ thread ∷ []) }
    ensures still { OnOk result (IsStill did → steps.new.items ≡ steps.old.items) }
{
    if has_acted(did) {
        steps.push(thread)?;
    }
    Ok(())
}

/// The run after a schedule, and the steps that act. The only refusal is that memory ran out.
fn run_after<'a>(
    alloc: Global,
    file: &'a File,
    program: &'a Program,
    steps: &[u8],
) -> Result<ActingRun<'a>, AllocError>
    ensures run { IfOk result (λ r. progress_of r.run ≡
        progress_at (plain_file file.now) (plain_program program.now) steps.now) }
    ensures steps { IfOk result (λ r. r.steps.items ≡
        acting (plain_file file.now) (plain_program program.now) steps.now) }
{
    let mut run = SourceRun::new(alloc, file, program)?;
    let mut kept = Vec::new(alloc);
    for thread in steps {
        let did = run.step(alloc, *thread as usize)?;
        keep_acting(&mut kept, *thread, did)?;
    }
    Ok(ActingRun { run, steps: kept })
}

/// The run after a schedule, if each of its steps acts. The only refusal is that memory ran out.
pub fn run_along<'a>(
    alloc: Global,
    file: &'a File,
    program: &'a Program,
    steps: &[u8],
) -> Result<Option<SourceRun<'a>>, AllocError>
    ensures run { IfOk result (λ some. IfSome some (λ r. progress_of r ≡
        progress_at (plain_file file.now) (plain_program program.now) steps.now)) }
    ensures acts { IfOk result (λ some. IfSome some (λ r.
        ActAll (plain_file file.now) (plain_program program.now) steps.now)) }
{
    let ActingRun { run, steps: acting } = run_after(alloc, file, program, steps)?;
    if acting.as_slice() != steps {
        return Ok(None);
    }
    Ok(Some(run))
}

/// The steps of a schedule that act, in order. After them all is as after the schedule. The only refusal is that memory
/// ran out.
pub fn acting_steps(
    alloc: Global,
    file: &File,
    program: &Program,
    steps: &[u8],
) -> Result<Vec<u8>, AllocError>
    ensures is { IfOk result (λ v. v.items ≡ acting (plain_file file.now) (plain_program program.now) steps.now) }
    ensures acts { IfOk result (λ v. ActAll (plain_file file.now) (plain_program program.now) v.items) }
    ensures run { IfOk result (λ v. source_run (plain_file file.now) (plain_program program.now) v.items ≡
        source_run (plain_file file.now) (plain_program program.now) steps.now) }
    ensures history { IfOk result (λ v. source_history (plain_file file.now) (plain_program program.now) v.items ≡
        source_history (plain_file file.now) (plain_program program.now) steps.now) }
    ensures few { IfOk result (λ v. switches v.items ≤ switches steps.now) }
    ensures short { IfOk result (λ v. length v.items ≤ length steps.now) }
{
    let ActingRun { run: _, steps } = run_after(alloc, file, program, steps)?;
    Ok(steps)
}
