// What a schedule comes to.

ghost use Rattle.std.specs.Prelude.{◌≡◌, ◌⊎◌, IfOk, IsTrue, length, true};
ghost use Rattle.std.specs.List.{fold};
ghost use Rattle.ls_checked.specs.Plain.{plain_file};
ghost use Rattle.ls_checked.specs.PlainProgram.{plain_program};
ghost use Rattle.ls_meaning.specs.Runs.{source_history};
ghost use Rattle.ls_meaning.specs.Still.{IsStill};
ghost use Rattle.ls_meaning.specs.declared.step.Did.TheVariants.{Waits};
ghost use Rattle.ls_search_laws.specs.Stepping.{ActAll};
ghost use Rattle.ls_source.specs.Shown.{progress_of};
ghost use Rattle.ls_fewest_switches.specs.Switches.{EndsSo, IsSought};
ghost use Rattle.ls_fewest_switches.specs.Levels.{IsWaiting};

use crate::acting::run_along;
use ls_checked::program::Program;
use ls_checked::tree::File;
use ls_events::event::Event;
use ls_meaning::step::Did;
use ls_observers::observer::Observer;
use ls_search::observing::noted_of;
use ls_source::run::SourceRun;
use std::alloc::{AllocError, Global};

/// Whether a step didn't act.
fn is_still(did: Did) -> bool
    ensures { IsTrue result → IsStill did }
{
    match did {
        Did::Acted(_, _) => false,
        Did::Waits | Did::Idle => true,
    }
}

/// Whether a thread has waited, with one step more.
fn waits_with(waits: bool, did: Did) -> bool
    ensures { IsTrue result → (waits ≡ true) ⊎ (did ≡ Waits) }
{
    match did {
        Did::Waits => true,
        Did::Acted(_, _) | Did::Idle => waits,
    }
}

/// Whether no thread acts and one waits. True only where it is so.
fn is_stuck(alloc: Global, run: &mut SourceRun<'_>, threads: usize) -> Result<bool, AllocError>
    requires { threads ≡ length (progress_of run.old).program.threads }
    ensures { IfOk result (λ b. IsTrue b → IsWaiting (progress_of run.old)) }
{
    let mut waits = false;
    for thread in 0..threads {
        let did = run.step(alloc, thread)?;
        if !is_still(did) {
            return Ok(false);
        }
        waits = waits_with(waits, did);
    }
    Ok(waits)
}

/// Whether an observer calls a history bad.
fn is_bad_history<O: Observer>(
    alloc: Global,
    observer: &O,
    events: &[Event],
) -> Result<bool, AllocError>
    ensures { IfOk result (λ b. b ≡
        O.bad observer.now (fold (O.next observer.now) (O.first observer.now) events.now)) }
{
    let noted = noted_of(alloc, observer, events)?;
    Ok(observer.is_bad(&noted))
}

/// Whether each step of a schedule acts, an observer calls its history bad, and it ends as is asked. True only where it
/// is so.
pub(crate) fn is_such<O: Observer>(
    alloc: Global,
    observer: &O,
    file: &File,
    program: &Program,
    steps: &[u8],
    stuck: bool,
) -> Result<bool, AllocError>
    ensures sought { IfOk result (λ b. IsTrue b →
        IsSought (O.first observer.now) (O.next observer.now) (O.bad observer.now)
        (source_history (plain_file file.now) (plain_program program.now) steps.now)) }
    ensures ends { IfOk result (λ b. IsTrue b →
        EndsSo stuck (plain_file file.now) (plain_program program.now) steps.now) }
    ensures acts { IfOk result (λ b. IsTrue b →
        ActAll (plain_file file.now) (plain_program program.now) steps.now) }
{
    let Some(run) = run_along(alloc, file, program, steps)? else {
        return Ok(false);
    };
    let mut run = run;
    if !is_bad_history(alloc, observer, run.history())? {
        return Ok(false);
    }
    if !stuck {
        return Ok(true);
    }
    let waits = is_stuck(alloc, &mut run, program.threads.len())?;
    Ok(waits)
}
