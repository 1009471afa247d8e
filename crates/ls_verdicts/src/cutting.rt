// Where a schedule is cut.

ghost use Rattle.std.specs.Prelude.{◌<◌, IfNone, IfOk, IfSome, length};
ghost use Rattle.ls_checked.specs.Plain.{plain_file};
ghost use Rattle.ls_checked.specs.PlainProgram.{plain_program};
ghost use Rattle.ls_meaning.specs.Runs.{source_history};
ghost use Rattle.ls_verdicts.specs.Cuts.{IsCut, IsFirstPast};
ghost use Rattle.ls_verdicts.specs.Hopeless.{IsIllegal};
ghost use Rattle.ls_verdicts.specs.Verdicts.{IsHistoryOf};

use crate::hopeless_on;
use ls_checked::program::Program;
use ls_checked::tree::File;
use ls_source::run::play;
use std::alloc::{AllocError, Global};

/// The first number of steps after which more than `at` events have happened. It is found by binary search.
fn steps_past(
    alloc: Global,
    file: &File,
    program: &Program,
    steps: &[u8],
    at: usize,
) -> Result<usize, AllocError>
    requires { at < length (source_history (plain_file file.now) (plain_program program.now) steps.now) }
    ensures { IfOk result (IsFirstPast (plain_file file.now) (plain_program program.now) steps.now at) }
{
    let mut fewer = 0;
    let mut enough = steps.len();
    'bisect: while enough - fewer > 1 {
        let middle = fewer + (enough - fewer) / 2;
        let history = play(alloc, file, program, &steps[..middle])?;
        if history.len() > at {
            enough = middle;
        } else {
            fewer = middle;
        }
    }
    Ok(enough)
}

/// How many of a schedule's first steps have a history without a legal order, where fewer steps have one with a legal
/// order. None if the history of the whole schedule isn't illegal. The only refusal is that memory ran out.
pub fn cut_on(
    alloc: Global,
    file: &File,
    program: &Program,
    steps: &[u8],
) -> Result<Option<usize>, AllocError>
    requires { IsHistoryOf (plain_program program.now)
        (source_history (plain_file file.now) (plain_program program.now) steps.now) }
    ensures some { IfOk result
        (λ cut. IfSome cut (IsCut (plain_file file.now) (plain_program program.now) steps.now)) }
    ensures none { IfOk result (λ cut. IfNone cut (¬ IsIllegal (plain_program program.now)
        (source_history (plain_file file.now) (plain_program program.now) steps.now))) }
{
    let history = play(alloc, file, program, steps)?;
    match hopeless_on(alloc, history.as_slice(), program)? {
        Some(at) => {
            let cut = steps_past(alloc, file, program, steps, at)?;
            Ok(Some(cut))
        }
        None => Ok(None),
    }
}
