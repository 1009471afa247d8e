// Schedules from the start, of paths after the setup.

ghost use Rattle.std.specs.Prelude.{◌++◌, IfOk, replicate};
ghost use Rattle.ls_checked.specs.Plain.{plain_file};
ghost use Rattle.ls_checked.specs.PlainProgram.{plain_program};
ghost use Rattle.ls_source_judge.specs.Wholes.{IsActingOf, IsWholeOf};

use ls_checked::program::Program;
use ls_checked::tree::File;
use ls_fewest_switches::acting_steps;
use std::alloc::{AllocError, Global};

/// The steps that act, of so many of the setup and then of a path. The only refusal is that memory ran out.
fn from_start(
    alloc: Global,
    file: &File,
    program: &Program,
    setup: usize,
    path: &[u8],
) -> Result<Vec<u8>, AllocError>
    ensures { IfOk result (λ v. IsActingOf (plain_file file.now) (plain_program program.now)
        (replicate setup 0 ++ path.now) v.items) }
{
    let mut steps = vec![in alloc; 0; setup]?;
    steps.extend_from_slice(path)?;
    let acting = acting_steps(alloc, file, program, steps.as_slice())?;
    Ok(acting)
}

/// The same, if there is a path. The only refusal is that memory ran out.
pub(crate) fn whole_of(
    alloc: Global,
    file: &File,
    program: &Program,
    setup: usize,
    path: Option<Vec<u8>>,
) -> Result<Option<Vec<u8>>, AllocError>
    ensures { IfOk result (IsWholeOf (plain_file file.now) (plain_program program.now) setup path) }
{
    match path {
        None => Ok(None),
        Some(path) => {
            let steps = from_start(alloc, file, program, setup, path.as_slice())?;
            Ok(Some(steps))
        }
    }
}
