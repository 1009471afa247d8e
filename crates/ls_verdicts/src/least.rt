// Of several schedules, one that is cut first.

ghost use Rattle.std.specs.Prelude.{◌≡◌, ◌<◌, ◌++◌, ◌∷◌, ℕ, [], List, IfNone, IfOk, IfSome, if◌then◌else◌, length};
ghost use Rattle.std.specs.Prelude.{nat_lt};
ghost use Rattle.ls_checked.specs.CheckedTree.{File as FileValue};
ghost use Rattle.ls_checked.specs.CheckedProgram.{Program as ProgramValue};
ghost use Rattle.ls_checked.specs.Plain.{plain_file};
ghost use Rattle.ls_checked.specs.PlainProgram.{plain_program};
ghost use Rattle.ls_meaning.specs.Runs.{source_history};
ghost use Rattle.ls_verdicts.specs.Cuts.{IsCut, IsLeastOf};
ghost use Rattle.ls_verdicts.specs.Hopeless.{IsIllegal};

use crate::cutting::cut_on;
use ls_checked::program::Program;
use ls_checked::tree::File;
use std::alloc::{AllocError, Global};

/// A schedule, by its place among others, and how many of its steps are left.
#[derive(Copy)]
pub struct Cut {
    pub place: usize,
    pub steps: usize,
}

impl Clone for Cut {
    fn clone(&self) -> Result<Cut, AllocError> {
        Ok(*self)
    }
}

/// The cut with fewer steps; of two with as many steps, the first.
fn shorter(first: Cut, second: Cut) -> Cut
    ensures { result ≡ (if nat_lt second.steps first.steps then second else first) }
{
    if second.steps < first.steps {
        second
    } else {
        first
    }
}

/// The cut with fewer steps, of the one so far and that of one schedule more, which stands at the place.
fn lesser(least: Option<Cut>, place: usize, found: Option<usize>) -> Option<Cut>
    ensures { (file : FileValue) (program : ProgramValue) (schedules : List (List ℕ)) (schedule : List ℕ) →
        length schedules ≡ place → IsLeastOf file program schedules least →
        IsIllegal program (source_history file program schedule) →
        IfSome found (IsCut file program schedule) →
        IfNone found (¬ IsIllegal program (source_history file program schedule)) →
        IsLeastOf file program (schedules ++ schedule ∷ []) result }
{
    match found {
        None => least,
        Some(steps) => match least {
            None => Some(Cut { place, steps }),
            Some(cut) => Some(shorter(cut, Cut { place, steps })),
        },
    }
}

/// The cut with the fewest steps of some schedules and of one more, which is illegal, and whose place is their number.
/// The only refusal is that memory ran out.
pub fn least_with(
    alloc: Global,
    file: &File,
    program: &Program,
    least: Option<Cut>,
    place: usize,
    steps: &[u8],
) -> Result<Option<Cut>, AllocError>
    requires { IsIllegal (plain_program program.now)
        (source_history (plain_file file.now) (plain_program program.now) steps.now) }
    ensures { IfOk result (λ cut. (schedules : List (List ℕ)) → length schedules ≡ place →
        IsLeastOf (plain_file file.now) (plain_program program.now) schedules least →
        IsLeastOf (plain_file file.now) (plain_program program.now) (schedules ++ steps.now ∷ []) cut) }
{
    let found = cut_on(alloc, file, program, steps)?;
    Ok(lesser(least, place, found))
}
