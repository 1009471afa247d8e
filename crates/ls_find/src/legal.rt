// Whether histories are legal as those of a set.

ghost use Rattle.std.specs.Prelude.{ℕ, IfOk};
ghost use Rattle.ls_checked.specs.PlainProgram.{plain_program};
ghost use Rattle.ls_explore.specs.Tellings.{TellTruth, TellWhole};
ghost use Rattle.ls_find.specs.Sought.{AllNamed, AreNamed, IsLegality, IsSetVerdict};
ghost use Rattle.ls_specification.specs.Specification.{Given};
ghost use Rattle.ls_translation.specs.Texts.{file_of, program_of};

use crate::verdict::{ProgramVerdict, Reason, bad_row, unknown_by};
use ls_checked::program::Program;
use ls_explore::{Nobody, Row, explore_source};
use ls_explore_reports::legal::every_schedule_is_legal;
use ls_image::image::Image;
use ls_verdicts::{Verdict as SetVerdict, verdict_on};
use std::alloc::{AllocError, Global};

/// Whether the histories of rows are legal.
#[derive(Copy)]
pub(crate) enum Legality {
    AllLegal,
    /// That of the row at this place isn't.
    IllegalAt(usize),
    /// A call of one is no set call, or there are too many trapped ones to decide.
    NotJudged,
}

impl Clone for Legality {
    fn clone(&self) -> Result<Legality, AllocError> {
        Ok(*self)
    }
}

/// Whether the histories of rows are legal: the first that isn't decides.
fn rows_legality(alloc: Global, rows: &[Row], program: &Program) -> Result<Legality, AllocError>
    requires { AreNamed (plain_program program.now) rows.now }
    ensures { IfOk result (IsLegality (plain_program program.now) rows.now) }
{
    for at in 0..rows.len() {
        match verdict_on(alloc, rows[at].history(), program)? {
            SetVerdict::Legal => {}
            SetVerdict::Illegal => return Ok(Legality::IllegalAt(at)),
            SetVerdict::NotOneSet | SetVerdict::TooManyTrapped => return Ok(Legality::NotJudged),
        }
    }
    Ok(Legality::AllLegal)
}

/// What whole rows say, of a setup of so many steps.
fn whole_legality(
    alloc: Global,
    image: &Image,
    setup: usize,
    rows: &[Row],
) -> Result<ProgramVerdict, AllocError>
    requires named { AllNamed (file_of image.now) (program_of image.now) }
    requires truth { TellTruth (file_of image.now) (program_of image.now) setup rows.now }
    requires whole { TellWhole (file_of image.now) (program_of image.now) rows.now }
    ensures { IfOk result (λ v. (given : Given) (states : ℕ) →
        IsSetVerdict states given (file_of image.now) (program_of image.now) v) }
{
    every_schedule_is_legal();
    match rows_legality(alloc, rows, image.program())? {
        Legality::AllLegal => Ok(ProgramVerdict::Good),
        Legality::IllegalAt(at) => bad_row(alloc, Reason::Illegal, setup, rows, at),
        Legality::NotJudged => Ok(ProgramVerdict::Unknown),
    }
}

/// Explores the program of an image, and says whether each history is legal as one of a set. Unknown comes as of
/// `verdict_on`; or if a call is no set call, or too many are trapped to decide.
pub(crate) fn set_verdict(
    alloc: Global,
    image: &Image,
    states: usize,
) -> Result<ProgramVerdict, AllocError>
    requires { AllNamed (file_of image.now) (program_of image.now) }
    ensures { IfOk result (λ v. (given : Given) →
        IsSetVerdict states given (file_of image.now) (program_of image.now) v) }
{
    match explore_source(alloc, image, states, &mut Nobody) {
        Ok(found) => {
            if !found.complete {
                return Ok(ProgramVerdict::Unknown);
            }
            whole_legality(alloc, image, found.setup, found.rows.as_slice())
        }
        Err(fault) => unknown_by(fault),
    }
}
