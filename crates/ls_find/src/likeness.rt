// Whether histories are linearizable to a specification that is given.

ghost use Rattle.std.specs.Prelude.{ℕ, IfOk, Some};
ghost use Rattle.ls_explore.specs.Rows.{NoneEnds};
ghost use Rattle.ls_explore.specs.Tellings.{TellTruth, TellWhole};
ghost use Rattle.ls_explore.specs.declared.rows.Ending.TheVariants.{OutOfCells};
ghost use Rattle.ls_explore_reports.specs.Judged.{AreEachOnce};
ghost use Rattle.ls_find.specs.Likeness.{IsLikeness};
ghost use Rattle.ls_find.specs.Said.{IsVerdict};
ghost use Rattle.ls_specification.specs.Specification.{given_of, spec_file, spec_program};
ghost use Rattle.ls_translation.specs.Texts.{file_of, program_of};

use crate::sought::Sought;
use crate::verdict::{ProgramVerdict, Reason, bad_row};
use crate::waiting::waiting_verdict;
use ls_explore::Row;
use ls_explore_reports::laws::none_is_unlike;
use ls_image::image::Image;
use ls_linearity::{Linearity, judge_for, linearity_by};
use ls_specification::Specification;
use std::alloc::{AllocError, Global};

/// Whether the histories of rows are linearizable to a specification.
#[derive(Copy)]
pub(crate) enum Likeness {
    AllLike,
    /// That of the row at this place isn't.
    UnlikeAt(usize),
    /// It isn't known of one, since a call of the specification goes on or it has too many states.
    NotJudged,
}

impl Clone for Likeness {
    fn clone(&self) -> Result<Likeness, AllocError> {
        Ok(*self)
    }
}

/// Whether histories of rows, in which no event stands twice, are linearizable to a specification: the first that isn't
/// decides. The only refusal is that memory ran out.
fn rows_likeness(
    alloc: Global,
    specification: Specification<'_>,
    rows: &[Row],
) -> Result<Likeness, AllocError>
    requires { AreEachOnce rows.now }
    ensures { IfOk result
        (IsLikeness (spec_file specification.entry) (spec_program specification.entry) rows.now) }
{
    let judge = judge_for(alloc, specification)?;
    for at in 0..rows.len() {
        match linearity_by(alloc, &judge, rows[at].history())? {
            Linearity::Linearizable => {}
            Linearity::NotLinearizable => return Ok(Likeness::UnlikeAt(at)),
            Linearity::LongCall | Linearity::ManyStates => return Ok(Likeness::NotJudged),
        }
    }
    Ok(Likeness::AllLike)
}

/// What a whole exploration says of a program by a specification that is given, of a setup of so many steps.
pub(crate) fn like_verdict(
    alloc: Global,
    specification: Specification<'_>,
    image: &Image,
    setup: usize,
    rows: &[Row],
    sought: Sought,
) -> Result<ProgramVerdict, AllocError>
    requires truth { TellTruth (file_of image.now) (program_of image.now) setup rows.now }
    requires whole { TellWhole (file_of image.now) (program_of image.now) rows.now }
    requires cells { NoneEnds OutOfCells rows.now }
    ensures { IfOk result (λ v. (states : ℕ) →
        IsVerdict states sought (given_of (Some specification.entry)) (file_of image.now) (program_of image.now) v) }
{
    none_is_unlike();
    match rows_likeness(alloc, specification, rows)? {
        Likeness::AllLike => {
            if sought.waiting {
                return waiting_verdict(alloc, Some(specification), image, setup, rows);
            }
            Ok(ProgramVerdict::Good)
        }
        Likeness::UnlikeAt(at) => bad_row(alloc, Reason::NotLinearizable, setup, rows, at),
        Likeness::NotJudged => Ok(ProgramVerdict::Unknown),
    }
}
