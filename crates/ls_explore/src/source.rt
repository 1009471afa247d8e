// All schedules of the program of an image, by the states of the source.

ghost use Rattle.std.specs.Prelude.{◌≡◌, ◌≤◌, ◌⊎◌, ◌↔◌, IfErr, IfOk, IsErrOf, map, true};
ghost use Rattle.ls_checked.specs.Plain.{plain_file};
ghost use Rattle.ls_checked.specs.PlainProgram.{plain_program};
ghost use Rattle.ls_translation.specs.Texts.{file_of, program_of};
ghost use Rattle.ls_explore.specs.Watching.{GoesOn};
ghost use Rattle.ls_explore.specs.Faults.{AreBadStates};
ghost use Rattle.ls_explore.specs.Sources.{IsOfSource, IsSourceEndless, TellSource, ending_of, told_of};

use crate::fault::ExploreFault;
use crate::images::{ImageExploration, are_bad_states};
use crate::setting::{Setting, setting_of};
use crate::{Ending, Row, Watch};
use ls_checked::program::Program;
use ls_checked::tree::File;
use ls_image::image::Image;
use ls_source_rows::{Ending as SourceEnding, Reach, Row as SourceRow, Telling, tell_rows};
use std::alloc::{AllocError, Global};

/// How a row ends.
fn ending_of(ending: SourceEnding) -> Ending
    ensures { result ≡ ending_of ending }
{
    match ending {
        SourceEnding::Ended | SourceEnding::Waiting => Ending::Over,
        SourceEnding::GoesOn => Ending::GoesOn,
        SourceEnding::NotSeen => Ending::NotSeen,
    }
}

/// The same row.
fn row_of(alloc: Global, row: &SourceRow) -> Result<Row, AllocError>
    ensures { IfOk result (λ r. r ≡ told_of row.now) }
{
    Row::new(
        alloc,
        row.path.as_slice(),
        row.history.as_slice(),
        ending_of(row.ending),
    )
}

/// The same rows.
fn rows_of(alloc: Global, rows: &[SourceRow]) -> Result<Vec<Row>, AllocError>
    ensures { IfOk result (λ v. v.items ≡ map told_of rows.now) }
{
    let mut same = Vec::new(alloc);
    for row in rows {
        same.push(row_of(alloc, row)?)?;
    }
    Ok(same)
}

/// What there is of all schedules, by at most so many states.
fn explore_states<W: Watch>(
    alloc: Global,
    file: &File,
    program: &Program,
    reach: Reach,
    watch: &mut W,
) -> Result<ImageExploration, AllocError>
    requires { 1 ≤ reach.states }
    ensures watched { GoesOn W.Since watch.old watch.new }
    ensures tells { IfOk result (λ e. TellSource (plain_file file.now) (plain_program program.now) reach.states e.setup
        e.rows.items e.states e.complete) }
    ensures roomy { IfOk result (λ e. e.roomy ≡ true) }
{
    let Telling {
        setup,
        rows,
        complete,
        states,
    } = tell_rows(alloc, file, program, reach, watch)?;
    let rows = rows_of(alloc, &rows)?;
    Ok(ImageExploration {
        setup,
        rows,
        complete,
        roomy: true,
        states,
    })
}

/// Explores all schedules of the program of an image by the states of its source, and keeps at most so many, and no
/// more where these have over 4,194,304 objects together. While it goes on it tells how many there are. No machine is
/// needed, so none runs out of cells.
///
/// The rows are as those of `explore_image`. If they are complete, the history of each schedule of source steps, of any
/// length, is the beginning of a row's. If no thread acts after the schedule, its history is that of a row that is
/// over. The history of a row that goes on begins that of no other. If the rows are cut, as many states were kept as
/// may be, or the states that were kept have over 4,194,304 objects together.
///
/// Refused with 61 if no states may be kept, or more than 16,777,216. Else, where memory doesn't run out, refused with
/// 62 exactly if the setup acts in each of 100,001 source steps, and has not ended in 100,000.
pub fn explore_source<W: Watch>(
    alloc: Global,
    image: &Image,
    states: usize,
    watch: &mut W,
) -> Result<ImageExploration, ExploreFault>
    ensures states { IsErrOf result ExploreFault.BadStates ↔ AreBadStates states }
    ensures good { IfOk result (λ e. ¬ AreBadStates states) }
    ensures endless { IsErrOf result ExploreFault.Memory ⊎
        (IsErrOf result ExploreFault.SetupEndless ↔ IsSourceEndless (file_of image.now) (program_of image.now) states) }
    ensures only { IfErr result IsOfSource }
    ensures tells { IfOk result (λ e. TellSource (file_of image.now) (program_of image.now) states e.setup e.rows.items
        e.states e.complete) }
    ensures roomy { IfOk result (λ e. e.roomy ≡ true) }
    ensures watched { GoesOn W.Since watch.old watch.new }
{
    if are_bad_states(states) {
        return Err(ExploreFault::BadStates);
    }
    let file = image.checked().file();
    let program = image.program();
    let setting = setting_of(alloc, file, program)?;
    match setting {
        Setting::Ends(steps) => {
            Ok(explore_states(alloc, file, program, Reach { steps, states }, watch)?)
        }
        Setting::Sticks(steps) => {
            Ok(explore_states(alloc, file, program, Reach { steps, states }, watch)?)
        }
        Setting::GoesOn => Err(ExploreFault::SetupEndless),
    }
}
