// All schedules of the program of an image.

ghost use Rattle.ls_code.specs.Limits.{most_instructions};
ghost use Rattle.std.specs.Prelude.{◌≡◌, ◌<◌, ◌≤◌, ◌⊎◌, ◌↔◌, ◌∷◌, [], IfErr, IfOk, IsErrOf, IsSorted, IsTrue, false};
ghost use Rattle.std.specs.Prelude.{length, true};
ghost use Rattle.ls_preservation.specs.Same.{IsCells};
ghost use Rattle.ls_image.specs.Images.{code_of_image};
ghost use Rattle.ls_machine.specs.Room.{AreBadCells};
ghost use Rattle.ls_translation.specs.Texts.{file_of, program_of};
ghost use Rattle.ls_explore.specs.declared.rows.Ending.TheVariants.{NotSeen};
ghost use Rattle.ls_explore.specs.Rows.{AreApart, NoneEnds, StandAlone, TellStates, row_order};
ghost use Rattle.ls_explore.specs.Watching.{GoesOn};
ghost use Rattle.ls_explore.specs.Faults.{AreBadStates, AreGood, IsEndless, IsLate, IsOfSetup};
ghost use Rattle.ls_explore.specs.Settings.{EndsAt, SticksAt};
ghost use Rattle.ls_explore.specs.Tellings.{AllFit, AreFull, IsNarrow, TellAll, TellTruth, TellWhole};

use crate::fault::ExploreFault;
use crate::laws::stuck_covers;
use crate::machine_room::has_room;
use crate::setting::{Setting, set_up, setting_of, setup_steps, translated};
use crate::{Ending, Exploration, Extent, Row, Watch, explore};
use ls_image::image::Image;
use ls_image::laws::acts_in_time;
use ls_translation::play_source;
use std::alloc::{AllocError, Global};

/// The most states that are kept.
pub const MOST_STATES: usize = 16_777_216;

/// How many source steps the setup takes, and histories with paths that lead to them. Also whether they are all,
/// whether no schedule runs out of cells, and how many states were kept.
#[derive(Drop)]
pub struct ImageExploration {
    pub setup: usize,
    pub rows: Vec<Row>,
    pub complete: bool,
    pub roomy: bool,
    pub states: usize,
}

/// Nothing: the code of an image is short.
fn is_short(image: &Image)
    ensures { length (code_of_image image.now).instructions ≤ most_instructions }
{}

/// How many threads the program of an image has, the setup with them.
fn count_threads(image: &Image) -> u8
    ensures { length (program_of image.now).threads ≡ result }
{
    image.code().starts().len() as u8
}

/// Whether no machine of an image can have so many cells.
fn are_bad_cells(image: &Image, cells: usize) -> bool
    ensures { IsTrue result ↔ AreBadCells (code_of_image image.now).names cells }
{
    ls_machine::are_bad_cells(image.code(), cells)
}

/// Whether so many states may not be kept.
pub(crate) fn are_bad_states(states: usize) -> bool
    ensures { IsTrue result ↔ AreBadStates states }
{
    states == 0 || states > MOST_STATES
}

/// A row alone.
fn one_row(alloc: Global, row: Row) -> Result<Vec<Row>, AllocError>
    ensures { IfOk result (λ rows. rows.items ≡ row ∷ []) }
{
    Ok(vec![in alloc; row]?)
}

/// What there is of a setup that stands still after so many steps, where these fit the cells: its history alone.
fn explore_stuck(
    alloc: Global,
    image: &Image,
    cells: usize,
    count: usize,
) -> Result<ImageExploration, ExploreFault>
    requires few { count ≤ 100000 }
    requires stuck { SticksAt (file_of image.now) (program_of image.now) count }
    ensures late { IfErr result
        (IsLate (file_of image.now) (program_of image.now) (code_of_image image.now) cells count) }
    ensures told { IfOk result (λ e. TellTruth (file_of image.now) (program_of image.now) e.setup e.rows.items) }
    ensures fits { IfOk result (λ e. AllFit (file_of image.now) (program_of image.now) cells e.setup e.rows.items) }
    ensures full { IfOk result (λ e. AreFull (file_of image.now) (program_of image.now) cells e.setup e.rows.items) }
    ensures found { IfOk result
        (λ e. TellStates (file_of image.now) (program_of image.now) e.setup e.rows.items e.states) }
    ensures one { IfOk result (λ e. e.states ≡ 1) }
    ensures complete { IfOk result (λ e. e.complete ≡ true) }
    ensures roomy { IfOk result (λ e. e.roomy ≡ true) }
    ensures whole { IfOk result (λ e. TellWhole (file_of image.now) (program_of image.now) e.rows.items) }
    ensures seen { IfOk result (λ e. NoneEnds NotSeen e.rows.items) }
    ensures alone { IfOk result (λ e. StandAlone e.rows.items) }
    ensures apart { IfOk result (λ e. AreApart e.rows.items) }
    ensures order { IfOk result (λ e. IsSorted row_order e.rows.items) }
{
    stuck_covers();
    let fitting = translated(alloc, image, cells, count)?;
    let steps = setup_steps(alloc, count)?;
    let history = play_source(alloc, image, &steps)?;
    let row = Row::new(alloc, &[], history.as_slice(), Ending::Over)?;
    let rows = one_row(alloc, row)?;
    Ok(ImageExploration {
        setup: count,
        rows,
        complete: true,
        roomy: true,
        states: 1,
    })
}

/// What there is after a setup that ends with so many steps.
fn explore_rest<W: Watch>(
    alloc: Global,
    image: &Image,
    cells: usize,
    states: usize,
    count: usize,
    watch: &mut W,
) -> Result<ImageExploration, ExploreFault>
    requires cells { IsCells (code_of_image image.now) cells }
    requires few { count ≤ 100000 }
    requires some { 1 ≤ states }
    requires ends { EndsAt (file_of image.now) (program_of image.now) count }
    ensures watched { GoesOn W.Since watch.old watch.new }
    ensures late { IfErr result
        (IsLate (file_of image.now) (program_of image.now) (code_of_image image.now) cells count) }
    ensures told { IfOk result (λ e. TellTruth (file_of image.now) (program_of image.now) e.setup e.rows.items) }
    ensures found { IfOk result
        (λ e. TellStates (file_of image.now) (program_of image.now) e.setup e.rows.items e.states) }
    ensures few { IfOk result (λ e. e.states ≤ states) }
    ensures cut { IfOk result (λ e. e.complete ≡ false → states ≤ e.states) }
    ensures fits { IfOk result (λ e. AllFit (file_of image.now) (program_of image.now) cells e.setup e.rows.items) }
    ensures full { IfOk result (λ e. AreFull (file_of image.now) (program_of image.now) cells e.setup e.rows.items) }
    ensures narrow { IfOk result (λ e. e.roomy ≡ false → IsNarrow (file_of image.now) (program_of image.now) cells) }
    ensures seen { IfOk result (λ e. IsTrue e.complete → NoneEnds NotSeen e.rows.items) }
    ensures alone { IfOk result (λ e. StandAlone e.rows.items) }
    ensures tells { IfOk result (λ e. IsTrue e.complete →
        TellAll (file_of image.now) (program_of image.now) cells e.rows.items) }
    ensures whole { IfOk result (λ e. IsTrue e.complete → IsTrue e.roomy →
        TellWhole (file_of image.now) (program_of image.now) e.rows.items) }
    ensures apart { IfOk result (λ e. AreApart e.rows.items) }
    ensures order { IfOk result (λ e. IsSorted row_order e.rows.items) }
{
    acts_in_time(image);
    has_room(image);
    is_short(image);
    let steps = set_up(alloc, image, cells, count)?;
    let threads = count_threads(image);
    let extent = Extent {
        threads,
        limit: states,
    };
    let Exploration {
        rows,
        complete,
        roomy,
        states,
    } = explore(alloc, image.code(), cells, &steps, extent, watch)?;
    Ok(ImageExploration {
        setup: count,
        rows,
        complete,
        roomy,
        states,
    })
}

/// Explores all schedules of the program of an image on so many cells, and keeps at most so many states. While it goes
/// on it tells how many there are.
///
/// Each row's history is that of its schedule of source steps: the steps of the setup, and then one step of each
/// thread of the row's path. The schedule fits the cells. After the schedule of a row that is over no thread acts: each
/// has ended, is trapped, or waits for ever. After that of a row that is out of cells some thread acts, and no thread
/// for whose next step there is room.
///
/// If the rows are complete, take a schedule of source steps that fits the cells, of any length. Its history is the
/// beginning of a row's. If no thread acts after the schedule, its history is that of a row that ends. If the rows
/// are roomy too, this is so of each schedule, whether it fits or not. If they aren't roomy, some schedule doesn't fit.
/// A setup that is trapped has its one history.
///
/// If the rows are cut, as many states were kept as may be. Each state has a path of its own, whose steps act after the
/// setup's, and its history is the beginning of a row's. So there is a row.
///
/// No history stands twice, and that of a row that doesn't end begins no other. The row of the shortest schedule comes
/// first, and of those of one length the row of the least.
///
/// Refused with 35 as `replay` is; else with 61 if no states may be kept, or more than 16,777,216. Else, where memory
/// doesn't run out, refused with 62 exactly if the setup acts in each of 100,001 source steps, and has not ended in
/// 100,000; else as the setup's translation to the machine is, with 43 or 44.
pub fn explore_image<W: Watch>(
    alloc: Global,
    image: &Image,
    cells: usize,
    states: usize,
    watch: &mut W,
) -> Result<ImageExploration, ExploreFault>
    ensures cells { IsErrOf result ExploreFault.BadCells ↔ AreBadCells (code_of_image image.now).names cells }
    ensures states { IsErrOf result ExploreFault.BadStates ↔
        (¬ AreBadCells (code_of_image image.now).names cells × AreBadStates states) }
    ensures good { IfOk result (λ e. AreGood (code_of_image image.now) cells states) }
    ensures endless { IsErrOf result ExploreFault.Memory ⊎
        (IsErrOf result ExploreFault.SetupEndless ↔ IsEndless (file_of image.now) (program_of image.now)
        (code_of_image image.now) cells states) }
    ensures setup { IfErr result
        (IsOfSetup (file_of image.now) (program_of image.now) (code_of_image image.now) cells states) }
    ensures told { IfOk result (λ e. TellTruth (file_of image.now) (program_of image.now) e.setup e.rows.items) }
    ensures found { IfOk result
        (λ e. TellStates (file_of image.now) (program_of image.now) e.setup e.rows.items e.states) }
    ensures few { IfOk result (λ e. e.states ≤ states) }
    ensures cut { IfOk result (λ e. e.complete ≡ false → states ≤ e.states) }
    ensures fits { IfOk result (λ e. AllFit (file_of image.now) (program_of image.now) cells e.setup e.rows.items) }
    ensures full { IfOk result (λ e. AreFull (file_of image.now) (program_of image.now) cells e.setup e.rows.items) }
    ensures narrow { IfOk result (λ e. e.roomy ≡ false → IsNarrow (file_of image.now) (program_of image.now) cells) }
    ensures seen { IfOk result (λ e. IsTrue e.complete → NoneEnds NotSeen e.rows.items) }
    ensures alone { IfOk result (λ e. StandAlone e.rows.items) }
    ensures tells { IfOk result (λ e. IsTrue e.complete →
        TellAll (file_of image.now) (program_of image.now) cells e.rows.items) }
    ensures whole { IfOk result (λ e. IsTrue e.complete → IsTrue e.roomy →
        TellWhole (file_of image.now) (program_of image.now) e.rows.items) }
    ensures apart { IfOk result (λ e. AreApart e.rows.items) }
    ensures order { IfOk result (λ e. IsSorted row_order e.rows.items) }
    ensures watched { GoesOn W.Since watch.old watch.new }
{
    if are_bad_cells(image, cells) {
        return Err(ExploreFault::BadCells);
    }
    if are_bad_states(states) {
        return Err(ExploreFault::BadStates);
    }
    let file = image.checked().file();
    let program = image.program();
    let setting = setting_of(alloc, file, program)?;
    match setting {
        Setting::Ends(count) => explore_rest(alloc, image, cells, states, count, watch),
        Setting::Sticks(count) => explore_stuck(alloc, image, cells, count),
        Setting::GoesOn => Err(ExploreFault::SetupEndless),
    }
}
