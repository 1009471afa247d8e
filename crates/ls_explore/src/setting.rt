// The setup of a program, from the source and on a machine.

ghost use Rattle.std.specs.Prelude.{◌≡◌, ◌≤◌, IfErr, IfOk, OnOk, replicate};
ghost use Rattle.ls_code.specs.Machine.{loaded, machine_run};
ghost use Rattle.ls_checked.specs.Plain.{plain_file};
ghost use Rattle.ls_checked.specs.PlainProgram.{plain_program};
ghost use Rattle.ls_preservation.specs.Same.{Fits, IsCells};
ghost use Rattle.ls_preservation.specs.Translations.{to_machine};
ghost use Rattle.ls_image.specs.Images.{code_of_image};
ghost use Rattle.ls_explore.specs.Explored.{IsSetUp};
ghost use Rattle.ls_explore.specs.Faults.{IsLate};
ghost use Rattle.ls_explore.specs.Settings.{EndsAt, IsFew, IsSetting};
ghost use Rattle.ls_translation.specs.Texts.{file_of, program_of};

use crate::fault::ExploreFault;
use crate::laws::sets_up;
use ls_checked::program::Program;
use ls_checked::tree::File;
use ls_events::schedule::Schedule;
use ls_image::image::Image;
use ls_image::laws::{acts_in_time, ends_in_time, has_setup};
use ls_meaning::step::has_acted;
use ls_source::run::SourceRun;
use ls_translation::laws::translates_back;
use ls_translation::to_machine;
use std::alloc::{AllocError, Global};

/// The most source steps of a setup, and one more.
const TOO_MANY_STEPS: usize = 100_001;

/// How the setup goes.
#[derive(Copy)]
pub(crate) enum Setting {
    /// It ends after so many source steps.
    Ends(usize),
    /// It stands still after so many, and has not ended: it has been trapped.
    Sticks(usize),
    /// It has not ended with as many as it may take.
    GoesOn,
}

impl Clone for Setting {
    fn clone(&self) -> Result<Setting, AllocError> {
        Ok(*self)
    }
}

/// How the setup goes.
pub(crate) fn setting_of(
    alloc: Global,
    file: &File,
    program: &Program,
) -> Result<Setting, AllocError>
    ensures setting { IfOk result (IsSetting (plain_file file.now) (plain_program program.now)) }
    ensures few { IfOk result IsFew }
{
    let mut run = SourceRun::new(alloc, file, program)?;
    for count in 0..TOO_MANY_STEPS {
        if run.has_setup_ended()? {
            return Ok(Setting::Ends(count));
        }
        let did = run.step(alloc, 0)?;
        if !has_acted(did) {
            return Ok(Setting::Sticks(count));
        }
    }
    Ok(Setting::GoesOn)
}

/// So many steps of the setup.
pub(crate) fn setup_steps(alloc: Global, count: usize) -> Result<Schedule, AllocError>
    requires { count ≤ 100000 }
    ensures { IfOk result (λ schedule. schedule ≡ replicate count 0) }
{
    let steps = vec![in alloc; 0u8; count]?;
    Ok(Schedule::of(steps))
}

/// The steps of a machine of an image, with so many cells, for so many source steps of the setup, which fit.
pub(crate) fn translated(
    alloc: Global,
    image: &Image,
    cells: usize,
    count: usize,
) -> Result<Schedule, ExploreFault>
    requires few { count ≤ 100000 }
    ensures late { IfErr result
        (IsLate (file_of image.now) (program_of image.now) (code_of_image image.now) cells count) }
    ensures fits { OnOk result (Fits (file_of image.now) (program_of image.now) cells (replicate count 0)) }
    ensures steps { IfOk result (λ steps. steps ≡
        to_machine (file_of image.now) (program_of image.now) (code_of_image image.now) cells (replicate count 0)) }
{
    let source = setup_steps(alloc, count)?;
    let translation = to_machine(alloc, image, cells, &source)?;
    Ok(translation)
}

/// The steps of a machine of an image, with so many cells, that set its program up, if its source does so with so
/// many steps.
pub(crate) fn set_up(
    alloc: Global,
    image: &Image,
    cells: usize,
    count: usize,
) -> Result<Schedule, ExploreFault>
    requires cells { IsCells (code_of_image image.now) cells }
    requires few { count ≤ 100000 }
    requires ends { EndsAt (file_of image.now) (program_of image.now) count }
    ensures late { IfErr result
        (IsLate (file_of image.now) (program_of image.now) (code_of_image image.now) cells count) }
    ensures steps { IfOk result
        (λ steps. IsSetUp (file_of image.now) (program_of image.now) (code_of_image image.now) cells count
        (machine_run (loaded (code_of_image image.now) cells) steps)) }
{
    translates_back(image, cells);
    acts_in_time(image);
    ends_in_time(image);
    has_setup(image);
    sets_up();
    let steps = translated(alloc, image, cells, count)?;
    Ok(steps)
}
