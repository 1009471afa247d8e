// From a schedule of the source to one of the machine.

ghost use Rattle.ls_events.specs.Limits.{most_steps};
ghost use Rattle.std.specs.Prelude.{◌≡◌, ℕ, ◌<◌, ◌≤◌, ◌↔◌, ◌++◌, ◌*◌, Err, IfErr, IfOk, IsErrOf, Ok, OnOk, false};
ghost use Rattle.std.specs.Prelude.{length, true};
ghost use Rattle.ls_code.specs.Machine.{machine_history};
ghost use Rattle.ls_image.specs.Images.{code_of_image, program_of_image};
ghost use Rattle.ls_preservation.specs.Same.{Alike, Fits};
ghost use Rattle.ls_preservation.specs.Translations.{most_silent, steps_all, to_machine};
ghost use Rattle.ls_machine.specs.Room.{AreBadCells};
ghost use Rattle.ls_meaning.specs.Runs.{source_history, start};
ghost use Rattle.ls_source.specs.Progress.{begun};
ghost use Rattle.ls_source.specs.Shown.{progress_of};
ghost use Rattle.ls_translation.specs.Faults.{CutsShort};
ghost use Rattle.ls_translation.specs.MachineRuns.{begun as no_steps, gone, steps_after, steps_before, steps_of_acting};
ghost use Rattle.ls_translation.specs.Room.{IsFirstUnfit};
ghost use Rattle.ls_translation.specs.Texts.{file_of, program_of};
ghost use Rattle.ls_translation.specs.declared.fault.TranslationFault.TheVariants.{BadCells, DoesNotFit, Memory};
ghost use Rattle.ls_translation.specs.declared.fault.TranslationFault.TheVariants.{ResultTooLong};

use crate::fault::TranslationFault;
use crate::machine_run::MachineRun;
use crate::room::free_after;
use ls_events::schedule::Schedule;
use ls_image::image::Image;
use ls_machine::Machine;
use ls_meaning::step::{Did, has_acted};
use ls_source::run::SourceRun;
use std::alloc::Global;

/// Whether the steps are more than a schedule can have. The only other refusal is that memory ran out.
fn is_too_long(followed: Result<(), TranslationFault>) -> Result<bool, TranslationFault>
    ensures goes { IfOk result (λ b. b ≡ false → followed ≡ Ok tt) }
    ensures long { IfOk result (λ b. b ≡ true → followed ≡ Err ResultTooLong) }
    ensures err { IfErr result (λ e. (followed ≡ Err e) × (e ≡ ResultTooLong → ⊥)) }
{
    match followed {
        Ok(()) => Ok(false),
        Err(TranslationFault::ResultTooLong) => Ok(true),
        Err(fault) => Err(fault),
    }
}

/// The setup's steps to its end, if its source has ended. Answers whether they are too many.
fn begin(source: &SourceRun<'_>, run: &mut MachineRun, most: u64) -> Result<bool, TranslationFault>
    ensures goes { IfOk result (λ b. b ≡ false →
        run.new ≡ gone run.old (steps_before (progress_of source.now) most run.old.machine)) }
    ensures long { IfOk result (λ b. b ≡ true →
        most_steps < length (run.old.steps ++ steps_before (progress_of source.now) most run.old.machine)) }
    ensures err { IfErr result (λ e. e ≡ Memory) }
{
    is_too_long(run.finish_if(source.has_setup_ended()?, most))
}

/// The machine's steps for a step of the source that acts, which the source has made.
fn act(
    source: &SourceRun<'_>,
    run: &mut MachineRun,
    most: u64,
    thread: u8,
) -> Result<(), TranslationFault>
    ensures run { OnOk result
        (run.new ≡ gone run.old (steps_of_acting (progress_of source.now) most run.old.machine thread)) }
    ensures short { IfErr result
        (CutsShort (run.old.steps ++ steps_of_acting (progress_of source.now) most run.old.machine thread)) }
{
    run.act(most, thread)?;
    run.finish_if(source.has_setup_ended()?, most)
}

/// The machine's steps for a step of the source that did this. The source has made the step. Answers whether the steps
/// are too many. If they have been before, the machine doesn't go on.
fn follow(
    source: &SourceRun<'_>,
    run: &mut MachineRun,
    most: u64,
    thread: u8,
    did: Did,
    was_long: bool,
) -> Result<bool, TranslationFault>
    ensures was_short { IfOk result (λ b. b ≡ false → was_long ≡ false) }
    ensures goes { IfOk result (λ b. b ≡ false →
        run.new ≡ gone run.old (steps_after (progress_of source.now) most run.old.machine thread did)) }
    ensures long { IfOk result (λ b. b ≡ true → was_long ≡ false →
        most_steps < length (run.old.steps ++ steps_after (progress_of source.now) most run.old.machine thread did)) }
    ensures err { IfErr result (λ e. e ≡ Memory) }
{
    if was_long {
        return Ok(true);
    }
    if !has_acted(did) {
        return Ok(false);
    }
    is_too_long(act(source, run, most, thread))
}

/// The most silent steps of a thread of an image in a row.
fn most_silent(image: &Image) -> u64
    ensures { result ≡ most_silent (code_of_image image.now) }
{
    64 * (image.code().instructions().len() as u64)
}

/// Follows a source run at its start through a schedule, which is played once. Each step is checked for room as it is
/// made. If there are too many steps, the rest of the schedule is only checked.
fn follow_schedule(
    alloc: Global,
    image: &Image,
    cells: usize,
    source: &mut SourceRun<'_>,
    run: &mut MachineRun,
    schedule: &Schedule,
) -> Result<(), TranslationFault>
    requires cells { length (program_of_image image.now).names.items ≤ cells }
    requires source { progress_of source.old ≡ begun (file_of image.now) (program_of image.now) }
    requires run { run.old ≡ no_steps run.old.machine }
    ensures unfit { (step : ℕ) → IsErrOf result (DoesNotFit step) →
        IsFirstUnfit (file_of image.now) (program_of image.now) cells schedule.now step }
    ensures long { IsErrOf result ResultTooLong →
        most_steps < length
        (steps_all (file_of image.now) (program_of image.now) (most_silent (code_of_image image.now))
        (start (program_of image.now)) run.old.machine schedule.now) }
    ensures long_fits { IsErrOf result ResultTooLong →
        Fits (file_of image.now) (program_of image.now) cells schedule.now }
    ensures bad { ¬ IsErrOf result BadCells }
    ensures fits { OnOk result (Fits (file_of image.now) (program_of image.now) cells schedule.now) }
    ensures steps { OnOk result (run.new.steps ≡
        steps_all (file_of image.now) (program_of image.now) (most_silent (code_of_image image.now))
        (start (program_of image.now)) run.old.machine schedule.now) }
{
    let file = image.checked().file();
    let most = most_silent(image);
    let mut free = cells - image.program().names.len();
    let mut is_long = begin(source, run, most)?;
    for (step, thread) in schedule.steps().iter().enumerate() {
        let did = source.step(alloc, *thread as usize)?;
        let Some(left) = free_after(&file.classes, free, did) else {
            return Err(TranslationFault::DoesNotFit { step });
        };
        free = left;
        is_long = follow(source, run, most, *thread, did, is_long)?;
    }
    if is_long {
        return Err(TranslationFault::ResultTooLong);
    }
    Ok(())
}

/// The machine's steps for a schedule of the source, on a machine that hasn't taken a step.
fn follow_from_start(
    alloc: Global,
    image: &Image,
    cells: usize,
    run: &mut MachineRun,
    schedule: &Schedule,
) -> Result<(), TranslationFault>
    requires cells { length (program_of_image image.now).names.items ≤ cells }
    requires run { run.old ≡ no_steps run.old.machine }
    ensures unfit { (step : ℕ) → IsErrOf result (DoesNotFit step) →
        IsFirstUnfit (file_of image.now) (program_of image.now) cells schedule.now step }
    ensures long { IsErrOf result ResultTooLong →
        most_steps < length
        (steps_all (file_of image.now) (program_of image.now) (most_silent (code_of_image image.now))
        (start (program_of image.now)) run.old.machine schedule.now) }
    ensures long_fits { IsErrOf result ResultTooLong →
        Fits (file_of image.now) (program_of image.now) cells schedule.now }
    ensures bad { ¬ IsErrOf result BadCells }
    ensures fits { OnOk result (Fits (file_of image.now) (program_of image.now) cells schedule.now) }
    ensures steps { OnOk result (run.new.steps ≡
        steps_all (file_of image.now) (program_of image.now) (most_silent (code_of_image image.now))
        (start (program_of image.now)) run.old.machine schedule.now) }
{
    let mut source = SourceRun::new(alloc, image.checked().file(), image.program())?;
    follow_schedule(alloc, image, cells, &mut source, run, schedule)
}

/// The machine's steps for a schedule of the source.
fn machine_steps(
    alloc: Global,
    image: &Image,
    cells: usize,
    machine: Machine,
    schedule: &Schedule,
) -> Result<Schedule, TranslationFault>
    requires { length (program_of_image image.now).names.items ≤ cells }
    ensures unfit { (step : ℕ) → IsErrOf result (DoesNotFit step) →
        IsFirstUnfit (file_of image.now) (program_of image.now) cells schedule.now step }
    ensures long { IsErrOf result ResultTooLong →
        most_steps < length
        (steps_all (file_of image.now) (program_of image.now) (most_silent (code_of_image image.now))
        (start (program_of image.now)) machine schedule.now) }
    ensures long_fits { IsErrOf result ResultTooLong →
        Fits (file_of image.now) (program_of image.now) cells schedule.now }
    ensures bad { ¬ IsErrOf result BadCells }
    ensures fits { OnOk result (Fits (file_of image.now) (program_of image.now) cells schedule.now) }
    ensures steps { IfOk result
        (λ steps. steps ≡ steps_all (file_of image.now) (program_of image.now) (most_silent (code_of_image image.now))
        (start (program_of image.now)) machine schedule.now) }
{
    let mut run = MachineRun::new(alloc, machine);
    follow_from_start(alloc, image, cells, &mut run, schedule)?;
    Ok(run.into_steps())
}

/// The schedule of instructions for a schedule of source steps, on a machine with so many cells. For each source step
/// that changes the state it has its thread's instructions up to and with the acting one. As soon as the setup's
/// source has ended, it has the setup's instructions to its end. It has nothing for other steps. It shows the
/// source's history, whoever compiled the image.
///
/// Refused with 35 if there are no cells, more than 4,194,304, or fewer than setup names. Else refused with 43 at the
/// first step that makes what has no room in the cells. Else refused with 44 if the schedule would have over
/// 1,000,000 steps.
pub fn to_machine(
    alloc: Global,
    image: &Image,
    cells: usize,
    schedule: &Schedule,
) -> Result<Schedule, TranslationFault>
    ensures bad { IsErrOf result BadCells ↔ AreBadCells (code_of_image image.now).names cells }
    ensures unfit { (step : ℕ) → IsErrOf result (DoesNotFit step) →
        IsFirstUnfit (file_of image.now) (program_of image.now) cells schedule.now step }
    ensures long { IsErrOf result ResultTooLong →
        most_steps < length
        (to_machine (file_of image.now) (program_of image.now) (code_of_image image.now) cells schedule.now) }
    ensures long_fits { IsErrOf result ResultTooLong →
        Fits (file_of image.now) (program_of image.now) cells schedule.now }
    ensures fits { OnOk result (Fits (file_of image.now) (program_of image.now) cells schedule.now) }
    ensures steps { IfOk result
        (λ steps. steps ≡ to_machine (file_of image.now) (program_of image.now) (code_of_image image.now) cells
        schedule.now) }
    ensures history { IfOk result (λ steps. machine_history (code_of_image image.now) cells steps ≡
        source_history (file_of image.now) (program_of image.now) schedule.now) }
    ensures alike { IfOk result
        (λ steps. ∥ Alike (file_of image.now) (program_of image.now) (code_of_image image.now) cells steps schedule.now
        ∥₁) }
{
    let machine = Machine::load(alloc, image.code(), cells)?;
    machine_steps(alloc, image, cells, machine, schedule)
}
