// From a schedule of the machine to one of the source.

ghost use Rattle.ls_events.specs.Limits.{most_steps};
ghost use Rattle.std.specs.Prelude.{◌≡◌, ◌<◌, ◌≤◌, ◌++◌, ◌↔◌, IfErr, IfOk, IsErrOf, OnOk, length};
ghost use Rattle.std.specs.Prelude.{◌⊎◌};
ghost use Rattle.ls_code.specs.Machine.{machine_history, machine_step};
ghost use Rattle.ls_image.specs.Images.{code_of_image};
ghost use Rattle.ls_preservation.specs.Same.{Alike};
ghost use Rattle.ls_preservation.specs.Translations.{to_source};
ghost use Rattle.ls_machine.specs.Room.{AreBadCells};
ghost use Rattle.ls_meaning.specs.Runs.{source_history};
ghost use Rattle.ls_translation.specs.Acting.{acting, if_acts};
ghost use Rattle.ls_translation.specs.Texts.{file_of, program_of};
ghost use Rattle.ls_translation.specs.declared.fault.TranslationFault.TheVariants.{BadCells, Memory};

use crate::fault::TranslationFault;
use ls_code::step::Did;
use ls_events::schedule::Schedule;
use ls_image::image::Image;
use ls_machine::Machine;
use std::alloc::{AllocError, Global};

/// Takes a step, and adds its thread where it acts.
fn take(machine: &mut Machine, acting: &mut Schedule, thread: u8) -> Result<(), AllocError>
    requires { length acting.old < most_steps }
    ensures machine { OnOk result (machine.new ≡ (machine_step machine.old thread).machine) }
    ensures acting { OnOk result (acting.new ≡ acting.old ++ if_acts thread (machine_step machine.old thread).did) }
{
    match machine.step(thread as usize) {
        Did::Acted(_, _) => acting.push(thread),
        Did::Silent | Did::Waits | Did::Idle | Did::Stopped => Ok(()),
    }
}

/// The thread of each step of a schedule that acts.
fn acting_steps(
    alloc: Global,
    machine: Machine,
    schedule: &Schedule,
) -> Result<Schedule, AllocError>
    ensures { IfOk result (λ steps. steps ≡ acting machine schedule.now) }
{
    schedule.fits();
    let mut machine = machine;
    let mut acting = Schedule::new(alloc);
    for thread in schedule.steps() {
        take(&mut machine, &mut acting, *thread)?;
    }
    Ok(acting)
}

/// The schedule of source steps for a schedule of instructions on a machine with so many cells: one entry for each
/// instruction that acts, in order. It shows the machine's history, whoever compiled the image.
/// Refused with 35 where there are no cells, more than 4,194,304, or fewer than setup names.
pub fn to_source(
    alloc: Global,
    image: &Image,
    cells: usize,
    schedule: &Schedule,
) -> Result<Schedule, TranslationFault>
    ensures bad { IsErrOf result BadCells ↔ AreBadCells (code_of_image image.now).names cells }
    ensures only { IfErr result (λ e. (e ≡ BadCells) ⊎ (e ≡ Memory)) }
    ensures steps { IfOk result (λ steps. steps ≡ to_source (code_of_image image.now) cells schedule.now) }
    ensures history { IfOk result (λ steps. source_history (file_of image.now) (program_of image.now) steps ≡
        machine_history (code_of_image image.now) cells schedule.now) }
    ensures alike { IfOk result
        (λ steps. ∥ Alike (file_of image.now) (program_of image.now) (code_of_image image.now) cells schedule.now steps
        ∥₁) }
{
    let machine = Machine::load(alloc, image.code(), cells)?;
    Ok(acting_steps(alloc, machine, schedule)?)
}
