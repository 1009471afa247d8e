// Replaying a schedule on the machine.

ghost use Rattle.std.specs.Prelude.{◌↔◌, IfOk, IsErrOf};
ghost use Rattle.ls_image.specs.Images.{RunsAsItsTexts, code_of_image};
ghost use Rattle.ls_code.specs.Machine.{Machine as MachineValue, machine_run};
ghost use Rattle.ls_machine.specs.Room.{AreBadCells};
ghost use Rattle.ls_schedule.specs.Records.{IsRecordOf};

use ls_events::event::Event;
use ls_events::schedule::Schedule;
use ls_image::image::Image;
use ls_image::laws::runs;
use ls_machine::{LoadFault, Machine};
use std::alloc::Global;

/// A schedule of instructions, and the machine after it.
#[derive(Drop)]
pub struct Record {
    schedule: Schedule,
    machine: Machine,
}

impl Record {
    ghost use Rattle.std.specs.Prelude.{◌≡◌};
    ghost use Rattle.ls_schedule.specs.Records.{scheduled, happened};

    /// The record of a machine that has taken the steps of a schedule.
    pub fn new(schedule: Schedule, machine: Machine) -> Record
        ensures schedule { scheduled result ≡ schedule }
        ensures history { happened result ≡ machine.history }
    {
        Record { schedule, machine }
    }

    /// The steps, in order.
    pub fn schedule(&self) -> &Schedule
        ensures { result.now ≡ scheduled self.now }
    {
        &self.schedule
    }

    /// The events of the run, in order.
    pub fn history(&self) -> &[Event]
        ensures { result.now ≡ happened self.now }
    {
        self.machine.history()
    }
}

/// The record of a schedule of instructions on a machine with so many cells: the schedule, and the machine's history of
/// it. The image runs as its texts, whoever compiled it, so the history is one of the Java text. Refused with 35 where
/// there are no cells, more than 4,194,304, or fewer than setup names.
pub fn replay(
    alloc: Global,
    image: &Image,
    cells: usize,
    schedule: Schedule,
) -> Result<Record, LoadFault>
    ensures bad { IsErrOf result LoadFault.BadCells ↔ AreBadCells (code_of_image image.now).names cells }
    ensures record { IfOk result (IsRecordOf (code_of_image image.now) cells schedule) }
    ensures image { ∥ RunsAsItsTexts image.now ∥₁ }
{
    runs(image);
    let mut machine = Machine::load(alloc, image.code(), cells)?;
    machine.run(&schedule);
    Ok(Record::new(schedule, machine))
}
