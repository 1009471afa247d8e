// A run of the machine that follows the source.

ghost use Rattle.ls_translation.specs.MachineRuns.{is_loud};
ghost use Rattle.std.specs.Prelude.{◌≡◌};

use crate::fault::TranslationFault;
use ls_code::step::Did;
use ls_events::schedule::{MOST_STEPS, Schedule};
use ls_machine::Machine;
use std::alloc::Global;

/// A machine, and the steps that it has taken.
#[derive(Drop)]
pub struct MachineRun {
    machine: Machine,
    steps: Schedule,
}

/// Whether a step isn't silent.
fn is_loud(did: Did) -> bool
    ensures { result ≡ is_loud did }
{
    match did {
        Did::Silent => false,
        Did::Acted(_, _) | Did::Waits | Did::Idle | Did::Stopped => true,
    }
}

impl MachineRun {
    ghost use Rattle.std.specs.Prelude.{◌++◌, ◌∷◌, [], IfErr, IfOk, OnOk};
    ghost use Rattle.ls_code.specs.Machine.{machine_step};
    ghost use Rattle.ls_preservation.specs.Translations.{setup_end, until_acts, until_over};
    ghost use Rattle.ls_translation.specs.Faults.{CutsShort};
    ghost use Rattle.ls_translation.specs.MachineRuns.{begun, gone, one_more};

    /// A machine that hasn't taken a step.
    pub fn new(alloc: Global, machine: Machine) -> MachineRun
        ensures { result ≡ begun machine }
    {
        MachineRun {
            machine,
            steps: Schedule::new(alloc),
        }
    }

    /// The steps, in order.
    pub fn into_steps(self) -> Schedule
        ensures { result ≡ self.steps }
    {
        let MachineRun { machine: _, steps } = self;
        steps
    }

    // Takes a step.
    fn advance(&mut self, thread: u8) -> Result<Did, TranslationFault>
        ensures run { OnOk result (self.new ≡ one_more self.old thread) }
        ensures did { IfOk result (λ did. did ≡ (machine_step self.old.machine thread).did) }
        ensures short { IfErr result (CutsShort (self.old.steps ++ thread ∷ [])) }
    {
        if self.steps.len() >= MOST_STEPS {
            return Err(TranslationFault::ResultTooLong);
        }
        self.steps.push(thread)?;
        Ok(self.machine.step(thread as usize))
    }

    /// Takes a thread's steps up to and with the one that isn't silent, with at most so many silent ones.
    pub fn act(&mut self, most: u64, thread: u8) -> Result<(), TranslationFault>
        ensures run { OnOk result (self.new ≡ gone self.old (until_acts most self.old.machine thread)) }
        ensures short { IfErr result (CutsShort (self.old.steps ++ until_acts most self.old.machine thread)) }
    {
        for taken in 0..most {
            let did = self.advance(thread)?;
            if is_loud(did) {
                return Ok(());
            }
        }
        let _last = self.advance(thread)?;
        Ok(())
    }

    // Takes the setup's steps to its end, at most so many.
    fn finish(&mut self, most: u64) -> Result<(), TranslationFault>
        ensures run { OnOk result (self.new ≡ gone self.old (until_over most self.old.machine)) }
        ensures short { IfErr result (CutsShort (self.old.steps ++ until_over most self.old.machine)) }
    {
        for taken in 0..most {
            if self.machine.is_set_up() {
                return Ok(());
            }
            let _did = self.advance(0)?;
        }
        Ok(())
    }

    /// Takes the setup's steps to its end, at most so many, where its source has ended.
    pub fn finish_if(&mut self, ended: bool, most: u64) -> Result<(), TranslationFault>
        ensures run { OnOk result (self.new ≡ gone self.old (setup_end most self.old.machine ended)) }
        ensures short { IfErr result (CutsShort (self.old.steps ++ setup_end most self.old.machine ended)) }
    {
        if ended {
            self.finish(most)?;
        }
        Ok(())
    }
}
