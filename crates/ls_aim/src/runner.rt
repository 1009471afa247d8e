// A run on which targets are looked for.

ghost use Rattle.std.specs.Prelude.{◌≡◌, ◌==◌, ◌++◌, IfOk, OnOk, OnErr, option_to_list, string_bytes};
ghost use Rattle.ls_labels.specs.Labels.{label_of};
ghost use Rattle.ls_labels.specs.Names.{names_of};
ghost use Rattle.ls_labels.specs.Words.{performed_text};
ghost use Rattle.ls_aim.specs.Aims.{at_rest, before_step, halted, met, sight};
ghost use Rattle.ls_aim.specs.Reading.{stop_of};
ghost use Rattle.ls_aim.specs.Runs.{after_step, begun, run_of, step_in};
ghost use Rattle.ls_aim.specs.Seen.{sight_of};

use crate::fault::AimFault;
use crate::labels::has_text;
use crate::reading::Stop;
use ls_events::action::{Action, Answer};
use ls_events::value::Value;
use ls_labels::label::{Label, label_of};
use ls_labels::names::Names;
use ls_labels::words::push_performed;
use ls_meaning::step::{Asked, Did};
use ls_source::run::SourceRun;
use std::alloc::{AllocError, Global};

/// What a thread does that is to stop: it stops here, it takes a step and is then to stop so, or it can't come there.
#[derive(Clone, Copy)]
pub enum Sight<'t> {
    Arrived,
    GoesOn(Stop<'t>),
    Missed(AimFault),
}

/// A run with what its objects are called by.
#[derive(Drop)]
pub struct Runner<'a> {
    names: Names<'a>,
    run: SourceRun<'a>,
    labels: Vec<Label>,
}

// Before a step that has the text.
fn met(passing: u64, text: &[u8]) -> Sight<'_>
    ensures { sight_of result ≡ met passing text.now }
{
    if passing == 0 {
        Sight::Arrived
    } else {
        Sight::GoesOn(Stop::Before {
            passing: passing - 1,
            text,
        })
    }
}

// Before a step with this label.
fn before_step<'t>(stop: Stop<'t>, label: &[u8]) -> Sight<'t>
    ensures { sight_of result ≡ before_step (stop_of stop.entry) label.now }
{
    match stop {
        Stop::Rest => Sight::GoesOn(Stop::Rest),
        Stop::Before { passing, text } => {
            if has_text(text, label) {
                met(passing, text)
            } else {
                Sight::GoesOn(Stop::Before { passing, text })
            }
        }
    }
}

// Where the thread has ended or waits.
fn halted<'t>(at: usize, stop: Stop<'t>) -> Sight<'t>
    ensures { sight_of result ≡ halted at (stop_of stop.entry) }
{
    match stop {
        Stop::Rest => Sight::Arrived,
        Stop::Before { .. } => Sight::Missed(AimFault::NotMet { at }),
    }
}

// Where a step changes nothing, by what the thread asks for.
fn at_rest<'t>(at: usize, stop: Stop<'t>, asked: Asked) -> Sight<'t>
    ensures { sight_of result ≡ at_rest at (stop_of stop.entry) asked }
{
    match asked {
        Asked::NotStarted => Sight::Missed(AimFault::NotStarted { at }),
        Asked::Asks(_) | Asked::Ended => halted(at, stop),
    }
}

// The label of a new object is kept.
fn note(labels: &mut Vec<Label>, action: Action<Value>) -> Result<(), AllocError>
    ensures labels { OnOk result (labels.new.items ≡ labels.old.items ++ option_to_list (label_of action)) }
    ensures refused { OnErr result (labels.new.items ≡ labels.old.items) }
{
    if let Some(label) = label_of(action) {
        labels.push(label)?;
    }
    Ok(())
}

impl<'a> Runner<'a> {
    ghost use Rattle.ls_aim.specs.Seen.{RunsNamed, names_in, run_in};

    // A run that hasn't made a step.
    fn new(alloc: Global, names: Names<'a>) -> Result<Runner<'a>, AllocError>
        ensures run { IfOk result (λ r. run_in r ≡ begun (names_of names.entry).program) }
        ensures names { IfOk result (λ r. names_in r ≡ names_of names.entry) }
        ensures runs { IfOk result (λ r. RunsNamed r) }
    {
        let run = SourceRun::new(alloc, names.file, names.program)?;
        Ok(Runner {
            names,
            run,
            labels: Vec::new(alloc),
        })
    }

    // A step of a thread.
    fn step(&mut self, alloc: Global, thread: usize) -> Result<Did, AllocError>
        requires { RunsNamed self.old }
        ensures did { IfOk result (λ d. d ≡ (step_in (names_in self.old) (run_in self.old) thread).did) }
        ensures run { OnOk result (run_in self.new ≡ after_step (names_in self.old) (run_in self.old) thread) }
        ensures names { names_in self.new ≡ names_in self.old }
        ensures runs { OnOk result (RunsNamed self.new) }
    {
        let did = self.run.step(alloc, thread)?;
        if let Did::Acted(action, _) = did {
            note(&mut self.labels, action)?;
        }
        Ok(did)
    }

    /// The run of a schedule.
    pub fn after(alloc: Global, names: Names<'a>, steps: &[u8]) -> Result<Runner<'a>, AllocError>
        ensures run { IfOk result (λ r. run_in r ≡ run_of (names_of names.entry) steps.now) }
        ensures names { IfOk result (λ r. names_in r ≡ names_of names.entry) }
        ensures runs { IfOk result (λ r. RunsNamed r) }
    {
        let mut runner = Runner::new(alloc, names)?;
        for thread in steps {
            let _did = runner.step(alloc, *thread as usize)?;
        }
        Ok(runner)
    }

    // The label of a step that was made: what its line in a trace has after its number and its thread.
    fn label(
        &self,
        alloc: Global,
        thread: usize,
        action: Action<Value>,
        answer: Answer<Value>,
    ) -> Result<String, AllocError>
        ensures { IfOk result (λ l. string_bytes l ≡ performed_text (names_in self.now) (run_in self.now).labels thread
            action answer) }
    {
        let mut label = String::new(alloc);
        push_performed(&mut label, self.names, &self.labels, thread, action, answer)?;
        Ok(label)
    }

    /// What a thread does that is to stop. The run makes the step.
    pub fn sight<'t>(
        &mut self,
        alloc: Global,
        at: usize,
        thread: usize,
        stop: Stop<'t>,
    ) -> Result<Sight<'t>, AllocError>
        requires { RunsNamed self.old }
        ensures sight { IfOk result
            (λ s. sight_of s ≡ sight (names_in self.old) at (run_in self.old) thread (stop_of stop.entry)) }
        ensures run { OnOk result (run_in self.new ≡ after_step (names_in self.old) (run_in self.old) thread) }
        ensures names { names_in self.new ≡ names_in self.old }
        ensures runs { OnOk result (RunsNamed self.new) }
    {
        match self.step(alloc, thread)? {
            Did::Acted(action, answer) => {
                let label = self.label(alloc, thread, action, answer)?;
                Ok(before_step(stop, label.as_bytes()))
            }
            Did::Waits | Did::Idle => Ok(at_rest(at, stop, self.run.next(alloc, thread)?)),
        }
    }
}
