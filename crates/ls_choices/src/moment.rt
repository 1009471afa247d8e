// A run along a schedule, with all on which later lines depend.

ghost use Rattle.std.specs.Prelude.{◌≡◌, IfOk, OnOk};
ghost use Rattle.ls_trace.specs.Told.{calls_after, labels_after};

use ls_labels::label::Label;
use ls_labels::names::Names;
use ls_meaning::step::Did;
use ls_source::playing::Playing;
use ls_trace::teller::{no_steps, note};
use std::alloc::{AllocError, Global};

/// A run with the labels of the objects that it has made, and the number of each thread's last call.
#[derive(Drop)]
pub struct Moment<'a> {
    pub(crate) playing: Playing<'a>,
    pub(crate) labels: Vec<Label>,
    pub(crate) calls: Vec<usize>,
}

// Notes the label of a new object, and the number of a call.
fn note_step(
    labels: &mut Vec<Label>,
    calls: &mut Vec<usize>,
    thread: usize,
    did: &Did,
) -> Result<(), AllocError>
    ensures labels { OnOk result (labels.new.items ≡ labels_after labels.old.items did.now) }
    ensures calls { OnOk result (calls.new.items ≡ calls_after calls.old.items thread did.now) }
{
    match did {
        Did::Acted(action, _) => note(labels, calls, thread, action),
        Did::Waits => Ok(()),
        Did::Idle => Ok(()),
    }
}

impl<'a> Moment<'a> {
    ghost use Rattle.ls_labels.specs.Names.{Names as Named, names_of};
    ghost use Rattle.ls_trace.specs.Told.{Told, after_step, begun};
    ghost use Rattle.ls_choices.specs.Schedules.{told_after};
    ghost use Rattle.ls_choices.specs.Seen.{IsAt};

    // A run that hasn't made a step.
    fn new(alloc: Global, names: Names<'a>) -> Result<Moment<'a>, AllocError>
        ensures { IfOk result (λ m. IsAt (names_of names.entry) m (begun (names_of names.entry).program)) }
    {
        let calls = no_steps(alloc, &names.program.threads)?;
        let playing = Playing::new(alloc, names.file, names.program)?;
        Ok(Moment {
            playing,
            labels: Vec::new(alloc),
            calls,
        })
    }

    // A step of a thread. Where memory runs out, the run is not gone on with.
    fn step(&mut self, alloc: Global, thread: usize) -> Result<(), AllocError>
        ensures { OnOk result ((names : Named) (r : Told) → IsAt names self.old r →
            IsAt names self.new (after_step names r thread)) }
    {
        let did = self.playing.step(alloc, thread)?;
        note_step(&mut self.labels, &mut self.calls, thread, &did)
    }

    /// The run of a schedule, whose steps are numbers of threads. The only refusal is that memory ran out.
    pub fn after(alloc: Global, names: Names<'a>, steps: &[u8]) -> Result<Moment<'a>, AllocError>
        ensures { IfOk result (λ m. IsAt (names_of names.entry) m (told_after (names_of names.entry) steps.now)) }
    {
        let mut moment = Moment::new(alloc, names)?;
        for thread in steps {
            moment.step(alloc, *thread as usize)?;
        }
        Ok(moment)
    }
}
