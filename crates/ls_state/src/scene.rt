// A run that has gone through a schedule.

ghost use Rattle.std.specs.Prelude.{◌≡◌, ◌++◌, IfOk, OnOk};
ghost use Rattle.ls_state.specs.Scene.{made_by};

use ls_labels::label::{Label, label_of};
use ls_labels::names::Names;
use ls_meaning::step::Did;
use ls_source::run::SourceRun;
use std::alloc::{AllocError, Global};

/// A run with the labels of the objects that it has made.
#[derive(Drop)]
pub struct Scene<'n> {
    pub names: Names<'n>,
    pub run: SourceRun<'n>,
    pub labels: Vec<Label>,
}

// Keeps the label of the object that a step has made.
fn keep_label(labels: &mut Vec<Label>, did: Did) -> Result<(), AllocError>
    ensures { OnOk result (labels.new.items ≡ labels.old.items ++ made_by did) }
{
    let Did::Acted(action, _) = did else {
        return Ok(());
    };
    match label_of(action) {
        Some(label) => {
            labels.push(label)?;
            Ok(())
        }
        None => Ok(()),
    }
}

impl<'n> Scene<'n> {
    ghost use Rattle.ls_labels.specs.Names.{names_of};
    ghost use Rattle.std.specs.Prelude.{[]};
    ghost use Rattle.ls_state.specs.Scene.{scene_after, scene_of};
    ghost use Rattle.ls_state.specs.Seen.{IsOwn, names_in, scene_seen};

    /// The run of a program that hasn't made a step.
    pub fn new(alloc: Global, names: Names<'n>) -> Result<Scene<'n>, AllocError>
        ensures names { IfOk result (λ s. names_in s ≡ names_of names.entry) }
        ensures own { IfOk result (λ s. IsOwn s) }
        ensures scene { IfOk result (λ s. scene_seen s ≡ scene_of (names_of names.entry) []) }
    {
        let run = SourceRun::new(alloc, names.file, names.program)?;
        Ok(Scene {
            names,
            run,
            labels: Vec::new(alloc),
        })
    }

    /// A step of a thread. Where memory runs out, the run is not gone on with.
    pub fn step(&mut self, alloc: Global, thread: usize) -> Result<(), AllocError>
        requires { IsOwn self.old }
        ensures names { names_in self.new ≡ names_in self.old }
        ensures own { OnOk result (IsOwn self.new) }
        ensures scene { OnOk result
            (scene_seen self.new ≡ scene_after (names_in self.old) (scene_seen self.old) thread) }
    {
        let did = self.run.step(alloc, thread)?;
        keep_label(&mut self.labels, did)?;
        Ok(())
    }

    /// The run of a program for a schedule.
    pub fn after(alloc: Global, names: Names<'n>, steps: &[u8]) -> Result<Scene<'n>, AllocError>
        ensures names { IfOk result (λ s. names_in s ≡ names_of names.entry) }
        ensures own { IfOk result (λ s. IsOwn s) }
        ensures scene { IfOk result (λ s. scene_seen s ≡ scene_of (names_of names.entry) steps.now) }
    {
        let mut run = SourceRun::new(alloc, names.file, names.program)?;
        let mut labels = Vec::new(alloc);
        for thread in steps {
            let did = run.step(alloc, *thread as usize)?;
            keep_label(&mut labels, did)?;
        }
        Ok(Scene { names, run, labels })
    }
}
