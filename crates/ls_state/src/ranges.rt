// What holds after each of many steps.

ghost use Rattle.std.specs.Prelude.{◌≡◌, ◌++◌, IfOk, OnOk, string_bytes};
ghost use Rattle.ls_labels.specs.Names.{names_of};
ghost use Rattle.ls_state.specs.Each.{each_text, headed_as};
ghost use Rattle.ls_state.specs.Seen.{IsOwn, names_in, scene_seen};

use crate::graphs::push_graph;
use crate::scene::Scene;
use crate::telling::push_state;
use ls_labels::names::Names;
use std::alloc::{AllocError, Global};
use std::fmt::Write;

/// As what it is shown what holds: as lines, or as a graph in the language of Graphviz.
#[derive(Copy)]
pub enum Form {
    Lines,
    Graph,
}

impl Clone for Form {
    fn clone(&self) -> Result<Form, AllocError> {
        Ok(*self)
    }
}

/// Adds what holds under the number of the step that led to it; above a graph the number is a comment.
fn push_headed(
    alloc: Global,
    out: &mut String,
    form: Form,
    number: usize,
    scene: &Scene,
) -> Result<(), AllocError>
    requires { IsOwn scene.now }
    ensures { OnOk result (string_bytes out.new
        ≡ string_bytes out.old ++ headed_as form (names_in scene.now) (scene_seen scene.now) number) }
{
    match form {
        Form::Lines => {
            write!(out, "after step {number}\n")?;
            push_state(alloc, out, scene)?;
        }
        Form::Graph => {
            write!(out, "// after step {number}\n")?;
            push_graph(out, scene)?;
        }
    }
    out.push_str("\n")
}

/// What holds after each step of a schedule whose number, counted from 1, lies in `from..=to`, each under its number.
/// Steps after `to` aren't made. Refused where memory runs out.
pub fn each<'n>(
    alloc: Global,
    names: Names<'n>,
    schedule: &[u8],
    form: Form,
    from: usize,
    to: usize,
) -> Result<String, AllocError>
    ensures { IfOk result (λ text. string_bytes text ≡ each_text form (names_of names.entry) schedule.now from to) }
{
    let mut scene = Scene::new(alloc, names)?;
    let mut out = String::new(alloc);
    let steps = &schedule[..to.min(schedule.len())];
    for (place, thread) in steps.iter().enumerate() {
        scene.step(alloc, *thread as usize)?;
        let number = place + 1;
        if from <= number {
            push_headed(alloc, &mut out, form, number, &scene)?;
        }
    }
    Ok(out)
}
