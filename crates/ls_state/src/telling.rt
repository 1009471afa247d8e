// What holds after a schedule.

ghost use Rattle.std.specs.Prelude.{◌≡◌, ◌++◌, IfOk, OnOk, string_bytes};
ghost use Rattle.ls_labels.specs.Names.{names_of};
ghost use Rattle.ls_state.specs.Seen.{IsOwn, names_in, scene_seen};
ghost use Rattle.ls_state.specs.State.{lines_of, state_text};

use crate::asking::push_threads;
use crate::objects::{push_names, push_things};
use crate::scene::Scene;
use ls_labels::names::Names;
use std::alloc::{AllocError, Global};

/// Adds a line for each object, each setup name and each thread.
pub(crate) fn push_state(alloc: Global, out: &mut String, scene: &Scene) -> Result<(), AllocError>
    requires { IsOwn scene.now }
    ensures { OnOk result (string_bytes out.new ≡ string_bytes out.old ++
        lines_of (names_in scene.now) (scene_seen scene.now)) }
{
    push_things(out, scene)?;
    push_names(out, scene)?;
    push_threads(alloc, out, scene)
}

/// What holds after a schedule, whose steps are numbers of threads: a line for each object, each setup name and each
/// thread. Refused where memory runs out.
pub fn state<'n>(alloc: Global, names: Names<'n>, steps: &[u8]) -> Result<String, AllocError>
    ensures { IfOk result (λ text. string_bytes text ≡ state_text (names_of names.entry) steps.now) }
{
    let scene = Scene::after(alloc, names, steps)?;
    let mut out = String::new(alloc);
    push_state(alloc, &mut out, &scene)?;
    Ok(out)
}
