// Which threads wait, for what, and who holds it.

ghost use Rattle.std.specs.Prelude.{◌≡◌, ◌++◌, IfOk, OnOk, map, string_bytes};
ghost use Rattle.ls_explore_reports.specs.Waiting.{asked_text, awaited_owner, listed, waiting, waits_text};
ghost use Rattle.ls_labels.specs.Names.{names_of};
ghost use Rattle.ls_schedule.specs.Reading.{thread_name, thread_names};
ghost use Rattle.ls_state.specs.Scene.{scene_of};
ghost use Rattle.ls_state.specs.Seen.{IsOwn, names_in, scene_seen};

use ls_checked::program::ThreadProgram;
use ls_events::action::Action;
use ls_events::schedule::Schedule;
use ls_labels::names::Names;
use ls_labels::threads::{owner_of, push_wait};
use ls_meaning::step::Asked;
use ls_state::scene::Scene;
use std::alloc::{AllocError, Global};
use std::fmt::Write;

/// Adds what a thread of this name waits for, as `A waits for ReentrantLock#2, which B owns`. Nothing where it asks for
/// no action.
fn push_waits(
    out: &mut String,
    scene: &Scene<'_>,
    name: &str,
    asked: Asked,
) -> Result<(), AllocError>
    ensures { OnOk result (string_bytes out.new ≡ string_bytes out.old ++
        asked_text (names_in scene.now) (scene_seen scene.now) name.now asked) }
{
    match asked {
        Asked::Asks(action) => {
            write!(out, "{name} ")?;
            push_wait(out, scene.names, &scene.labels, &scene.run, action)
        }
        Asked::Ended | Asked::NotStarted => Ok(()),
    }
}

/// What a thread of this name waits for, where it waits. Nothing, if it asks for no action.
pub fn waits_for(
    alloc: Global,
    scene: &Scene<'_>,
    thread: usize,
    name: &str,
) -> Result<String, AllocError>
    requires { IsOwn scene.now }
    ensures { IfOk result (λ text. string_bytes text ≡
        waits_text (names_in scene.now) (scene_seen scene.now) thread name.now) }
{
    let asked = scene.run.next(alloc, thread)?;
    let mut out = String::new(alloc);
    push_waits(&mut out, scene, name, asked)?;
    Ok(out)
}

/// The thread that owns the lock or the monitor that is asked for.
pub fn awaited_owner(scene: &Scene<'_>, asked: Asked) -> Option<usize>
    ensures { result ≡ awaited_owner (scene_seen scene.now) asked }
{
    match asked {
        Asked::Asks(Action::Lock(lock)) => owner_of(scene.run.thing(lock)),
        Asked::Asks(Action::LockMonitor(object)) => owner_of(scene.run.thing(object)),
        _ => None,
    }
}

/// Adds a text, if it isn't empty, and `; ` before it, if there is one before it.
fn push_listed(out: &mut String, text: &str) -> Result<(), AllocError>
    ensures { OnOk result (string_bytes out.new ≡ listed (string_bytes out.old) text.now) }
{
    if text.is_empty() {
        return Ok(());
    }
    if !out.is_empty() {
        out.push_str("; ")?;
    }
    out.push_str(text)
}

/// What these threads wait for.
fn waiting(
    alloc: Global,
    scene: &Scene<'_>,
    threads: &[ThreadProgram],
) -> Result<String, AllocError>
    requires { IsOwn scene.now }
    ensures { IfOk result (λ text. string_bytes text ≡
        waiting (names_in scene.now) (scene_seen scene.now) 0 (map thread_name threads.now)) }
{
    let mut out = String::new(alloc);
    for number in 0..threads.len() {
        let waits = waits_for(alloc, scene, number, threads[number].name.as_str())?;
        push_listed(&mut out, waits.as_str())?;
    }
    Ok(out)
}

/// What the threads wait for after a schedule.
pub fn waiting_after(
    alloc: Global,
    names: Names<'_>,
    schedule: &Schedule,
) -> Result<String, AllocError>
    ensures { IfOk result (λ text. string_bytes text ≡
        waiting (names_of names.entry) (scene_of (names_of names.entry) schedule.now) 0
        (thread_names names.entry.program.now)) }
{
    let scene = Scene::after(alloc, names, schedule.steps())?;
    waiting(alloc, &scene, names.program.threads.as_slice())
}
