// What the threads ask for next.

ghost use Rattle.std.specs.Prelude.{◌≡◌, ◌==◌, ◌&&◌, ◌++◌, OnOk, string_bytes};
ghost use Rattle.ls_checked.specs.PlainProgram.{plain_thread};
ghost use Rattle.ls_meaning.specs.Effect.{effect};
ghost use Rattle.ls_source.specs.Shown.{progress_of};
ghost use Rattle.ls_state.specs.Asking.{asked_text, asking_text, asks_text, call_of, calls_begun, has_to_wait};
ghost use Rattle.ls_state.specs.Asking.{is_call, thread_line};
ghost use Rattle.ls_state.specs.Seen.{IsOwn, names_in, scene_seen};
ghost use Rattle.ls_state.specs.State.{threads_text};

use crate::scene::Scene;
use ls_checked::program::ThreadProgram;
use ls_events::action::Action;
use ls_events::event::{Event, Happening};
use ls_events::value::Value;
use ls_labels::threads::{end_words, push_wait, start_words};
use ls_labels::words::push_action;
use ls_meaning::step::Asked;
use ls_source::run::SourceRun;
use ls_source_store::thing::{Hold, Thing};
use std::alloc::{AllocError, Global};
use std::fmt::Write;

// Whether an event begins a call of a thread.
fn begins_call(event: Event, thread: usize) -> bool
    ensures { result ≡ (event.thread == thread && is_call event.happening) }
{
    event.thread == thread && matches!(event.happening, Happening::Called)
}

// How many calls a thread has begun.
fn calls_begun(history: &[Event], thread: usize) -> usize
    ensures { result ≡ calls_begun thread history.now }
{
    history
        .iter()
        .filter(|event| begins_call(**event, thread))
        .count()
}

// The number of the call that an action belongs to.
fn call_of(history: &[Event], thread: usize, action: Action<Value>) -> usize
    ensures { result ≡ call_of thread history.now action }
{
    match action {
        Action::Call(call) => call,
        _ => calls_begun(history, thread),
    }
}

// Whether a thread's action has to wait: it takes a lock or a monitor that another owns.
fn has_to_wait(run: &SourceRun, thread: usize, action: Action<Value>) -> bool
    ensures { result ≡
        has_to_wait (effect (progress_of run.now).file.classes (progress_of run.now).state.store thread action) }
{
    match action {
        Action::Lock(lock) => match run.thing(lock) {
            Some(Thing::Lock(Hold::HeldBy { owner, .. })) => *owner != thread,
            _ => false,
        },
        Action::LockMonitor(object) => match run.thing(object) {
            Some(
                Thing::Object {
                    monitor: Hold::HeldBy { owner, .. },
                    ..
                },
            ) => *owner != thread,
            _ => false,
        },
        _ => false,
    }
}

// Adds an action, or what it waits for.
fn push_asking(
    out: &mut String,
    scene: &Scene,
    thread: usize,
    action: Action<Value>,
    waits: bool,
) -> Result<(), AllocError>
    ensures { OnOk result (string_bytes out.new
        ≡ string_bytes out.old ++ asking_text (names_in scene.now) (scene_seen scene.now) thread action waits) }
{
    if waits {
        return push_wait(out, scene.names, &scene.labels, &scene.run, action);
    }
    push_action(out, scene.names, &scene.labels, thread, action)
}

// Adds what a thread of this name asks for.
fn push_asks(
    out: &mut String,
    scene: &Scene,
    thread: usize,
    name: &str,
    action: Action<Value>,
) -> Result<(), AllocError>
    requires { IsOwn scene.now }
    ensures { OnOk result (string_bytes out.new
        ≡ string_bytes out.old ++ asks_text (names_in scene.now) (scene_seen scene.now) thread name.now action) }
{
    let call = call_of(scene.run.history(), thread, action);
    write!(out, "{name}.{call} ")?;
    let waits = has_to_wait(&scene.run, thread, action);
    push_asking(out, scene, thread, action, waits)
}

fn push_asked(
    out: &mut String,
    scene: &Scene,
    thread: usize,
    name: &str,
    asked: Asked,
) -> Result<(), AllocError>
    requires { IsOwn scene.now }
    ensures { OnOk result (string_bytes out.new
        ≡ string_bytes out.old ++ asked_text (names_in scene.now) (scene_seen scene.now) thread name.now asked) }
{
    match asked {
        Asked::Asks(action) => push_asks(out, scene, thread, name, action),
        Asked::Ended => {
            let end = end_words(scene.run.has_trapped(thread)?);
            write!(out, "{name}{end}")
        }
        Asked::NotStarted => {
            let start = start_words(scene.run.has_trapped(0)?);
            write!(out, "{name}{start}")
        }
    }
}

fn push_thread_line(
    alloc: Global,
    out: &mut String,
    scene: &Scene,
    thread: usize,
    program: &ThreadProgram,
) -> Result<(), AllocError>
    requires { IsOwn scene.now }
    ensures { OnOk result (string_bytes out.new
        ≡ string_bytes out.old ++ thread_line (names_in scene.now) (scene_seen scene.now) thread
        (plain_thread program.now)) }
{
    let asked = scene.run.next(alloc, thread)?;
    push_asked(out, scene, thread, program.name.as_str(), asked)?;
    out.push_str("\n")
}

/// Adds a line for each thread, the setup first.
pub(crate) fn push_threads(alloc: Global, out: &mut String, scene: &Scene) -> Result<(), AllocError>
    requires { IsOwn scene.now }
    ensures { OnOk result (string_bytes out.new ≡ string_bytes out.old ++
        threads_text (names_in scene.now) (scene_seen scene.now)) }
{
    let threads = scene.names.program.threads.as_slice();
    for (thread, program) in threads.iter().enumerate() {
        push_thread_line(alloc, out, scene, thread, program)?;
    }
    Ok(())
}
