// Calls and their faults, in words.

ghost use Rattle.std.specs.Prelude.{◌≡◌, ◌++◌, IfOk, OnOk, string_bytes};
ghost use Rattle.ls_alone.specs.Words.{behind, ended_text, owner_text, pending_text, thrown_text, waits_text};
ghost use Rattle.ls_checked.specs.PlainProgram.{plain_program};
ghost use Rattle.ls_labels.specs.Names.{names_of};
ghost use Rattle.ls_report.specs.Cut.{cut};
ghost use Rattle.ls_state.specs.Seen.{IsOwn, names_in, scene_seen};

use ls_checked::program::Program;
use ls_events::event::{Event, Happening};
use ls_events::kind::Kind;
use ls_events::schedule::Schedule;
use ls_explore_reports::{awaited_owner, waits_for};
use ls_labels::names::Names;
use ls_labels::threads::{end_words, thread_name};
use ls_meaning::step::Asked;
use ls_report::cuts::cut;
use ls_report::{kind_name, push_words};
use ls_state::scene::Scene;
use std::alloc::{AllocError, Global};
use std::fmt::Write;

/// What stands behind the first space of a text.
fn behind_space(text: &str) -> &str
    ensures { result.now ≡ behind (cut 32 text.now) }
{
    match cut(text, ' ') {
        Some((_, behind)) => behind,
        None => "",
    }
}

/// A call that has begun, as the program's text has it. The only refusal is that memory ran out.
pub(crate) fn pending_words(
    alloc: Global,
    program: &Program,
    thread: usize,
    call: usize,
) -> Result<String, AllocError>
    ensures { IfOk result (λ text. string_bytes text ≡ pending_text (plain_program program.now) thread call) }
{
    let begun = Event {
        thread,
        call,
        happening: Happening::Called,
    };
    let mut words = String::new(alloc);
    push_words(&mut words, program, begun)?;
    String::from_str(alloc, behind_space(words.as_str()))
}

/// A call that ended by an exception. The only refusal is that memory ran out.
pub(crate) fn thrown_words(
    alloc: Global,
    program: &Program,
    thread: usize,
    call: usize,
    kind: Kind,
) -> Result<String, AllocError>
    ensures { IfOk result (λ text. string_bytes text ≡ thrown_text (plain_program program.now) thread call kind) }
{
    let mut text = pending_words(alloc, program, thread, call)?;
    text.push_str(", ")?;
    text.push_str(kind_name(kind))?;
    Ok(text)
}

/// Adds how a thread has ended, if it has.
fn push_ended(
    out: &mut String,
    scene: &Scene<'_>,
    thread: usize,
    asked: Asked,
) -> Result<(), AllocError>
    requires { IsOwn scene.now }
    ensures { OnOk result (string_bytes out.new ≡ string_bytes out.old ++
        ended_text (names_in scene.now) (scene_seen scene.now) thread asked) }
{
    match asked {
        Asked::Ended => {
            let name = thread_name(scene.names.program, thread);
            let end = end_words(scene.run.has_trapped(thread)?);
            write!(out, "; {name}{end}")
        }
        Asked::Asks(_) | Asked::NotStarted => Ok(()),
    }
}

/// Adds how the owner of what is waited for has ended, if it has.
fn push_owner(
    alloc: Global,
    out: &mut String,
    scene: &Scene<'_>,
    owner: Option<usize>,
) -> Result<(), AllocError>
    requires { IsOwn scene.now }
    ensures { OnOk result (string_bytes out.new ≡ string_bytes out.old ++
        owner_text (names_in scene.now) (scene_seen scene.now) owner) }
{
    match owner {
        Some(owner) => {
            let asked = scene.run.next(alloc, owner)?;
            push_ended(out, scene, owner, asked)
        }
        None => Ok(()),
    }
}

/// A call whose thread waits after a schedule: what for, who owns that, and whether the owner has ended. The only
/// refusal is that memory ran out.
pub(crate) fn waits_words(
    alloc: Global,
    names: Names<'_>,
    schedule: &Schedule,
    thread: usize,
    call: usize,
) -> Result<String, AllocError>
    ensures { IfOk result (λ text. string_bytes text ≡ waits_text (names_of names.entry) schedule.now thread call) }
{
    let scene = Scene::after(alloc, names, schedule.steps())?;
    let name = thread_name(names.program, thread);
    let waits = waits_for(alloc, &scene, thread, name)?;
    let asked = scene.run.next(alloc, thread)?;
    let mut text = pending_words(alloc, names.program, thread, call)?;
    text.push_str(", ")?;
    text.push_str(waits.as_str())?;
    push_owner(alloc, &mut text, &scene, awaited_owner(&scene, asked))?;
    Ok(text)
}
