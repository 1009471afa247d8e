// What the objects and the setup names hold.

ghost use Rattle.std.specs.Prelude.{◌≡◌, ◌++◌, OnOk, string_bytes};
ghost use Rattle.ls_checked.specs.PlainProgram.{plain_name, plain_program};
ghost use Rattle.ls_source_store.specs.SeenThing.{hold_of, thing_of};
ghost use Rattle.ls_state.specs.Objects.{field_name_of, field_part, held_text, monitor_part, name_line, thing_line};
ghost use Rattle.ls_state.specs.Objects.{thing_text};
ghost use Rattle.ls_state.specs.Parts.{numbered};
ghost use Rattle.ls_state.specs.Seen.{names_in, scene_seen};
ghost use Rattle.ls_state.specs.State.{names_text, things_text};

use crate::array::{push_array, push_count};
use crate::scene::Scene;
use ls_checked::program::{Program, SetupName};
use ls_events::value::Value;
use ls_labels::label::Label;
use ls_labels::names::field_name;
use ls_labels::objects::{label_at, push_object, push_value};
use ls_labels::threads::thread_name;
use ls_source_store::thing::{Hold, Thing};
use std::alloc::AllocError;
use std::fmt::Write;

/// Adds who owns a lock, as `held by A, 2 holds`.
pub fn push_held(
    out: &mut String,
    program: &Program,
    owner: usize,
    holds: u32,
) -> Result<(), AllocError>
    ensures { OnOk result (string_bytes out.new ≡ string_bytes out.old ++
        held_text (plain_program program.now) owner holds) }
{
    let name = thread_name(program, owner);
    write!(out, "held by {name}, ")?;
    push_count(out, holds, "hold")
}

/// The name of an object's field.
pub fn field_name_of<'s>(scene: &'s Scene, object: u64, field: usize) -> &'s str
    ensures { result.now ≡ field_name_of (names_in scene.now) (scene_seen scene.now).labels object field }
{
    match label_at(&scene.labels, object) {
        Some(Label::Class(class)) => field_name(scene.names, class, field),
        _ => "",
    }
}

// Adds a field with its value.
fn push_field(
    out: &mut String,
    scene: &Scene,
    object: u64,
    field: usize,
    value: Value,
) -> Result<(), AllocError>
    ensures { OnOk result (string_bytes out.new
        ≡ string_bytes out.old ++ field_part (names_in scene.now) (scene_seen scene.now).labels object field value) }
{
    out.push_str(if field == 0 { ": " } else { ", " })?;
    let name = field_name_of(scene, object, field);
    write!(out, "{name} = ")?;
    push_value(out, scene.names, &scene.labels, value)
}

fn push_fields(
    out: &mut String,
    scene: &Scene,
    object: u64,
    fields: &[Value],
) -> Result<(), AllocError>
    ensures { OnOk result (string_bytes out.new
        ≡ string_bytes out.old ++ numbered (field_part (names_in scene.now) (scene_seen scene.now).labels object) 0
        fields.now) }
{
    for (field, value) in fields.iter().enumerate() {
        push_field(out, scene, object, field, *value)?;
    }
    Ok(())
}

// Adds the monitor that a thread owns, after so many fields.
fn push_monitor(
    out: &mut String,
    scene: &Scene,
    count: usize,
    monitor: Hold,
) -> Result<(), AllocError>
    ensures { OnOk result (string_bytes out.new
        ≡ string_bytes out.old ++ monitor_part (names_in scene.now) count (hold_of monitor)) }
{
    match monitor {
        Hold::Free => Ok(()),
        Hold::HeldBy { owner, holds } => {
            let start = if count == 0 {
                ": monitor "
            } else {
                ", monitor "
            };
            out.push_str(start)?;
            push_held(out, scene.names.program, owner, holds)
        }
    }
}

// Adds what stands after an object's name.
fn push_thing(out: &mut String, scene: &Scene, object: u64, thing: &Thing) -> Result<(), AllocError>
    ensures { OnOk result (string_bytes out.new
        ≡ string_bytes out.old ++ thing_text (names_in scene.now) (scene_seen scene.now).labels object
        (thing_of thing.now)) }
{
    match thing {
        Thing::Object { monitor, fields } => {
            push_fields(out, scene, object, fields)?;
            push_monitor(out, scene, fields.len(), *monitor)
        }
        Thing::Lock(Hold::Free) => out.push_str(": free"),
        Thing::Lock(Hold::HeldBy { owner, holds }) => {
            out.push_str(": ")?;
            push_held(out, scene.names.program, *owner, *holds)
        }
        Thing::Markable(pair) => {
            out.push_str(": ")?;
            push_value(out, scene.names, &scene.labels, *pair)
        }
        Thing::Array { size, items } => {
            out.push_str(": ")?;
            push_array(out, *size, items)
        }
    }
}

fn push_thing_line(
    out: &mut String,
    scene: &Scene,
    object: u64,
    thing: &Thing,
) -> Result<(), AllocError>
    ensures { OnOk result (string_bytes out.new
        ≡ string_bytes out.old ++ thing_line (names_in scene.now) (scene_seen scene.now).labels object
        (thing_of thing.now)) }
{
    push_object(out, scene.names, &scene.labels, object)?;
    push_thing(out, scene, object, thing)?;
    out.push_str("\n")
}

/// Adds a line for each object.
pub(crate) fn push_things(out: &mut String, scene: &Scene) -> Result<(), AllocError>
    ensures { OnOk result (string_bytes out.new ≡ string_bytes out.old ++
        things_text (names_in scene.now) (scene_seen scene.now)) }
{
    let things = scene.run.things();
    for (place, thing) in things.iter().enumerate() {
        push_thing_line(out, scene, place as u64 + 1, thing)?;
    }
    Ok(())
}

fn push_name_line(
    out: &mut String,
    scene: &Scene,
    number: usize,
    name: &SetupName,
) -> Result<(), AllocError>
    ensures { OnOk result (string_bytes out.new
        ≡ string_bytes out.old ++ name_line (names_in scene.now) (scene_seen scene.now).labels
        (scene_seen scene.now).state.store number (plain_name name.now)) }
{
    let text = name.name.as_str();
    write!(out, "{text} = ")?;
    let value = scene.run.name_value(number);
    push_value(out, scene.names, &scene.labels, value)?;
    out.push_str("\n")
}

/// Adds a line for each setup name.
pub(crate) fn push_names(out: &mut String, scene: &Scene) -> Result<(), AllocError>
    ensures { OnOk result (string_bytes out.new ≡ string_bytes out.old ++
        names_text (names_in scene.now) (scene_seen scene.now)) }
{
    let names = scene.names.program.names.as_slice();
    for (number, name) in names.iter().enumerate() {
        push_name_line(out, scene, number, name)?;
    }
    Ok(())
}
