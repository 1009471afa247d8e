// The store as a graph in the language of Graphviz.

ghost use Rattle.std.specs.Prelude.{◌≡◌, ◌++◌, IfOk, OnOk, [], string_bytes};
ghost use Rattle.ls_checked.specs.PlainProgram.{plain_name};
ghost use Rattle.ls_labels.specs.Names.{names_of};
ghost use Rattle.ls_labels.specs.Objects.{object_text};
ghost use Rattle.ls_source_store.specs.SeenThing.{hold_of, thing_of};
ghost use Rattle.ls_state.specs.Drawing.{arrow_text, arrows_text, drawing_text, drawn_name, drawn_name_of};
ghost use Rattle.ls_state.specs.Drawing.{drawn_thing, field_arrow, field_row, fill_text, graph_of, head_text};
ghost use Rattle.ls_state.specs.Drawing.{label_text, mark_style, monitor_row, name_node, node_text, null_text};
ghost use Rattle.ls_state.specs.Drawing.{port_arrow, reference_row, row_text, rows_text};
ghost use Rattle.ls_state.specs.Parts.{numbered};
ghost use Rattle.ls_state.specs.Seen.{names_in, scene_seen};

use crate::array::push_array;
use crate::objects::{field_name_of, push_held};
use crate::scene::Scene;
use ls_checked::program::SetupName;
use ls_events::value::Value;
use ls_labels::names::Names;
use ls_labels::objects::{push_object, push_value};
use ls_source_store::thing::{Hold, Thing};
use ls_source_store::value::{mark_of, reference_of};
use std::alloc::{AllocError, Global};
use std::fmt::Write;

// Adds a row of a record: a port for a reference, a text for all else.
fn push_row(
    out: &mut String,
    scene: &Scene,
    name: &str,
    port: usize,
    value: Value,
) -> Result<(), AllocError>
    ensures { OnOk result (string_bytes out.new
        ≡ string_bytes out.old ++ row_text (names_in scene.now) (scene_seen scene.now).labels name.now port value) }
{
    if reference_of(value) == 0 {
        write!(out, "|{name} = ")?;
        return push_value(out, scene.names, &scene.labels, value);
    }
    write!(out, "|<f{port}> {name}")
}

fn push_field_rows(
    out: &mut String,
    scene: &Scene,
    object: u64,
    fields: &[Value],
) -> Result<(), AllocError>
    ensures { OnOk result (string_bytes out.new
        ≡ string_bytes out.old ++ numbered (field_row (names_in scene.now) (scene_seen scene.now).labels object) 0
        fields.now) }
{
    for (field, value) in fields.iter().enumerate() {
        let name = field_name_of(scene, object, field);
        push_row(out, scene, name, field, *value)?;
    }
    Ok(())
}

// What a markable refers to.
fn reference_row(target: u64) -> &'static str
    ensures { result.now ≡ reference_row target }
{
    if target == 0 {
        "|reference = null"
    } else {
        "|<f0> reference"
    }
}

// Adds the monitor that a thread owns.
fn push_monitor(out: &mut String, scene: &Scene, monitor: Hold) -> Result<(), AllocError>
    ensures { OnOk result (string_bytes out.new
        ≡ string_bytes out.old ++ monitor_row (names_in scene.now) (hold_of monitor)) }
{
    match monitor {
        Hold::Free => Ok(()),
        Hold::HeldBy { owner, holds } => {
            out.push_str("|monitor ")?;
            push_held(out, scene.names.program, owner, holds)
        }
    }
}

// Adds the rows under an object's name.
fn push_rows(out: &mut String, scene: &Scene, object: u64, thing: &Thing) -> Result<(), AllocError>
    ensures { OnOk result (string_bytes out.new
        ≡ string_bytes out.old ++ rows_text (names_in scene.now) (scene_seen scene.now).labels object
        (thing_of thing.now)) }
{
    match thing {
        Thing::Object { monitor, fields } => {
            push_field_rows(out, scene, object, fields)?;
            push_monitor(out, scene, *monitor)
        }
        Thing::Lock(Hold::Free) => out.push_str("|free"),
        Thing::Lock(Hold::HeldBy { owner, holds }) => {
            out.push_str("|")?;
            push_held(out, scene.names.program, *owner, *holds)
        }
        Thing::Markable(pair) => {
            let mark = mark_of(*pair);
            let row = reference_row(reference_of(*pair));
            write!(out, "|mark = {mark}{row}")
        }
        Thing::Array { size, items } => {
            out.push_str("|")?;
            push_array(out, *size, items)
        }
    }
}

// A lock that a thread owns is filled. So is an object whose monitor a thread owns.
fn fill_of(thing: &Thing) -> &'static str
    ensures { result.now ≡ fill_text (thing_of thing.now) }
{
    match thing {
        Thing::Lock(Hold::HeldBy { .. })
        | Thing::Object {
            monitor: Hold::HeldBy { .. },
            ..
        } => ", style=filled, fillcolor=lightgray",
        _ => "",
    }
}

// Adds an object's name and rows as the label that ends its node.
fn push_label(out: &mut String, scene: &Scene, object: u64, thing: &Thing) -> Result<(), AllocError>
    ensures { OnOk result (string_bytes out.new
        ≡ string_bytes out.old ++ label_text (object_text (names_in scene.now) (scene_seen scene.now).labels object
        ++ rows_text (names_in scene.now) (scene_seen scene.now).labels object (thing_of thing.now))) }
{
    out.push_str(", label=\"")?;
    push_object(out, scene.names, &scene.labels, object)?;
    push_rows(out, scene, object, thing)?;
    out.push_str("\"];\n")
}

// Adds what comes before the label of an object's node.
fn push_head(out: &mut String, object: u64, fill: &str) -> Result<(), AllocError>
    ensures { OnOk result (string_bytes out.new ≡ string_bytes out.old ++ head_text object fill.now) }
{
    write!(out, "o{object} [shape=record{fill}")
}

fn push_node(out: &mut String, scene: &Scene, object: u64, thing: &Thing) -> Result<(), AllocError>
    ensures { OnOk result (string_bytes out.new
        ≡ string_bytes out.old ++ node_text (names_in scene.now) (scene_seen scene.now).labels object
        (thing_of thing.now)) }
{
    let fill = fill_of(thing);
    push_head(out, object, fill)?;
    push_label(out, scene, object, thing)?;
    Ok(())
}

// Adds an arrow from a port of an object to an object. Null has none.
fn push_arrow(
    out: &mut String,
    object: u64,
    port: usize,
    style: &str,
    target: u64,
) -> Result<(), AllocError>
    ensures { OnOk result (string_bytes out.new ≡ string_bytes out.old ++ port_arrow object port style.now target) }
{
    if target == 0 {
        return Ok(());
    }
    write!(out, "o{object}:f{port} -> o{target}{style};\n")
}

fn push_field_arrows(out: &mut String, object: u64, fields: &[Value]) -> Result<(), AllocError>
    ensures { OnOk result (string_bytes out.new ≡ string_bytes out.old ++ numbered (field_arrow object) 0 fields.now) }
{
    for (field, value) in fields.iter().enumerate() {
        push_arrow(out, object, field, "", reference_of(*value))?;
    }
    Ok(())
}

// The style of an arrow for a reference with a mark.
fn mark_style(mark: bool) -> &'static str
    ensures { result.now ≡ mark_style mark }
{
    if mark {
        " [style=dashed, color=red, label=marked]"
    } else {
        ""
    }
}

fn push_arrows(out: &mut String, object: u64, thing: &Thing) -> Result<(), AllocError>
    ensures { OnOk result (string_bytes out.new ≡ string_bytes out.old ++ arrows_text object (thing_of thing.now)) }
{
    match thing {
        Thing::Object { fields, .. } => push_field_arrows(out, object, fields),
        Thing::Markable(pair) => {
            push_arrow(
                out,
                object,
                0,
                mark_style(mark_of(*pair)),
                reference_of(*pair),
            )
        }
        _ => Ok(()),
    }
}

fn push_thing(out: &mut String, scene: &Scene, object: u64, thing: &Thing) -> Result<(), AllocError>
    ensures { OnOk result (string_bytes out.new
        ≡ string_bytes out.old ++ drawn_thing (names_in scene.now) (scene_seen scene.now).labels object
        (thing_of thing.now)) }
{
    push_node(out, scene, object, thing)?;
    push_arrows(out, object, thing)
}

fn push_things(out: &mut String, scene: &Scene) -> Result<(), AllocError>
    ensures { OnOk result (string_bytes out.new
        ≡ string_bytes out.old ++ numbered (drawn_thing (names_in scene.now) (scene_seen scene.now).labels) 1
        (scene_seen scene.now).state.store.things) }
{
    let things = scene.run.things();
    for (place, thing) in things.iter().enumerate() {
        push_thing(out, scene, place as u64 + 1, thing)?;
    }
    Ok(())
}

// What is added to a setup name that is null.
fn null_of(target: u64) -> &'static str
    ensures { result.now ≡ null_text target }
{
    if target == 0 { " = null" } else { "" }
}

// Adds a setup name, or that it is null, as the label that ends its node.
fn push_name_label(out: &mut String, name: &str, target: u64) -> Result<(), AllocError>
    ensures { OnOk result (string_bytes out.new ≡ string_bytes out.old ++ label_text (name.now ++ null_text target)) }
{
    let null = null_of(target);
    write!(out, ", label=\"{name}{null}\"];\n")
}

// Adds an arrow from a setup name to an object. Null has none.
fn push_name_arrow(out: &mut String, number: usize, target: u64) -> Result<(), AllocError>
    ensures { OnOk result (string_bytes out.new ≡ string_bytes out.old ++ arrow_text (name_node number) [] target) }
{
    if target == 0 {
        return Ok(());
    }
    write!(out, "n{number} -> o{target};\n")
}

fn push_name(out: &mut String, number: usize, name: &str, target: u64) -> Result<(), AllocError>
    ensures { OnOk result (string_bytes out.new ≡ string_bytes out.old ++ drawn_name_of number name.now target) }
{
    write!(out, "n{number} [shape=plaintext")?;
    push_name_label(out, name, target)?;
    push_name_arrow(out, number, target)
}

fn push_drawn_name(
    out: &mut String,
    scene: &Scene,
    number: usize,
    name: &SetupName,
) -> Result<(), AllocError>
    ensures { OnOk result (string_bytes out.new
        ≡ string_bytes out.old ++ drawn_name (scene_seen scene.now).state.store number (plain_name name.now)) }
{
    let target = reference_of(scene.run.name_value(number));
    push_name(out, number, name.name.as_str(), target)
}

fn push_names(out: &mut String, scene: &Scene) -> Result<(), AllocError>
    ensures { OnOk result (string_bytes out.new
        ≡ string_bytes out.old ++ numbered (drawn_name (scene_seen scene.now).state.store) 0
        (names_in scene.now).program.names) }
{
    let names = scene.names.program.names.as_slice();
    for (number, name) in names.iter().enumerate() {
        push_drawn_name(out, scene, number, name)?;
    }
    Ok(())
}

/// Adds the graph of a run.
pub(crate) fn push_graph(out: &mut String, scene: &Scene) -> Result<(), AllocError>
    ensures { OnOk result (string_bytes out.new ≡ string_bytes out.old ++
        graph_of (names_in scene.now) (scene_seen scene.now)) }
{
    out.push_str("digraph state {\nrankdir=LR;\n")?;
    push_things(out, scene)?;
    push_names(out, scene)?;
    out.push_str("}\n")
}

/// The objects and the setup names after a schedule, as a graph in the language of Graphviz. The steps of the schedule
/// are numbers of threads. There is a record for each object with its fields, and an arrow for each reference that
/// isn't null. The only refusal is that memory ran out.
pub fn drawing<'n>(alloc: Global, names: Names<'n>, steps: &[u8]) -> Result<String, AllocError>
    ensures { IfOk result (λ text. string_bytes text ≡ drawing_text (names_of names.entry) steps.now) }
{
    let scene = Scene::after(alloc, names, steps)?;
    let mut out = String::new(alloc);
    push_graph(&mut out, &scene)?;
    Ok(out)
}
