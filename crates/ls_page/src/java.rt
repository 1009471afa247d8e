// A Java file, and where the words of its class text come from.

ghost use Rattle.std.specs.Prelude.{◌≡◌, ◌++◌, IfOk, OnOk, string_bytes};
ghost use Rattle.ls_state.specs.Parts.{numbered};
ghost use Rattle.ls_page.specs.Java.{java_text, place_text};
ghost use Rattle.ls_page.specs.Lists.{element, listed};

use crate::choices_parts::push_comma;
use crate::quoted::push_quoted;
use ls_java_output::place::Place;
use std::alloc::{AllocError, Global};
use std::fmt::Write;

// Adds a place.
fn push_place(out: &mut String, place: &Place) -> Result<(), AllocError>
    ensures { OnOk result (string_bytes out.new ≡ string_bytes out.old ++ place_text place.now) }
{
    let Place {
        start,
        end,
        at,
        until,
        ..
    } = *place;
    write!(out, "[{start},{end},{at},{until}]")
}

// Adds the place of this number.
fn push_numbered(out: &mut String, number: usize, place: &Place) -> Result<(), AllocError>
    ensures { OnOk result (string_bytes out.new ≡ string_bytes out.old ++ element place_text number place.now) }
{
    push_comma(out, number)?;
    push_place(out, place)
}

// Adds places, one after another.
fn push_each(out: &mut String, places: &[Place]) -> Result<(), AllocError>
    ensures { OnOk result (string_bytes out.new ≡
        string_bytes out.old ++ numbered (element place_text) 0 places.now) }
{
    for (number, place) in places.iter().enumerate() {
        push_numbered(out, number, place)?;
    }
    Ok(())
}

// Adds places as a list.
fn push_places(out: &mut String, places: &[Place]) -> Result<(), AllocError>
    ensures { OnOk result (string_bytes out.new ≡ string_bytes out.old ++ listed place_text places.now) }
{
    out.push_str("[")?;
    push_each(out, places)?;
    out.push_str("]")
}

/// A Java file, and where the words of its class text come from: one JSON object in one line. The only refusal is that
/// memory ran out.
pub fn java_data(alloc: Global, file: &str, places: &[Place]) -> Result<String, AllocError>
    ensures { IfOk result (λ text. string_bytes text ≡ java_text file.now places.now) }
{
    let mut out = String::new(alloc);
    out.push_str("{\"java\":")?;
    push_quoted(&mut out, file)?;
    out.push_str(",\"places\":")?;
    push_places(&mut out, places)?;
    out.push_str("}\n")?;
    Ok(out)
}
