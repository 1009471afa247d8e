// A Java file, restated as a class text.

ghost use Rattle.std.specs.Prelude.{◌≡◌, Err, IfOk, List, Some, map, string_bytes};
ghost use Rattle.ls_command_line.specs.declared.words.Request.TheVariants as requests;
ghost use Rattle.ls_files.specs.Names.{file_names_in};
ghost use Rattle.ls_items.specs.Cutting.{plain_text};
ghost use Rattle.ls_items.specs.Parts.{parts_of};
ghost use Rattle.ls_report.specs.Events.{Text};
ghost use Rattle.ls_tool.specs.Output.{Asks, Decides, IsTaken, names_of, read_as};
ghost use Rattle.ls_tool.specs.Restated.{Replaces, Restates, RestatesParts, behind_of};
ghost use Rattle.ls_tool.specs.Running.{RestatesFirst};

use crate::explained::refusal_of;
use crate::refusal::Refusal;
use crate::said::Said;
use ls_command_line::{CommandLine, Request};
use ls_faults::fault::ToolFault;
use ls_files::{unmarked, with_first};
use ls_items::{parts_of, text_of};
use ls_java::fault::NotRestated;
use ls_java::restating::{Restated, restate, restate_on_lines};
use ls_java::told::{notes_told, refusal_told};
use ls_java_output::place::Place;
use ls_page::java_data;
use std::alloc::{AllocError, Global};

/// The name of the file, if it has one.
fn name_of(names: Option<&[String]>) -> Option<&str> {
    match names {
        Some([name, ..]) => Some(name.as_str()),
        _ => None,
    }
}

/// The class text, and what is told of how it was restated.
fn said_of_java(alloc: Global, name: Option<&str>, made: Restated) -> Result<Said, AllocError>
    ensures { IfOk result (λ s. (s.status ≡ 0) × (s.text ≡ made.text)) }
{
    let beside = notes_told(alloc, name, &made.notes)?;
    Ok(Said {
        text: made.text,
        beside,
        status: 0,
    })
}

/// What is told of a file that isn't restated.
fn refusal_of_java(alloc: Global, name: Option<&str>, file: &str, why: &NotRestated) -> Refusal
    ensures { Restates (Err result) }
{
    match why {
        NotRestated::Memory => Refusal::Fault(ToolFault::Memory),
        other => match refusal_told(alloc, name, file, other) {
            Ok(told) => Refusal::Explained(told.into_bytes()),
            Err(_) => Refusal::Fault(ToolFault::Memory),
        },
    }
}

/// One Java file.
fn on_file(alloc: Global, name: Option<&str>, file: &str) -> Result<Said, Refusal>
    ensures { Restates result }
{
    match restate(alloc, file) {
        Ok(made) => match said_of_java(alloc, name, made) {
            Ok(said) => Ok(said),
            Err(_) => Err(Refusal::Fault(ToolFault::Memory)),
        },
        Err(why) => Err(refusal_of_java(alloc, name, file, &why)),
    }
}

/// The text that is read: the input, or where files are named, these as one text.
fn read_as(alloc: Global, names: Option<&[String]>, text: &str) -> Result<String, AllocError>
    ensures { IfOk result (λ s. string_bytes s ≡ read_as (names_of names.entry) text.now) }
{
    match names {
        Some(_) => unmarked(alloc, text),
        None => String::from_str(alloc, text),
    }
}

/// What is answered of the parts of a text, if they are one Java file.
fn on_parts(alloc: Global, name: Option<&str>, parts: &[&str]) -> Option<Result<Said, Refusal>>
    ensures { RestatesParts (map plain_text parts.now) result }
{
    match parts {
        [file] => Some(on_file(alloc, name, file)),
        _ => None,
    }
}

/// The same of a text.
fn in_text(
    alloc: Global,
    name: Option<&str>,
    text: &str,
) -> Result<Option<Result<Said, Refusal>>, AllocError>
    ensures { IfOk result (λ answer. RestatesParts (parts_of text.now) answer) }
{
    let parts = parts_of(alloc, text)?;
    Ok(on_parts(alloc, name, parts.as_slice()))
}

/// The same of an input that is text.
fn in_input(
    alloc: Global,
    names: Option<&[String]>,
    text: &str,
) -> Result<Option<Result<Said, Refusal>>, AllocError>
    ensures { IfOk result (λ answer. RestatesParts (parts_of (read_as (names_of names.entry) text.now)) answer) }
{
    let read = read_as(alloc, names, text)?;
    in_text(alloc, name_of(names), read.as_str())
}

/// What is answered of an input that is a Java file.
pub(crate) fn on_java(
    alloc: Global,
    line: CommandLine,
    names: Option<&[String]>,
    input: &[u8],
) -> Result<Said, Refusal>
    requires { line.request ≡ requests.Java }
    ensures decides { (words : List Text) → Asks words (Some line) → file_names_in words ≡ names_of names.entry →
        Decides words input.now result }
    ensures taken { IsTaken result }
{
    let Some(text) = text_of(input) else {
        return Err(refusal_of(alloc, line, names, ToolFault::NotText, input));
    };
    match in_input(alloc, names, text) {
        Ok(Some(answer)) => answer,
        Ok(None) => Err(refusal_of(alloc, line, names, ToolFault::WrongParts, input)),
        Err(_) => Err(Refusal::Fault(ToolFault::Memory)),
    }
}

/// An input that has a class text in the place of a Java file, what is told of how that was restated, and what stands
/// behind the text that is printed.
#[derive(Drop)]
pub(crate) struct Instead {
    pub(crate) input: Vec<u8>,
    pub(crate) notes: String,
    pub(crate) behind: String,
}

/// Why there is no class text.
#[derive(Drop)]
pub(crate) enum NoClassText {
    Memory,
    /// What is told of what can't be restated.
    Told(Vec<u8>),
}

impl From<AllocError> for NoClassText {
    fn from(_: AllocError) -> NoClassText {
        NoClassText::Memory
    }
}

/// What is told of a Java file that isn't restated.
fn no_class_text(alloc: Global, name: Option<&str>, file: &str, why: &NotRestated) -> NoClassText {
    match why {
        NotRestated::Memory => NoClassText::Memory,
        other => match refusal_told(alloc, name, file, other) {
            Ok(told) => NoClassText::Told(told.into_bytes()),
            Err(_) => NoClassText::Memory,
        },
    }
}

/// What stands behind the text that is printed of a Java file.
fn behind_of(
    alloc: Global,
    request: Request,
    file: &str,
    places: &[Place],
) -> Result<String, AllocError>
    ensures { IfOk result (λ text. string_bytes text ≡ behind_of request file.now places.now) }
{
    match request {
        Request::Page(_) => java_data(alloc, file, places),
        _ => Ok(String::new(alloc)),
    }
}

/// An input with the class text of this Java file in the place of its first part.
fn instead_of(
    alloc: Global,
    name: Option<&str>,
    request: Request,
    file: &str,
    input: &str,
) -> Result<Instead, NoClassText>
    ensures { IfOk result (λ instead.
        Replaces request file.now input.now instead.input.items (string_bytes instead.behind)) }
{
    let made = match restate_on_lines(alloc, file) {
        Ok(made) => made,
        Err(why) => return Err(no_class_text(alloc, name, file, &why)),
    };
    let notes = notes_told(alloc, name, &made.notes)?;
    let behind = behind_of(alloc, request, file, made.places.as_slice())?;
    let input = with_first(alloc, made.text.as_bytes(), input.as_bytes())?;
    Ok(Instead {
        input,
        notes,
        behind,
    })
}

/// An input whose first part is a Java file, with its class text in that place.
pub(crate) fn with_class_text(
    alloc: Global,
    names: Option<&[String]>,
    request: Request,
    input: &str,
) -> Result<Instead, NoClassText>
    ensures { IfOk result (λ instead. RestatesFirst (names_of names.entry) request input.now
        instead.input.items (string_bytes instead.behind)) }
{
    let read = read_as(alloc, names, input)?;
    let parts = parts_of(alloc, read.as_str())?;
    match parts.as_slice() {
        [file, ..] => instead_of(alloc, name_of(names), request, file, input),
        [] => Err(NoClassText::Memory),
    }
}
