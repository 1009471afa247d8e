// A fault with what is said of it.

ghost use Rattle.std.specs.Prelude.{◌≡◌, ◌++◌, IfOk, map, string_bytes};
ghost use Rattle.ls_explanations.specs.Explanations.{note};
ghost use Rattle.ls_faults.specs.Faults.{fault_line};
ghost use Rattle.ls_items.specs.Cutting.{plain_text};
ghost use Rattle.ls_tool.specs.Output.{RefusesAs, cut_for, is_bare, names_of, noted, read_as, texts_of};

use crate::refusal::Refusal;
use crate::wanted::wanted_of;
use ls_command_line::CommandLine;
use ls_explanations::{explain, explain_named};
use ls_faults::fault::ToolFault;
use ls_faults::line::fault_line;
use ls_files::unmarked;
use ls_items::{parts_of, text_of};
use std::alloc::{AllocError, Global};

/// The same texts.
fn copied(alloc: Global, parts: &[&str]) -> Result<Vec<String>, AllocError>
    ensures { IfOk result (λ texts. map string_bytes texts.items ≡ map plain_text parts.now) }
{
    let mut texts = Vec::with_capacity(alloc, parts.len())?;
    for part in parts {
        texts.push(String::from_str(alloc, part)?)?;
    }
    Ok(texts)
}

/// The texts in which the fault can stand: the parts of the input, or all of it if it is one of tallies.
fn cut_for(alloc: Global, fault: ToolFault, text: &str) -> Result<Vec<String>, AllocError>
    ensures { IfOk result (λ texts. map string_bytes texts.items ≡ cut_for fault text.now) }
{
    match fault {
        ToolFault::Tally(_) => {
            let mut texts = Vec::new(alloc);
            texts.push(String::from_str(alloc, text)?)?;
            Ok(texts)
        }
        _ => {
            let parts = parts_of(alloc, text)?;
            copied(alloc, parts.as_slice())
        }
    }
}

/// The same of a text whose files are named or not.
fn cut_as(
    alloc: Global,
    names: Option<&[String]>,
    fault: ToolFault,
    text: &str,
) -> Result<Vec<String>, AllocError>
    ensures { IfOk result (λ texts. map string_bytes texts.items ≡
        cut_for fault (read_as (names_of names.entry) text.now)) }
{
    match names {
        Some(_) => {
            let joined = unmarked(alloc, text)?;
            cut_for(alloc, fault, joined.as_str())
        }
        None => cut_for(alloc, fault, text),
    }
}

fn texts_of(
    alloc: Global,
    names: Option<&[String]>,
    fault: ToolFault,
    input: &[u8],
) -> Result<Vec<String>, AllocError>
    ensures { IfOk result (λ texts. map string_bytes texts.items ≡ texts_of (names_of names.entry) fault input.now) }
{
    match text_of(input) {
        Some(text) => cut_as(alloc, names, fault, text),
        None => Ok(Vec::new(alloc)),
    }
}

/// The fault's line, and after it the line of the input in which it stands.
fn with_note(alloc: Global, fault: ToolFault, texts: &[String]) -> Result<Vec<u8>, AllocError>
    ensures { IfOk result (λ bytes. bytes.items ≡ fault_line fault ++ note fault (map string_bytes texts.now)) }
{
    let note = explain(alloc, fault, texts)?;
    let mut told = Vec::new(alloc);
    told.extend_from_slice(fault_line(fault).as_bytes())?;
    told.extend_from_slice(note.as_slice())?;
    Ok(told)
}

/// What is told of a fault, with its place in a named file or in a part.
fn noted(
    alloc: Global,
    line: CommandLine,
    names: Option<&[String]>,
    fault: ToolFault,
    input: &[u8],
) -> Result<Vec<u8>, AllocError>
    ensures { IfOk result (λ bytes. bytes.items ≡ noted (names_of names.entry) line fault input.now) }
{
    let texts = texts_of(alloc, names, fault, input)?;
    match names {
        Some(names) => explain_named(
            alloc,
            fault,
            names,
            input,
            wanted_of(line),
            texts.as_slice(),
        ),
        None => with_note(alloc, fault, texts.as_slice()),
    }
}

/// Whether a fault's line is all that is told of the fault.
fn is_bare(line: CommandLine, names: Option<&[String]>) -> bool
    ensures { result ≡ is_bare (names_of names.entry) line }
{
    match names {
        Some(_) => false,
        None => !line.explain,
    }
}

/// How a fault is refused: alone, or with what is said of it.
pub(crate) fn refusal_of(
    alloc: Global,
    line: CommandLine,
    names: Option<&[String]>,
    fault: ToolFault,
    input: &[u8],
) -> Refusal
    ensures { RefusesAs (names_of names.entry) line fault input.now result }
{
    if is_bare(line, names) {
        return Refusal::Fault(fault);
    }
    match fault {
        ToolFault::Memory => Refusal::Fault(ToolFault::Memory),
        other => match noted(alloc, line, names, other, input) {
            Ok(told) => Refusal::Explained(told),
            Err(_) => Refusal::Fault(ToolFault::Memory),
        },
    }
}
