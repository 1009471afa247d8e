// A text with what is told beside it.

ghost use Rattle.std.specs.Prelude.{◌≡◌, List, Ok, Some, map, string_bytes};
ghost use Rattle.ls_faults.specs.Given.{GivesText};
ghost use Rattle.ls_files.specs.Names.{file_names_in};
ghost use Rattle.ls_items.specs.Cutting.{plain_text};
ghost use Rattle.ls_items.specs.Parts.{parts_of};
ghost use Rattle.ls_report.specs.Events.{Text};
ghost use Rattle.ls_tool.specs.Notes.{NotesCheck, NotesOn, is_noted};
ghost use Rattle.ls_tool.specs.Output.{AnswersText, Asks, Decides, IsTaken, NotesAs, NotesText, names_of, read_as};

use crate::explained::refusal_of;
use crate::refusal::Refusal;
use crate::said::{Said, status_for};
use ls_command_line::{CommandLine, Request};
use ls_commands::with_feed;
use ls_explanations::order_note;
use ls_faults::fault::ToolFault;
use ls_files::unmarked;
use ls_items::{parts_of, text_of};
use ls_orders::{check_order, read_order};
use ls_report::read_history;
use std::alloc::Global;

/// What `check` tells beside its verdict: why the order isn't legal.
fn note_check(alloc: Global, history: &str, order: &str) -> Result<String, ToolFault>
    ensures { GivesText (NotesCheck history.now order.now) result }
{
    let history = with_feed(alloc, history)?;
    let history = read_history(alloc, history.as_str())?;
    let order = read_order(alloc, order)?;
    let verdict = check_order(alloc, &history, &order)?;
    Ok(order_note(alloc, &history, &order, &verdict)?)
}

/// Whether the command tells something beside its text.
fn is_noted(request: Request) -> bool
    ensures { result ≡ is_noted request }
{
    matches!(request, Request::Check)
}

/// What the command tells beside the text that it prints of its parts.
fn note_parts(alloc: Global, request: Request, parts: &[&str]) -> Result<String, ToolFault>
    ensures { GivesText (NotesOn request (map plain_text parts.now)) result }
{
    match request {
        Request::Check => match parts {
            [history, order] => note_check(alloc, history, order),
            _ => Ok(String::new(alloc)),
        },
        _ => Ok(String::new(alloc)),
    }
}

/// What the command tells beside what it prints of a text.
fn note_text(alloc: Global, request: Request, text: &str) -> Result<String, ToolFault>
    ensures { GivesText (NotesOn request (parts_of text.now)) result }
{
    let parts = parts_of(alloc, text)?;
    note_parts(alloc, request, parts.as_slice())
}

/// The same of a text whose files are named or not.
fn note_files(
    alloc: Global,
    request: Request,
    names: Option<&[String]>,
    text: &str,
) -> Result<String, ToolFault>
    ensures { GivesText (NotesOn request (parts_of (read_as (names_of names.entry) text.now))) result }
{
    match names {
        Some(_) => {
            let joined = unmarked(alloc, text)?;
            note_text(alloc, request, joined.as_str())
        }
        None => note_text(alloc, request, text),
    }
}

fn note_input(
    alloc: Global,
    request: Request,
    names: Option<&[String]>,
    input: &[u8],
) -> Result<String, ToolFault>
    ensures { GivesText (NotesText (names_of names.entry) request input.now) result }
{
    let Some(text) = text_of(input) else {
        return Err(ToolFault::NotText);
    };
    note_files(alloc, request, names, text)
}

/// What is told beside the text of a command line: with `--explain` what the command says of its parts.
fn note_of(
    alloc: Global,
    line: CommandLine,
    names: Option<&[String]>,
    input: &[u8],
) -> Result<String, ToolFault>
    ensures { GivesText (NotesAs (names_of names.entry) line input.now) result }
{
    if line.explain && is_noted(line.request) {
        return note_input(alloc, line.request, names, input);
    }
    Ok(String::new(alloc))
}

/// A text that a command line asks for, with its status and with what is told beside the text.
pub(crate) fn said_of(
    alloc: Global,
    line: CommandLine,
    names: Option<&[String]>,
    text: String,
    input: &[u8],
) -> Result<Said, Refusal>
    ensures decides { (words : List Text) → Asks words (Some line) → file_names_in words ≡ names_of names.entry →
        AnswersText (names_of names.entry) line input.now (Ok (string_bytes text)) →
        Decides words input.now result }
    ensures taken { IsTaken result }
{
    match note_of(alloc, line, names, input) {
        Ok(beside) => {
            let status = status_for(line.request, text.as_str());
            Ok(Said {
                text,
                beside,
                status,
            })
        }
        Err(fault) => Err(refusal_of(alloc, line, names, fault, input)),
    }
}
