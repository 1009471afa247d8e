// What is said of a fault in files that are named.

ghost use Rattle.std.specs.Prelude.{◌≡◌, ◌++◌, ◌≤◌, IfOk, OnOk, codes, drop, length, map, string_bytes};
ghost use Rattle.std.specs.Str.Lossy.{utf8_valid_len};
ghost use Rattle.ls_explanations.specs.declared.place.Part.TheVariants as parts;
ghost use Rattle.ls_explanations.specs.Named.{file_name, in_input, input_span, named_note, named_sentence};
ghost use Rattle.ls_explanations.specs.Named.{part_of_fault, part_site, said, shown_in, site, site_of, span_in_input};
ghost use Rattle.ls_explanations.specs.Named.{start_of, title};
ghost use Rattle.ls_explanations.specs.Named.{word};

use crate::explaining::{count_of, push_hint, push_shown, whole_sentence};
use crate::place::{Part, PartSpan, place_of};
use crate::spot::{characters, spot_of};
use ls_faults::fault::ToolFault;
use ls_faults::line::fault_line;
use ls_files::{file_line, part_start};
use ls_lexer::token::Span;
use std::alloc::{AllocError, Global};
use std::fmt::Write;

/// The part in which a fault is, also where it has no place in that part.
fn part_of_fault(fault: ToolFault) -> Option<Part>
    ensures { result ≡ part_of_fault fault }
{
    match fault {
        ToolFault::Text(_) | ToolFault::Check(_) => Some(Part::Classes),
        ToolFault::Program(_) => Some(Part::Program),
        ToolFault::Schedule(_) | ToolFault::Aim(_) => Some(Part::Schedule),
        ToolFault::History(_) => Some(Part::History),
        ToolFault::Order(_) => Some(Part::Order),
        ToolFault::BadEntry { at: _ } => Some(Part::Menu),
        ToolFault::Specification(_) | ToolFault::LacksMethod(_) => Some(Part::Reference),
        ToolFault::UnlikeSpecification { at: _ } => Some(Part::Program),
        _ => None,
    }
}

/// The byte of an input of `count` parts with which a part begins.
fn start_of(input: &[u8], count: usize, part: Part) -> usize
    ensures { result ≡ start_of input.now count part }
{
    part_start(input, part.number(count))
}

/// A byte of a part, in the whole input.
fn in_input(input: &[u8], count: usize, part: Part, at: usize) -> usize
    ensures { result ≡ in_input input.now count part at }
{
    start_of(input, count, part)
        .saturating_add(at)
        .min(input.len())
}

fn span_in_input(input: &[u8], count: usize, place: PartSpan) -> Span
    ensures { result ≡ span_in_input input.now count place }
{
    Span {
        start: in_input(input, count, place.part, place.span.start),
        end: in_input(input, count, place.part, place.span.end),
    }
}

/// How many bytes at the front are UTF-8.
fn text_length(input: &[u8]) -> usize
    ensures { result ≡ utf8_valid_len input.now }
{
    match std::str::from_utf8(input) {
        Ok(text) => text.len(),
        Err(error) => error.valid_up_to(),
    }
}

/// The place of a fault in the whole input.
fn input_span(input: &[u8], count: usize, fault: ToolFault) -> Option<Span>
    ensures { result ≡ input_span input.now count fault }
{
    match fault {
        ToolFault::NotText => {
            let at = text_length(input);
            Some(Span { start: at, end: at })
        }
        other => match place_of(other) {
            Some(place) => Some(span_in_input(input, count, place)),
            None => None,
        },
    }
}

/// The name of a file, by its number from 0.
fn file_name(names: &[String], number: usize) -> &str
    ensures { result.now ≡ file_name (map string_bytes names.now) number }
{
    match names.get(number) {
        Some(name) => name.as_str(),
        None => "<stdin>",
    }
}

/// Adds the file, the line and the column of a byte.
fn push_site_of(
    alloc: Global,
    out: &mut Vec<u8>,
    names: &[String],
    input: &[u8],
    at: usize,
) -> Result<(), AllocError>
    ensures { OnOk result (out.new.items ≡ out.old.items ++ site_of (map string_bytes names.now) input.now at) }
{
    let here = file_line(input, at);
    let name = file_name(names, here.file);
    let line = here.line;
    let column = 1 + characters(spot_of(input, at).before);
    let mut site = String::new(alloc);
    write!(site, "{name}:{line}:{column}")?;
    out.extend_from_slice(site.as_bytes())
}

/// The file of a fault without a place, or the program.
fn part_site<'a>(names: &'a [String], input: &[u8], count: usize, fault: ToolFault) -> &'a str
    ensures { result.now ≡ part_site (map string_bytes names.entry.now) input.now count fault }
{
    match part_of_fault(fault) {
        Some(part) => {
            let start = start_of(input, count, part);
            file_name(names, file_line(input, start).file)
        }
        None => "listset",
    }
}

fn push_site(
    alloc: Global,
    out: &mut Vec<u8>,
    names: &[String],
    input: &[u8],
    count: usize,
    fault: ToolFault,
) -> Result<(), AllocError>
    ensures { OnOk result (out.new.items ≡ out.old.items ++ site (map string_bytes names.now) input.now count fault) }
{
    match input_span(input, count, fault) {
        Some(span) => push_site_of(alloc, out, names, input, span.start),
        None => out.extend_from_slice(part_site(names, input, count, fault).as_bytes()),
    }
}

/// The word at the front.
fn word(bytes: &[u8]) -> &[u8]
    ensures { result.now ≡ word bytes.now }
{
    let mut end = 0;
    while end < bytes.len() && bytes[end] != b' ' && bytes[end] != b'\n' {
        end += 1;
    }
    &bytes[..end]
}

/// The bytes from a place on. A place after the end counts as the end.
fn from(bytes: &[u8], at: usize) -> &[u8]
    ensures { result.now ≡ drop at bytes.now }
{
    bytes.split_at(at.min(bytes.len())).1
}

/// Adds the number and the name of a fault, by its line.
fn push_title(out: &mut Vec<u8>, line: &[u8]) -> Result<(), AllocError>
    ensures { OnOk result (out.new.items ≡ out.old.items ++ title line.now) }
{
    let number = word(from(line, 6));
    out.extend_from_slice(number)?;
    out.push(b' ')?;
    out.extend_from_slice(word(from(line, 7 + number.len())))
}

/// Adds a sentence, after a colon, or a line feed where there is none.
fn push_said(out: &mut Vec<u8>, sentence: &[u8]) -> Result<(), AllocError>
    ensures { OnOk result (out.new.items ≡ out.old.items ++ said sentence.now) }
{
    if sentence.is_empty() {
        return out.extend_from_slice(b"\n".as_slice());
    }
    out.extend_from_slice(b": ".as_slice())?;
    out.extend_from_slice(sentence)
}

/// Adds what is wrong.
fn push_sentence(
    alloc: Global,
    out: &mut Vec<u8>,
    wanted: &str,
    texts: &[String],
    fault: ToolFault,
) -> Result<(), AllocError>
    ensures { OnOk result (out.new.items ≡
        out.old.items ++ said (named_sentence wanted.now (map string_bytes texts.now) fault)) }
{
    match fault {
        ToolFault::WrongParts => {
            let count = count_of(texts);
            let mut text = String::new(alloc);
            write!(text, "expected {wanted}, found {count}\n")?;
            push_said(out, text.as_bytes())
        }
        ToolFault::NotText => push_said(out, b"this byte isn't UTF-8\n".as_slice()),
        other => {
            let text = whole_sentence(alloc, other, texts)?;
            push_said(out, text.as_slice())
        }
    }
}

/// Adds the line of a fault's place, and a mark under the place.
fn push_shown_in(
    out: &mut Vec<u8>,
    input: &[u8],
    count: usize,
    fault: ToolFault,
) -> Result<(), AllocError>
    ensures { OnOk result (out.new.items ≡ out.old.items ++ shown_in input.now count fault) }
{
    match fault {
        ToolFault::NotText => Ok(()),
        other => match input_span(input, count, other) {
            Some(span) => push_shown(out, input, span),
            None => Ok(()),
        },
    }
}

/// What is told of a fault in files that are named, as bytes to write: the file with line and column, the fault's
/// number and name, what is wrong, and the line with a mark under the place. Columns count characters, as a compiler
/// of Rust does. `texts` are the parts of the input. `wanted` says which parts the command reads. The only refusal is
/// that memory ran out.
pub fn explain_named(
    alloc: Global,
    fault: ToolFault,
    names: &[String],
    input: &[u8],
    wanted: &str,
    texts: &[String],
) -> Result<Vec<u8>, AllocError>
    ensures { IfOk result (λ bytes. bytes.items ≡
        named_note (map string_bytes names.now) input.now wanted.now (map string_bytes texts.now) fault) }
{
    let mut out = Vec::new(alloc);
    let count = count_of(texts);
    push_site(alloc, &mut out, names, input, count, fault)?;
    out.extend_from_slice(b": error ".as_slice())?;
    push_title(&mut out, fault_line(fault).as_bytes())?;
    push_sentence(alloc, &mut out, wanted, texts, fault)?;
    push_shown_in(&mut out, input, count, fault)?;
    push_hint(&mut out, fault, texts)?;
    Ok(out)
}
