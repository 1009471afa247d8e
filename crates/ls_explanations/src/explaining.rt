// What is said after the line of a fault.

ghost use Rattle.std.specs.Prelude.{◌≡◌, ◌++◌, IfOk, OnOk, length, map, replicate, string_bytes};
ghost use Rattle.std.specs.List.{flat_map, list_any};
ghost use Rattle.ls_explanations.specs.Explanations.{counted, explanation, has_return, heading, hint, in_part, marks};
ghost use Rattle.ls_explanations.specs.Explanations.{minds_returns, note, part_text, shown, space_below};
ghost use Rattle.ls_explanations.specs.Explanations.{classes_of, told, whole_sentence};

use crate::mismatch::push_details;
use crate::place::{Part, PartSpan, place_of};
use crate::sentences::sentence;
use crate::spot::{Spot, begins_character, characters, spot_of};
use ls_faults::fault::ToolFault;
use ls_lexer::token::Span;
use std::alloc::{AllocError, Global};
use std::fmt::Write;

/// What is said if a carriage return is a part of its line.
const RETURN_HINT: &str = "unexpected carriage return: a line ends with a line feed alone here\n";

/// Adds the name of the part, and the line and column of a byte.
fn push_heading(
    alloc: Global,
    out: &mut Vec<u8>,
    part: Part,
    text: &[u8],
    at: usize,
) -> Result<(), AllocError>
    ensures { OnOk result (out.new.items ≡ out.old.items ++ heading part text.now at) }
{
    let spot = spot_of(text, at);
    let name = part.name();
    let line = spot.line;
    let column = 1 + characters(spot.before);
    let mut heading = String::new(alloc);
    write!(heading, "{name}, line {line}, column {column}:\n")?;
    out.extend_from_slice(heading.as_bytes())
}

fn push_spaces(out: &mut Vec<u8>, before: &[u8]) -> Result<(), AllocError>
    ensures { OnOk result (out.new.items ≡ out.old.items ++ flat_map space_below before.now) }
{
    for byte in before {
        if begins_character(*byte) {
            out.push(if *byte == b'\t' { b'\t' } else { b' ' })?;
        }
    }
    Ok(())
}

fn push_marks(out: &mut Vec<u8>, count: usize) -> Result<(), AllocError>
    ensures { OnOk result (out.new.items ≡ out.old.items ++ replicate count 94) }
{
    for _ in 0..count {
        out.push(b'^')?;
    }
    Ok(())
}

/// Adds the line of a place, and a mark under the place.
pub(crate) fn push_shown(out: &mut Vec<u8>, text: &[u8], span: Span) -> Result<(), AllocError>
    ensures { OnOk result (out.new.items ≡ out.old.items ++ shown text.now span) }
{
    let Spot {
        line: _,
        before,
        from_on,
    } = spot_of(text, span.start);
    out.extend_from_slice(before)?;
    out.extend_from_slice(from_on)?;
    out.push(b'\n')?;
    push_spaces(out, before)?;
    let length = span.end.saturating_sub(span.start).min(from_on.len());
    push_marks(out, characters(&from_on[..length]).max(1))?;
    out.push(b'\n')?;
    Ok(())
}

fn push_explanation(
    alloc: Global,
    out: &mut Vec<u8>,
    place: PartSpan,
    text: &[u8],
) -> Result<(), AllocError>
    ensures { OnOk result (out.new.items ≡ out.old.items ++ explanation place text.now) }
{
    push_heading(alloc, out, place.part, text, place.span.start)?;
    push_shown(out, text, place.span)
}

/// How many parts there are.
pub(crate) fn count_of(texts: &[String]) -> usize
    ensures { result ≡ length (map string_bytes texts.now) }
{
    texts.len()
}

/// A part, or nothing if there is none.
pub(crate) fn part_text(texts: &[String], number: usize) -> &str
    ensures { result.now ≡ part_text (map string_bytes texts.now) number }
{
    match texts.get(number) {
        Some(text) => text.as_str(),
        None => "",
    }
}

/// A fault of the reference as one of a class text.
fn told(fault: ToolFault) -> ToolFault
    ensures { result ≡ told fault }
{
    match fault {
        ToolFault::Specification(fault) => ToolFault::from(fault),
        other => other,
    }
}

/// The class text of which a fault tells: the reference is the last part.
fn classes_of(fault: ToolFault, texts: &[String]) -> &str
    ensures { result.now ≡ classes_of fault (map string_bytes texts.now) }
{
    match fault {
        ToolFault::Specification(_) => part_text(texts, count_of(texts).saturating_sub(1)),
        _ => part_text(texts, 0),
    }
}

/// What is wrong, and what to write in its place. The only refusal is that memory ran out.
pub(crate) fn whole_sentence(
    alloc: Global,
    fault: ToolFault,
    texts: &[String],
) -> Result<Vec<u8>, AllocError>
    ensures { IfOk result (λ bytes. bytes.items ≡ whole_sentence fault (map string_bytes texts.now)) }
{
    let mut out = Vec::new(alloc);
    let classes = classes_of(fault, texts);
    let fault = told(fault);
    out.extend_from_slice(sentence(fault, classes.as_bytes()).as_bytes())?;
    push_details(alloc, &mut out, fault, classes, part_text(texts, 1))?;
    Ok(out)
}

/// Adds what is said of a place in its part, if the part exists.
fn push_in_part(
    alloc: Global,
    out: &mut Vec<u8>,
    texts: &[String],
    place: PartSpan,
) -> Result<(), AllocError>
    ensures { OnOk result (out.new.items ≡ out.old.items ++ in_part (map string_bytes texts.now) place) }
{
    let count = count_of(texts);
    let number = place.part.number(count);
    if number < count {
        push_explanation(alloc, out, place, part_text(texts, number).as_bytes())
    } else {
        Ok(())
    }
}

fn minds_returns(fault: ToolFault) -> bool
    ensures { result ≡ minds_returns fault }
{
    matches!(fault, ToolFault::WrongParts | ToolFault::History(_))
}

fn have_returns(texts: &[String]) -> bool
    ensures { result ≡ list_any has_return (map string_bytes texts.now) }
{
    for text in texts {
        if text.as_bytes().contains(&b'\r') {
            return true;
        }
    }
    false
}

pub(crate) fn push_hint(
    out: &mut Vec<u8>,
    fault: ToolFault,
    texts: &[String],
) -> Result<(), AllocError>
    ensures { OnOk result (out.new.items ≡ out.old.items ++ hint fault (map string_bytes texts.now)) }
{
    if minds_returns(fault) && have_returns(texts) {
        out.extend_from_slice(RETURN_HINT.as_bytes())?;
    }
    Ok(())
}

/// If the command reads another number of parts, adds how many there are.
fn push_count(
    alloc: Global,
    out: &mut Vec<u8>,
    fault: ToolFault,
    count: usize,
) -> Result<(), AllocError>
    ensures { OnOk result (out.new.items ≡ out.old.items ++ counted fault count) }
{
    match fault {
        ToolFault::WrongParts => {
            let mut line = String::new(alloc);
            write!(line, "parts of this input: {count}\n")?;
            out.extend_from_slice(line.as_bytes())
        }
        _ => Ok(()),
    }
}

/// What is said of a fault after its line, as bytes to write. It has where its place is, the line of that place with
/// marks under it, and what is wrong there. A fault without a place has a sentence or a hint, or nothing. The only
/// refusal is that memory ran out.
pub fn explain(alloc: Global, fault: ToolFault, texts: &[String]) -> Result<Vec<u8>, AllocError>
    ensures { IfOk result (λ bytes. bytes.items ≡ note fault (map string_bytes texts.now)) }
{
    let mut out = Vec::new(alloc);
    if let Some(place) = place_of(fault) {
        push_in_part(alloc, &mut out, texts, place)?;
    }
    let said = whole_sentence(alloc, fault, texts)?;
    out.extend_from_slice(said.as_slice())?;
    push_count(alloc, &mut out, fault, count_of(texts))?;
    push_hint(&mut out, fault, texts)?;
    Ok(out)
}
