// Taking the lines of a history apart.

ghost use Rattle.std.specs.Prelude.{◌≡◌, ◌<◌, ◌≤◌, ◌+◌, ◌/◌, ◌^◌, ℕ, ℤ, FitsSigned, List, Some, true, IfOk, IfSome};
ghost use Rattle.std.specs.Prelude.{length as list_length, option_map};
ghost use Rattle.std.specs.Fmt.{decimal, signed_decimal};
ghost use Rattle.std.specs.Int.{w32};
ghost use Rattle.std.specs.List.{list_all};
ghost use Rattle.ls_events.specs.declared.kind.Kind.{Kind as ghost_Kind};
ghost use Rattle.ls_events.specs.declared.value.Value.{Value as ghost_Value};
ghost use Rattle.ls_report.specs.Cut.{cut};
ghost use Rattle.ls_report.specs.Discipline.{has_names, is_shown, is_well_formed};
ghost use Rattle.ls_report.specs.Events.{Called, Event, Made, Occurrence as ghost_Occurrence, Returned, Trapped};
ghost use Rattle.ls_report.specs.Lines.{arguments_text, event_text, kind_text, occurrence_text, value_text};
ghost use Rattle.ls_report.specs.Plain.{plain_event, plain_occurrence};
ghost use Rattle.ls_report.specs.LineReading.{
  Calling,
  Giving,
  Making,
  Trapping,
  call_parts,
  closed_parts,
  has_no_zero,
  head_parts,
  is_plain,
  is_plain_int,
  made_parts,
  making_parts,
  parts_of,
  parts_text,
  plain_pieces,
  word_parts,
};

use crate::cuts::cut;
use crate::history::{NamedEvent, Occurrence};
use ls_events::kind::Kind;
use ls_events::value::Value;
use std::alloc::{AllocError, Global};

/// The texts of an occurrence.
#[derive(Clone, Copy)]
enum Pieces<'a> {
    Making {
        object: &'a str,
        class: &'a str,
        arguments: &'a str,
    },
    Calling {
        object: &'a str,
        method: &'a str,
        arguments: &'a str,
    },
    Returning,
    Giving(&'a str),
    Trapping(&'a str),
}

/// A making, from the four words `object = new class`.
fn made_of<'a>(
    object: &'a str,
    equals: &str,
    new: &str,
    class: &'a str,
    arguments: &'a str,
) -> Option<Pieces<'a>>
    ensures { option_map plain_pieces result ≡ made_parts object.now equals.now new.now class.now arguments.now }
{
    if equals == "=" && new == "new" {
        Some(Pieces::Making {
            object,
            class,
            arguments,
        })
    } else {
        None
    }
}

fn making_in<'a>(head: &'a str, arguments: &'a str) -> Option<Pieces<'a>>
    ensures { option_map plain_pieces result ≡ making_parts arguments.now head.now }
{
    let (object, rest) = cut(head, ' ')?;
    let (equals, rest) = cut(rest, ' ')?;
    let (new, class) = cut(rest, ' ')?;
    made_of(object, equals, new, class, arguments)
}

fn head_in<'a>(head: &'a str, arguments: &'a str) -> Option<Pieces<'a>>
    ensures { option_map plain_pieces result ≡ head_parts arguments.now head.now (cut 46 head.now) }
{
    match cut(head, '.') {
        Some((object, method)) => Some(Pieces::Calling {
            object,
            method,
            arguments,
        }),
        None => making_in(head, arguments),
    }
}

/// A making or a call of a method. Nothing may come after its arguments.
fn closed_in<'a>(head: &'a str, arguments: &'a str, after: &str) -> Option<Pieces<'a>>
    ensures { option_map plain_pieces result ≡ closed_parts head.now arguments.now after.now }
{
    if after.is_empty() {
        head_in(head, arguments)
    } else {
        None
    }
}

fn call_in(text: &str) -> Option<Pieces<'_>>
    ensures { option_map plain_pieces result ≡ call_parts text.now }
{
    let (head, rest) = cut(text, '(')?;
    let (arguments, after) = cut(rest, ')')?;
    closed_in(head, arguments, after)
}

fn word_in<'a>(word: &'a str, rest: &'a str) -> Option<Pieces<'a>>
    ensures { option_map plain_pieces result ≡ word_parts word.now rest.now }
{
    if word == "call" {
        call_in(rest)
    } else if word == "return" {
        Some(Pieces::Giving(rest))
    } else if word == "trap" {
        Some(Pieces::Trapping(rest))
    } else {
        None
    }
}

fn pieces_in(text: &str) -> Option<Pieces<'_>>
    ensures { option_map plain_pieces result ≡ parts_of text.now }
{
    if text == "return" {
        return Some(Pieces::Returning);
    }
    let (word, rest) = cut(text, ' ')?;
    word_in(word, rest)
}

fn is_plain(text: &[u8]) -> bool
    ensures { result ≡ is_plain text.now }
{
    match text {
        [first, _, ..] => *first != b'0' && *first != b'+',
        _ => true,
    }
}

fn has_no_zero(text: &[u8]) -> bool
    ensures { result ≡ has_no_zero text.now }
{
    match text {
        [first, ..] => *first != b'0',
        _ => true,
    }
}

fn is_plain_int(text: &[u8]) -> bool
    ensures { result ≡ is_plain_int text.now }
{
    match text {
        [first, rest @ ..] => {
            if *first == b'-' {
                has_no_zero(rest)
            } else {
                is_plain(text)
            }
        }
        _ => true,
    }
}

/// The number that is printed as this text, or none.
pub fn number_in(text: &str) -> Option<usize>
    ensures reads { (n : ℕ) → n < 2 ^ 64 → text.now ≡ decimal n → result ≡ Some n }
    ensures exact { IfSome result (λ n. text.now ≡ decimal n) }
{
    if !is_plain(text.as_bytes()) {
        return None;
    }
    text.parse::<usize>().ok()
}

/// The int that is printed as this text, or none.
fn int_in(text: &str) -> Option<i32>
    ensures reads { (z : ℤ) → FitsSigned w32 z → text.now ≡ signed_decimal z → result ≡ Some z }
    ensures exact { IfSome result (λ z. text.now ≡ signed_decimal z) }
{
    if !is_plain_int(text.as_bytes()) {
        return None;
    }
    text.parse::<i32>().ok()
}

/// The value that is printed as this text, or none.
fn value_in(text: &str) -> Option<Value>
    ensures reads { (v : ghost_Value) → is_shown v ≡ true → text.now ≡ value_text v → result ≡ Some v }
    ensures exact { IfSome result (λ v. text.now ≡ value_text v) }
{
    if text == "true" {
        Some(Value::Boolean(true))
    } else if text == "false" {
        Some(Value::Boolean(false))
    } else {
        int_in(text).map(Value::Int)
    }
}

/// The exception of the class with this name, or none.
fn kind_in(text: &str) -> Option<Kind>
    ensures reads { (k : ghost_Kind) → text.now ≡ kind_text k → result ≡ Some k }
    ensures exact { IfSome result (λ k. text.now ≡ kind_text k) }
{
    match text {
        "ArithmeticException" => Some(Kind::Arithmetic),
        "NullPointerException" => Some(Kind::NullPointer),
        "ArrayIndexOutOfBoundsException" => Some(Kind::ArrayIndexOutOfBounds),
        "NegativeArraySizeException" => Some(Kind::NegativeArraySize),
        "IllegalMonitorStateException" => Some(Kind::IllegalMonitorState),
        "StackOverflowError" => Some(Kind::StackOverflow),
        "Error" => Some(Kind::Error),
        _ => None,
    }
}

/// How many values the text may have: one, and one more for each comma, after which come a space and a value.
fn most_values(text: &str) -> usize
    ensures { result ≤ list_length text.now / 3 + 1 }
{
    let mut commas = 0usize;
    for b in text.as_bytes() {
        if *b == b',' {
            commas += 1;
        }
    }
    commas.min(text.len() / 3) + 1
}

/// The values that are printed as this text, or none.
fn values_in(alloc: Global, text: &str) -> Result<Option<Vec<Value>>, AllocError>
    ensures reads { (vs : List ghost_Value) → list_all is_shown vs ≡ true → text.now ≡ arguments_text vs
        → IfOk result (λ o. option_map (λ v. v.items) o ≡ Some vs) }
    ensures exact { IfOk result (λ o. IfSome o (λ vs. text.now ≡ arguments_text vs.items)) }
{
    if text.is_empty() {
        return Ok(Some(Vec::new(alloc)));
    }
    let mut values = Vec::with_capacity(alloc, most_values(text))?;
    let mut rest = text;
    while let Some((first, others)) = cut(rest, ',') {
        let Some(value) = value_in(first) else {
            return Ok(None);
        };
        values.push(value)?;
        let Some((gap, more)) = cut(others, ' ') else {
            return Ok(None);
        };
        if !gap.is_empty() {
            return Ok(None);
        }
        rest = more;
    }
    let Some(value) = value_in(rest) else {
        return Ok(None);
    };
    values.push(value)?;
    Ok(Some(values))
}

/// `object = new class(arguments)`.
fn made_in<'a>(
    alloc: Global,
    object: &'a str,
    class: &'a str,
    arguments: &str,
) -> Result<Option<Occurrence<'a>>, AllocError>
    ensures reads { (vs : List ghost_Value) → list_all is_shown vs ≡ true → arguments.now ≡ arguments_text vs
        → IfOk result (λ r. option_map plain_occurrence r ≡ Some (Made object.now class.now vs)) }
    ensures exact { IfOk result
        (λ r. IfSome r (λ o. parts_text (Making object.now class.now arguments.now) ≡
        occurrence_text (plain_occurrence o))) }
{
    let Some(arguments) = values_in(alloc, arguments)? else {
        return Ok(None);
    };
    Ok(Some(Occurrence::Made {
        object,
        class,
        arguments,
    }))
}

/// `object.method(arguments)`.
fn called_in<'a>(
    alloc: Global,
    object: &'a str,
    method: &'a str,
    arguments: &str,
) -> Result<Option<Occurrence<'a>>, AllocError>
    ensures reads { (vs : List ghost_Value) → list_all is_shown vs ≡ true → arguments.now ≡ arguments_text vs
        → IfOk result (λ r. option_map plain_occurrence r ≡ Some (Called object.now method.now vs)) }
    ensures exact { IfOk result
        (λ r. IfSome r (λ o. parts_text (Calling object.now method.now arguments.now) ≡
        occurrence_text (plain_occurrence o))) }
{
    let Some(arguments) = values_in(alloc, arguments)? else {
        return Ok(None);
    };
    Ok(Some(Occurrence::Called {
        object,
        method,
        arguments,
    }))
}

fn returned_in(value: &str) -> Option<Occurrence<'_>>
    ensures reads { (v : ghost_Value) → is_shown v ≡ true → value.now ≡ value_text v
        → option_map plain_occurrence result ≡ Some (Returned (Some v)) }
    ensures exact { IfSome result (λ o. parts_text (Giving value.now) ≡ occurrence_text (plain_occurrence o)) }
{
    match value_in(value) {
        Some(value) => Some(Occurrence::Returned(Some(value))),
        None => None,
    }
}

fn trapped_in(kind: &str) -> Option<Occurrence<'_>>
    ensures reads { (k : ghost_Kind) → kind.now ≡ kind_text k → option_map plain_occurrence result ≡ Some (Trapped k) }
    ensures exact { IfSome result (λ o. parts_text (Trapping kind.now) ≡ occurrence_text (plain_occurrence o)) }
{
    match kind_in(kind) {
        Some(kind) => Some(Occurrence::Trapped(kind)),
        None => None,
    }
}

/// The occurrence that is printed as this text, or none.
fn occurrence_in(alloc: Global, text: &str) -> Result<Option<Occurrence<'_>>, AllocError>
    ensures reads { (o : ghost_Occurrence) → has_names o ≡ true → text.now ≡ occurrence_text o
        → IfOk result (λ r. option_map plain_occurrence r ≡ Some o) }
    ensures exact { IfOk result (λ r. IfSome r (λ o. text.now ≡ occurrence_text (plain_occurrence o))) }
{
    match pieces_in(text) {
        None => Ok(None),
        Some(
            Pieces::Making {
                object,
                class,
                arguments,
            },
        ) => made_in(alloc, object, class, arguments),
        Some(
            Pieces::Calling {
                object,
                method,
                arguments,
            },
        ) => called_in(alloc, object, method, arguments),
        Some(Pieces::Returning) => Ok(Some(Occurrence::Returned(None))),
        Some(Pieces::Giving(value)) => Ok(returned_in(value)),
        Some(Pieces::Trapping(kind)) => Ok(trapped_in(kind)),
    }
}

/// The event of which this is the line, without the line feed. It may be no well formed event.
pub(crate) fn event_in(alloc: Global, line: &str) -> Result<Option<NamedEvent<'_>>, AllocError>
    ensures reads { (e : Event) → is_well_formed e ≡ true → e.call < 2 ^ 64 → line.now ≡ event_text e
        → IfOk result (λ o. option_map plain_event o ≡ Some e) }
    ensures exact { IfOk result (λ o. IfSome o (λ e. line.now ≡ event_text (plain_event e))) }
{
    let Some((thread, rest)) = cut(line, '.') else {
        return Ok(None);
    };
    let Some((number, text)) = cut(rest, ' ') else {
        return Ok(None);
    };
    let Some(call) = number_in(number) else {
        return Ok(None);
    };
    let Some(occurrence) = occurrence_in(alloc, text)? else {
        return Ok(None);
    };
    Ok(Some(NamedEvent {
        thread,
        call,
        occurrence,
    }))
}
