// The verdict on the text of a history, as text.

ghost use Rattle.std.specs.Prelude.{◌≡◌, ◌<◌, ◌++◌, ◌∷◌, [], IfOk, List, Some, drop, length, map, slice_get};
ghost use Rattle.std.specs.Prelude.{string_bytes};
ghost use Rattle.ls_report.specs.Cut.{cut};
ghost use Rattle.ls_report.specs.Events.{Event, Text};
ghost use Rattle.ls_report.specs.Lines.{event_text};
ghost use Rattle.ls_report.specs.Plain.{plain_event};
ghost use Rattle.ls_report.specs.Reading.{Says};
ghost use Rattle.ls_order_search.specs.Answers.{IsOutcome};
ghost use Rattle.ls_order_search.specs.Telling.{GivesText, Tells, foreign_text, hopeless_text};

use crate::fault::SearchFault;
use crate::judging::{OrderAnswer, judge};
use crate::printing::order_line;
use ls_report::cuts::cut;
use ls_report::history::NamedEvent;
use ls_report::read_history;
use std::alloc::{AllocError, Global};

/// The verdict that the call isn't a set call on the same object as the first set call. An order of such a history
/// gets the same text.
fn foreign_text(alloc: Global, call: &str) -> Result<String, AllocError>
    ensures { IfOk result (λ text. string_bytes text ≡ foreign_text call.now) }
{
    format!(in alloc; "broken 76 {call}\n")
}

/// The text after the first line. If there is only one line, the whole text.
fn after_line(text: &str) -> &str
    ensures { (line after : Text) → cut 10 text.now ≡ Some (line, after) → result.now ≡ after }
{
    match cut(text, '\n') {
        Some((_, after)) => after,
        None => text,
    }
}

/// The first line, without its line feed.
fn first_line(text: &str) -> &str
    ensures { (line after : Text) → cut 10 text.now ≡ Some (line, after) → result.now ≡ line }
{
    match cut(text, '\n') {
        Some((line, _)) => line,
        None => text,
    }
}

/// The line of the event at the place.
fn line_at(text: &str, at: usize) -> &str
    ensures { (events : List Event) (e : Event) → Says text.now events → slice_get events at ≡ Some e →
        result.now ≡ event_text e }
{
    let mut rest = text;
    for past in 0..at {
        rest = after_line(rest);
    }
    first_line(rest)
}

/// The event with which no order is legal any more, and a legal order of the events before it.
fn hopeless_text(
    alloc: Global,
    at: usize,
    line: &str,
    order: &[String],
) -> Result<String, AllocError>
    requires { at < 18446744073709551615 }
    ensures { IfOk result (λ text. string_bytes text ≡ hopeless_text at line.now (map string_bytes order.now)) }
{
    let number = at + 1;
    let calls = order_line(alloc, order)?;
    let calls = calls.as_str();
    format!(in alloc; "hopeless {number} {line}\n{calls}")
}

/// The text of the outcome.
fn outcome_text(
    alloc: Global,
    text: &str,
    events: &[NamedEvent<'_>],
    outcome: &OrderAnswer,
) -> Result<String, SearchFault>
    requires says { Says text.now (map plain_event events.now) }
    requires outcome { IsOutcome (map plain_event events.now) outcome.now }
    ensures { GivesText (Tells text.now) result }
{
    match outcome {
        OrderAnswer::NotOneSet(call) => {
            let told = foreign_text(alloc, call.as_str())?;
            Ok(told)
        }
        OrderAnswer::TooManyTrapped => Err(SearchFault::TooManyTrapped),
        OrderAnswer::Legal(order) => {
            let told = order_line(alloc, order.as_slice())?;
            Ok(told)
        }
        OrderAnswer::Hopeless { at, order } => {
            let line = line_at(text, *at);
            let told = hopeless_text(alloc, *at, line, order.as_slice())?;
            Ok(told)
        }
    }
}

/// Reads a history. Its answer is a legal order of the set calls. If there is none, it is the event with which there
/// is none any more, and a legal order of the events before that event. Refused if the text is no history, if an item
/// has more than 12 trapped calls, or if memory runs out.
pub fn tell(alloc: Global, text: &str) -> Result<String, SearchFault>
    ensures { GivesText (Tells text.now) result }
{
    let history = read_history(alloc, text)?;
    let events = history.events();
    let outcome = judge(alloc, events)?;
    outcome_text(alloc, text, events, &outcome)
}
