// Reading a history.

ghost use Rattle.std.specs.Prelude.{◌≡◌, ◌<◌, ◌≤◌, ◌^◌, List, true, length as list_length, map, IfErr, IfNone, IfOk};
ghost use Rattle.std.specs.Prelude.{IfSome};
ghost use Rattle.ls_report.specs.Discipline.{is_history, is_next};
ghost use Rattle.ls_report.specs.Events.{Event};
ghost use Rattle.ls_report.specs.Front.{IsIndexed};
ghost use Rattle.ls_report.specs.Lines.{event_text, history_text};
ghost use Rattle.ls_report.specs.Plain.{plain_event};
ghost use Rattle.ls_report.specs.Reading.{Explains, IsReadAs, Says};

use crate::cuts::cut;
use crate::discipline::is_next;
use crate::fault::HistoryFault;
use crate::front::Front;
use crate::history::{History, NamedEvent};
use crate::line_reading::event_in;
use std::alloc::{AllocError, Global};

/// The event of the line, if it may come after those before it.
fn next_in<'a>(
    alloc: Global,
    front: &Front<'_>,
    line: &'a str,
) -> Result<Option<NamedEvent<'a>>, AllocError>
    requires { IsIndexed front.now }
    ensures some { IfOk result (λ o. IfSome o (λ e.
        (is_next (map plain_event front.now.events.items) (plain_event e) ≡ true) ×
        (line.now ≡ event_text (plain_event e)))) }
    ensures none { IfOk result (λ o. IfNone o ((e : Event) → is_next (map plain_event front.now.events.items) e ≡ true
        → e.call < 2 ^ 64 → line.now ≡ event_text e → ⊥)) }
{
    let Some(event) = event_in(alloc, line)? else {
        return Ok(None);
    };
    if !is_next(front, &event) {
        return Ok(None);
    }
    Ok(Some(event))
}

/// Room for the events of most texts of this length. Most lines have 20 bytes or more.
fn usual_events(text: &str) -> usize {
    text.len() / 20
}

fn read_events(
    alloc: Global,
    text: &str,
    length: usize,
) -> Result<Vec<NamedEvent<'_>>, HistoryFault>
    requires { length ≡ list_length text.now }
    ensures fits { length < 2 ^ 64 }
    ensures found { IfOk result (λ events. Says text.now (map plain_event events.items)) }
    ensures fault { IfErr result (Explains text.now) }
{
    let mut front = Front::with_room(alloc, usual_events(text))?;
    let mut rest = text;
    while let Some((line, after)) = cut(rest, '\n') {
        let at = length - rest.len();
        let Some(event) = next_in(alloc, &front, line)? else {
            return Err(HistoryFault::BadHistory { at });
        };
        front.push(event)?;
        rest = after;
    }
    if !rest.is_empty() {
        let at = length - rest.len();
        return Err(HistoryFault::BadHistory { at });
    }
    Ok(front.events)
}

/// The history of which the text has the lines. Otherwise the fault has the byte where the first line begins that
/// can't come there, or memory ran out.
pub fn read_history<'a>(alloc: Global, text: &'a str) -> Result<History<'a>, HistoryFault>
    ensures accepts { (es : List Event) → is_history es ≡ true → text.now ≡ history_text es → IsReadAs es result }
    ensures found { IfOk result (Says text.now) }
    ensures fault { IfErr result (Explains text.now) }
{
    let length = text.len();
    match read_events(alloc, text, length) {
        Ok(events) => Ok(History::from_events(events)),
        Err(fault) => Err(fault),
    }
}
