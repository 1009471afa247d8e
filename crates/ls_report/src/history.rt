// Histories with the names of their texts. A name is a place in the text that was read. So it has no memory of its
// own.

use crate::lines::text_of;
use ls_events::kind::Kind;
use ls_events::value::Value;
use std::alloc::{AllocError, Global};
use std::marker::Model;

/// What happened to a call.
#[derive(Drop)]
pub enum Occurrence<'a> {
    /// `object = new class(arguments)`.
    Made {
        object: &'a str,
        class: &'a str,
        arguments: Vec<Value>,
    },
    /// `object.method(arguments)`.
    Called {
        object: &'a str,
        method: &'a str,
        arguments: Vec<Value>,
    },
    /// With the value, if the method answers one.
    Returned(Option<Value>),
    Trapped(Kind),
}

/// An event of a thread's call. A thread's calls are numbered from 1.
#[derive(Drop)]
pub struct NamedEvent<'a> {
    pub thread: &'a str,
    pub call: usize,
    pub occurrence: Occurrence<'a>,
}

/// The events of a history, in order.
#[derive(Drop)]
pub struct History<'a> {
    events: Vec<NamedEvent<'a>>,
}

impl<'a> Model for History<'a> {
    ghost use Rattle.std.specs.Prelude.{List, map};
    ghost use Rattle.ls_report.specs.Events.{Event};
    ghost use Rattle.ls_report.specs.Plain.{plain_event};

    ghost Value = { List Event };

    ghost view = { λ h. map plain_event h.events.items };
}

impl<'a> History<'a> {
    ghost use Rattle.std.specs.Prelude.{◌≡◌, IfOk, map, string_bytes};
    ghost use Rattle.ls_report.specs.Lines.{history_text};
    ghost use Rattle.ls_report.specs.Plain.{plain_event};

    pub(crate) fn from_events(events: Vec<NamedEvent<'a>>) -> History<'a>
        ensures { result ≡ map plain_event events.entry.items }
    {
        History { events }
    }

    /// The lines of the events. The only refusal is that memory ran out.
    pub fn to_text(&self, alloc: Global) -> Result<String, AllocError>
        ensures { IfOk result (λ text. string_bytes text ≡ history_text self.now) }
    {
        text_of(alloc, self.events.as_slice())
    }

    /// The events, in order.
    pub fn events(&self) -> &[NamedEvent<'a>]
        ensures { map plain_event result.now ≡ self.now }
    {
        self.events.as_slice()
    }
}
