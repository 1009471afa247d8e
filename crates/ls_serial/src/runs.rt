// The serial runs of a program.

ghost use Rattle.std.specs.Prelude.{◌≡◌, ◌⊎◌, ◌↔◌, ◌≤◌, ℕ, List, [], ◌++◌, Contains, IfNone, IfOk, IfSome, IsTrue};
ghost use Rattle.std.specs.Prelude.{OnErr, OnOk};
ghost use Rattle.std.specs.Prelude.{length, take};
ghost use Rattle.ls_events.specs.declared.event.Event.{Event as EventValue};
ghost use Rattle.ls_serial.specs.Serial.{ExplainsAmong, ExplainsFrom, HaveBeginning, IsExplained};
ghost use Rattle.ls_events.specs.Beginnings.{IsBeginning};
ghost use Rattle.ls_serial.specs.Serial.{IsExplainedBy, IsSerial};

use crate::explaining::{explaining_count, is_pair};
use ls_events::event::Event;
use ls_events::same::are_same_events;
use std::alloc::{AllocError, Global};
use std::marker::Model;

/// A serial run.
#[derive(Drop)]
struct Run {
    events: Vec<Event>,
}

impl Model for Run {
    ghost use Rattle.std.specs.Prelude.{List};
    ghost use Rattle.ls_events.specs.declared.event.Event.{Event as EventValue};

    ghost Value = { List EventValue };

    ghost view = { λ r. r.events.items };
}

impl Run {
    /// A run of these events.
    fn of(alloc: Global, events: &[Event]) -> Result<Run, AllocError>
        ensures { IfOk result (λ r. r ≡ events.now) }
    {
        let events = events.iter().copied().collect(alloc)?;
        Ok(Run { events })
    }

    /// A beginning of it that explains a history; none if no beginning does.
    fn explaining<'a>(&'a self, history: &[Event]) -> Option<&'a [Event]>
        ensures some { IfSome result (λ g. ExplainsFrom self.now g.now history.now) }
        ensures none { IfNone result (IsExplained self.now history.now → ⊥) }
    {
        let events = self.events.as_slice();
        match explaining_count(events, history) {
            Some(count) => Some(&events[..count]),
            None => None,
        }
    }

    /// Whether it begins so. True only where it does.
    fn begins(&self, first: &[Event]) -> bool
        ensures { IsTrue result → IsBeginning first.now self.now }
    {
        let count = first.len();
        if count > self.events.len() {
            return false;
        }
        let events = self.events.as_slice();
        are_same_events(&events[..count], first)
    }
}

/// How many of the first events are serial: as many as can be.
fn serial_count(history: &[Event]) -> usize
    ensures within { result ≤ length history.now }
    ensures serial { IsSerial (take result history.now) }
    ensures most { (k : ℕ) → k ≤ length history.now → IsSerial (take k history.now) → k ≤ result }
{
    let mut count = 0;
    while history.len() - count >= 2 && is_pair(&history[count], &history[count + 1]) {
        count += 2;
    }
    count
}

/// Whether one of the runs begins so. True only where one does.
fn has_beginning(runs: &[Run], first: &[Event]) -> bool
    ensures { IsTrue result → HaveBeginning runs.now first.now }
{
    for i in 0..runs.len() {
        if runs[i].begins(first) {
            return true;
        }
    }
    false
}

/// A beginning of one of the runs that explains a history; none if no beginning does.
fn one_explaining<'a>(runs: &'a [Run], history: &[Event]) -> Option<&'a [Event]>
    ensures some { IfSome result (λ g. ExplainsAmong runs.now g.now history.now) }
    ensures none { IfNone result (IsExplainedBy runs.now history.now → ⊥) }
{
    for i in 0..runs.len() {
        let found = runs[i].explaining(history);
        if found.is_some() {
            return found;
        }
    }
    None
}

/// The serial runs that some histories begin with.
#[derive(Drop)]
pub struct SerialRuns {
    runs: Vec<Run>,
}

impl Model for SerialRuns {
    ghost use Rattle.std.specs.Prelude.{List};
    ghost use Rattle.ls_events.specs.declared.event.Event.{Event as EventValue};

    ghost Value = { List (List EventValue) };

    ghost view = { λ s. s.runs.items };
}

impl SerialRuns {
    /// No runs.
    pub fn new(alloc: Global) -> SerialRuns
        ensures { result ≡ [] }
    {
        SerialRuns {
            runs: Vec::new(alloc),
        }
    }

    /// Adds the serial run that a history begins with: the longest. Then one of the runs begins with a serial history
    /// if one did before, or the history does. The only refusal is that memory ran out, and nothing has changed then.
    pub fn add(&mut self, alloc: Global, history: &[Event]) -> Result<(), AllocError>
        ensures added { OnOk result ((g : List EventValue) → IsSerial g →
            HaveBeginning self.new g ↔ (HaveBeginning self.old g ⊎ IsBeginning g history.now)) }
        ensures unchanged { OnErr result (self.new ≡ self.old) }
    {
        let first = &history[..serial_count(history)];
        if has_beginning(self.runs.as_slice(), first) {
            return Ok(());
        }
        let run = Run::of(alloc, first)?;
        self.runs.push(run)?;
        Ok(())
    }

    /// A serial history that one of the runs begins with, and that explains the given one; none if there is none.
    pub fn explaining<'a>(&'a self, history: &[Event]) -> Option<&'a [Event]>
        ensures some { IfSome result (λ g. ExplainsAmong self.now g.now history.now) }
        ensures none { IfNone result (IsExplainedBy self.now history.now → ⊥) }
    {
        one_explaining(self.runs.as_slice(), history)
    }
}
