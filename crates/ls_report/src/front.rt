// The events that are read so far.

ghost use Rattle.std.specs.Prelude.{◌≡◌, ◌++◌, ◌∷◌, [], IfOk, OnOk, Some, find, if◌then◌else◌, reverse};
ghost use Rattle.std.specs.Option.{option_copied};
ghost use Rattle.std.specs.Str.{bytes_eq};
ghost use Rattle.ls_report.specs.Events.{Text};
ghost use Rattle.ls_report.specs.Front.{IsIndexed, place_of};

use crate::history::NamedEvent;
use std::alloc::{AllocError, Global};
use std::collections::HashMap;

/// Puts the place of the thread's last event.
fn put_place<'a>(
    places: &mut HashMap<&'a str, usize>,
    thread: &'a str,
    place: usize,
) -> Result<(), AllocError>
    ensures { OnOk result ((q : Text) → place_of places.new q
        ≡ (if bytes_eq thread.now q then Some place else place_of places.old q)) }
{
    places.insert(thread, place)?;
    Ok(())
}

/// Events in order, and for each thread's name the place of its last event.
#[derive(Drop)]
pub(crate) struct Front<'a> {
    pub(crate) events: Vec<NamedEvent<'a>>,
    pub(crate) places: HashMap<&'a str, usize>,
}

impl<'a> Front<'a> {
    /// No events, with room for `most`. The only refusal is that memory ran out.
    pub(crate) fn with_room(alloc: Global, most: usize) -> Result<Front<'a>, AllocError>
        ensures events { IfOk result (λ f. f.events.items ≡ []) }
        ensures indexed { IfOk result IsIndexed }
    {
        let events = Vec::with_capacity(alloc, most)?;
        Ok(Front {
            events,
            places: HashMap::new(alloc),
        })
    }

    /// The last event of the thread.
    pub(crate) fn last_of(&self, thread: &str) -> Option<&NamedEvent<'a>>
        requires { IsIndexed self.now }
        ensures { option_copied result ≡ find (λ e. bytes_eq e.thread.now thread.now) (reverse self.now.events.items) }
    {
        let place = *self.places.get(thread)?;
        self.events.get(place)
    }

    /// One more event. The only refusal is that memory ran out.
    pub(crate) fn push(&mut self, event: NamedEvent<'a>) -> Result<(), AllocError>
        requires { IsIndexed self.old }
        ensures events { OnOk result (self.new.events.items ≡ self.old.events.items ++ event.entry ∷ []) }
        ensures indexed { OnOk result (IsIndexed self.new) }
    {
        put_place(&mut self.places, event.thread, self.events.len())?;
        self.events.push(event)?;
        Ok(())
    }
}
