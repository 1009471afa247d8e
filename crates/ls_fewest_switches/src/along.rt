// The observer of one history.

ghost use Rattle.std.specs.Prelude.{◌≡◌, ◌+◌, IfSome, List, Option, Some, drop};
ghost use Rattle.ls_events.specs.declared.event.Event.{Event as EventValue};
ghost use Rattle.ls_fewest_switches.specs.Along.{is_whole, left_after, left_from};

use ls_events::event::Event;
use ls_events::same::is_event;
use ls_linearizable::observer_laws::events_are_tested;
use ls_observers::hashing::hashed;
use ls_observers::observer::Observer;
use std::alloc::{AllocError, Global};

/// An observer of one history, which calls that one bad. It notes how many of its events have come, or nothing where
/// other ones have.
#[derive(Drop)]
pub(crate) struct Along<'a> {
    pub(crate) history: &'a [Event],
}

/// How many events of a history have come after one event more, or nothing if it isn't the next.
pub(crate) fn come_after(history: &[Event], done: usize, event: &Event) -> Option<usize>
    ensures left { left_from history.now result ≡ left_after (Some (drop done history.now)) event.now }
    ensures one { IfSome result (λ count. count ≡ done + 1) }
{
    events_are_tested();
    match history.get(done) {
        None => None,
        Some(next) => {
            if is_event(next, event) {
                return Some(done + 1);
            }
            None
        }
    }
}

/// Whether a history is over where so many events have come.
pub(crate) fn is_over(history: &[Event], done: usize) -> bool
    ensures { result ≡ is_whole (left_from history.now (Some done)) }
{
    if done >= history.len() {
        return true;
    }
    false
}

impl<'a> Observer for Along<'a> {
    ghost State = { Option (List EventValue) };

    ghost first = { λ a. Some a.history.now };

    ghost next = { λ _. left_after };

    ghost bad = { λ _. is_whole };

    type Noted = Option<usize>;

    ghost stands = { λ a. left_from a.history.now };

    fn start(&self, _alloc: Global) -> Result<Option<usize>, AllocError> {
        Ok(Some(0))
    }

    fn after(
        &self,
        _alloc: Global,
        noted: &Option<usize>,
        event: &Event,
    ) -> Result<Option<usize>, AllocError> {
        match noted {
            None => Ok(None),
            Some(done) => Ok(come_after(self.history, *done, event)),
        }
    }

    fn is_same(&self, noted: &Option<usize>, other: &Option<usize>) -> bool {
        noted == other
    }

    fn hash(&self, noted: &Option<usize>) -> u64 {
        match noted {
            None => 0,
            Some(done) => hashed(1, *done as u64),
        }
    }

    fn is_bad(&self, noted: &Option<usize>) -> bool {
        match noted {
            None => false,
            Some(done) => is_over(self.history, *done),
        }
    }
}
