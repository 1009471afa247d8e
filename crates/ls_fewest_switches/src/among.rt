// The observer of several histories.

ghost use Rattle.std.specs.Prelude.{◌≡◌, IfOk, IsTrue, List, map};
ghost use Rattle.ls_events.specs.declared.event.Event.{Event as EventValue};
ghost use Rattle.ls_fewest_switches.specs.Among.{history_at, is_one_whole, lefts_after, lefts_at};

use crate::along::{come_after, is_over};
use ls_events::event::Event;
use ls_observers::hashing::hashed;
use ls_observers::observer::Observer;
use std::alloc::{AllocError, Global};

/// An observer of histories, which calls each of them bad.
#[derive(Drop)]
pub(crate) struct Among<'a> {
    pub(crate) histories: &'a [Vec<Event>],
}

/// How many events have come, and the places of the histories that begin with them. Where there are none of these, the
/// number is 0.
#[derive(Drop)]
pub(crate) struct Beginning {
    pub(crate) done: usize,
    pub(crate) which: Vec<usize>,
}

const START: u64 = 0xcbf2_9ce4_8422_2325;

/// The history at a place, which has no event if there is none.
fn history_at(histories: &[Vec<Event>], at: usize) -> &[Event]
    ensures { result.now ≡ history_at (map (λ v. v.items) histories.now) at }
{
    match histories.get(at) {
        None => &[],
        Some(history) => history.as_slice(),
    }
}

/// The places of all histories.
fn places(alloc: Global, histories: &[Vec<Event>]) -> Result<Vec<usize>, AllocError>
    ensures { IfOk result (λ which. lefts_at (map (λ v. v.items) histories.now) 0 which.items ≡
        map (λ v. v.items) histories.now) }
{
    let mut which = Vec::new(alloc);
    for at in 0..histories.len() {
        which.push(at)?;
    }
    Ok(which)
}

/// What is noted after one event more.
fn going_on(
    alloc: Global,
    histories: &[Vec<Event>],
    noted: &Beginning,
    event: &Event,
) -> Result<Beginning, AllocError>
    ensures { IfOk result (λ n. lefts_at (map (λ v. v.items) histories.now) n.done n.which.items ≡
        lefts_after (lefts_at (map (λ v. v.items) histories.now) noted.now.done noted.now.which.items) event.now) }
{
    let mut done = 0;
    let mut which = Vec::new(alloc);
    for at in &noted.which {
        if let Some(count) = come_after(history_at(histories, *at), noted.done, event) {
            done = count;
            which.push(*at)?;
        }
    }
    Ok(Beginning { done, which })
}

/// Whether one of the histories is over.
fn is_one_over(histories: &[Vec<Event>], noted: &Beginning) -> bool
    ensures { result ≡ is_one_whole (lefts_at (map (λ v. v.items) histories.now) noted.now.done
        noted.now.which.items) }
{
    for at in &noted.which {
        if is_over(history_at(histories, *at), noted.done) {
            return true;
        }
    }
    false
}

/// Whether numbers are the same, one by one.
fn are_same(which: &[usize], others: &[usize]) -> bool
    ensures { IsTrue result → which.now ≡ others.now }
{
    which == others
}

impl<'a> Observer for Among<'a> {
    ghost State = { List (List EventValue) };

    ghost first = { λ a. map (λ v. v.items) a.histories.now };

    ghost next = { λ _. lefts_after };

    ghost bad = { λ _. is_one_whole };

    type Noted = Beginning;

    ghost stands = { λ a n. lefts_at (map (λ v. v.items) a.histories.now) n.done n.which.items };

    fn start(&self, alloc: Global) -> Result<Beginning, AllocError> {
        let which = places(alloc, self.histories)?;
        Ok(Beginning { done: 0, which })
    }

    fn after(
        &self,
        alloc: Global,
        noted: &Beginning,
        event: &Event,
    ) -> Result<Beginning, AllocError> {
        let after = going_on(alloc, self.histories, noted, event)?;
        Ok(after)
    }

    fn is_same(&self, noted: &Beginning, other: &Beginning) -> bool {
        noted.done == other.done && are_same(&noted.which, &other.which)
    }

    fn hash(&self, noted: &Beginning) -> u64 {
        let mut hash = hashed(START, noted.done as u64);
        for at in &noted.which {
            hash = hashed(hash, *at as u64);
        }
        hash
    }

    fn is_bad(&self, noted: &Beginning) -> bool {
        is_one_over(self.histories, noted)
    }
}
