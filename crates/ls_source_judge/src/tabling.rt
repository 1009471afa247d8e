// Sets of pairs by numbers, and what is left after events, by these numbers.

ghost use Rattle.std.specs.Prelude.{◌≡◌, ◌<◌, IfOk, IfSome, List, length, slice_get};
ghost use Rattle.std.specs.declared.alloc.Global.{Global as GlobalValue};
ghost use Rattle.std.specs.declared.vec.Vec.{Vec as VecValue};
ghost use Rattle.ls_automaton.specs.declared.outcome.Outcome.{Outcome as OutcomeValue};
ghost use Rattle.ls_automaton.specs.Held.{helds_of, leaves_none};
ghost use Rattle.ls_linearizable.specs.Judging.{later};
ghost use Rattle.ls_source_judge.specs.Stepped.{AreSteps, AreStepsOf, Grows, IsKnown, Leads, pairs_in, verdict_in};

use ls_automaton::next::next_events;
use ls_automaton::outcome::Outcome;
use ls_automaton::pairs::{Pair, are_same_pairs, hash_of_pairs, pairs_after};
use ls_events::event::Event;
use std::alloc::{AllocError, Global};

/// What is left: pairs of a state of the specification and of what pending calls have done.
#[derive(Drop)]
pub struct Pairs {
    pub(crate) pairs: Vec<Pair>,
}

/// What is noted: what is left, by its number if it has one.
#[derive(Drop)]
pub enum Noted {
    Known(usize),
    Other(Pairs),
}

/// The number of what is left after an event.
#[derive(Drop)]
pub(crate) struct Step {
    pub(crate) event: Event,
    pub(crate) after: usize,
}

/// The sets of pairs that are known, and steps from each.
#[derive(Drop)]
pub(crate) struct Table {
    pub(crate) known: Vec<Pairs>,
    /// The hash of each.
    pub(crate) hashes: Vec<u64>,
    pub(crate) steps: Vec<Vec<Step>>,
}

/// From at most so many sets of pairs steps are tabled.
const MOST: usize = 4096;

/// The number of pairs that are known. Only the first that have the hash are looked at.
fn known_pairs(known: &[Pairs], hashes: &[u64], hash: u64, pairs: &[Pair]) -> Option<usize>
    ensures below { IfSome result (λ n. n < length known.now) }
    ensures is { IfSome result (λ n. (rows : List (VecValue OutcomeValue GlobalValue)) →
        verdict_in rows known.now n ≡ leaves_none rows (helds_of pairs.now)) }
{
    let place = hashes.iter().position(|other| *other == hash)?;
    if place >= known.len() {
        return None;
    }
    if are_same_pairs(known[place].pairs.as_slice(), pairs) {
        return Some(place);
    }
    None
}

/// The number of pairs, which become known if they aren't. The only refusal is that memory ran out.
fn number_of_pairs(
    known: &mut Vec<Pairs>,
    hashes: &mut Vec<u64>,
    pairs: Vec<Pair>,
) -> Result<usize, AllocError>
    ensures { IfOk result (λ n. IsKnown known.old.items known.new.items n pairs.items) }
{
    let hash = hash_of_pairs(pairs.as_slice());
    if let Some(number) = known_pairs(known.as_slice(), hashes.as_slice(), hash, pairs.as_slice()) {
        return Ok(number);
    }
    let number = known.len();
    hashes.push(hash)?;
    known.push(Pairs { pairs })?;
    Ok(number)
}

/// The step of an event from known pairs. The only refusal is that memory ran out.
fn step_then(
    alloc: Global,
    rows: &[Vec<Outcome>],
    known: &mut Vec<Pairs>,
    hashes: &mut Vec<u64>,
    at: usize,
    event: &Event,
) -> Result<Step, AllocError>
    requires { at < length known.old.items }
    ensures grows { IfOk result (λ s. Grows known.old.items known.new.items) }
    ensures leads { IfOk result (λ s. Leads rows.now known.new.items at s) }
{
    let pairs = pairs_after(alloc, rows, known[at].pairs.as_slice(), event)?;
    let after = number_of_pairs(known, hashes, pairs)?;
    Ok(Step {
        event: *event,
        after,
    })
}

/// The steps from known pairs, by the next events of threads. The only refusal is that memory ran out.
fn steps_from(
    alloc: Global,
    rows: &[Vec<Outcome>],
    known: &mut Vec<Pairs>,
    hashes: &mut Vec<u64>,
    at: usize,
) -> Result<Vec<Step>, AllocError>
    requires { at < length known.old.items }
    ensures grows { IfOk result (λ v. Grows known.old.items known.new.items) }
    ensures steps { IfOk result (λ v. AreStepsOf rows.now known.new.items at v.items) }
{
    let next = next_events(alloc, rows, known[at].pairs.as_slice())?;
    let mut steps = Vec::new(alloc);
    for i in 0..next.len() {
        let step = step_then(alloc, rows, known, hashes, at, &next[i])?;
        steps.push(step)?;
    }
    Ok(steps)
}

/// The sets of pairs to which the first leads by the next events of threads, as many as may be known. The only refusal
/// is that memory ran out.
pub(crate) fn table_of(
    alloc: Global,
    rows: &[Vec<Outcome>],
    first: Vec<Pair>,
) -> Result<Table, AllocError>
    ensures steps { IfOk result (λ t. AreSteps rows.now t.known.items t.steps.items) }
    ensures first { IfOk result (λ t. pairs_in (slice_get t.known.items 0) ≡ helds_of first.items) }
{
    let mut known = Vec::new(alloc);
    let mut hashes = Vec::new(alloc);
    let mut steps = Vec::new(alloc);
    hashes.push(hash_of_pairs(first.as_slice()))?;
    known.push(Pairs { pairs: first })?;
    while steps.len() < known.len() && steps.len() < MOST {
        let at = steps.len();
        let row = steps_from(alloc, rows, &mut known, &mut hashes, at)?;
        steps.push(row)?;
    }
    Ok(Table {
        known,
        hashes,
        steps,
    })
}
