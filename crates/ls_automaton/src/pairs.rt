// Pairs of a state and of what pending calls have done, event by event.

ghost use Rattle.std.specs.Prelude.{◌≡◌, ◌++◌, ◌≤◌, ◌∷◌, ◌⊎◌, [], Contains, Decides, IfOk, IsTrue, List, OnOk, length};
ghost use Rattle.std.specs.Prelude.{slice_get};
ghost use Rattle.std.specs.List.{flat_map};
ghost use Rattle.std.specs.declared.alloc.Global.{Global};
ghost use Rattle.std.specs.declared.vec.Vec.{Vec};
ghost use Rattle.ls_linearizable.specs.Judging.{later};
ghost use Rattle.ls_serial.specs.Serial.{IsEnd};
ghost use Rattle.ls_automaton.specs.declared.outcome.Outcome.{Outcome};
ghost use Rattle.ls_automaton.specs.Held.{AreAmong, AreSame, Covers, Held, IsCovered, IsTaking, NoneIsCovered, begins};
ghost use Rattle.ls_automaton.specs.Held.{begun_held, ends, first_held, further, held_of, helds_of, kept};
ghost use Rattle.ls_automaton.specs.Held.{leaves_none};
ghost use Rattle.ls_automaton.specs.Held.{may_take, moved, row_of, taking};
ghost use Rattle.ls_automaton.specs.Layers.{IsLayered, nexts};

use crate::event_hashing::hashed_event;
use crate::outcome::Outcome;
use crate::pending::{
    entry, has_taken, is_call, is_noted, is_open, is_with_effect, with_call, with_effect,
    without_call,
};
use ls_events::event::Event;
use ls_events::same::are_same_events;
use ls_observers::hashing::hashed;
use std::alloc::{AllocError, Global};

/// A state by its number, and what is noted of the calls that are pending there: the end of each that has taken effect,
/// and the first event of each other.
#[derive(Drop)]
pub struct Pair {
    pub(crate) state: usize,
    pub(crate) pending: Vec<Event>,
}

/// The pair where nothing has happened.
pub fn first_pair(alloc: Global) -> Pair
    ensures { held_of result ≡ first_held }
{
    Pair {
        state: 0,
        pending: Vec::new(alloc),
    }
}

/// What a pair becomes where a call begins. The only refusal is that memory ran out.
fn begun_pair(alloc: Global, pair: &Pair, call: &Event) -> Result<Pair, AllocError>
    ensures { IfOk result (λ p. held_of p ≡ begun_held call.now (held_of pair.now)) }
{
    let pending = with_call(alloc, pair.pending.as_slice(), call)?;
    Ok(Pair {
        state: pair.state,
        pending,
    })
}

/// Adds what a pair becomes where a call begins, if it isn't pending. The only refusal is that memory ran out.
fn add_begun(
    alloc: Global,
    pair: &Pair,
    call: &Event,
    found: &mut Vec<Pair>,
) -> Result<(), AllocError>
    ensures { OnOk result (helds_of found.new.items ≡ helds_of found.old.items ++ begins call.now (held_of pair.now)) }
{
    if entry(pair.pending.as_slice(), call).is_none() {
        let begun = begun_pair(alloc, pair, call)?;
        found.push(begun)?;
    }
    Ok(())
}

/// Whether an outcome is the end of a call that is pending and hasn't taken effect.
pub(crate) fn may_take(pair: &Pair, outcome: &Outcome) -> bool
    ensures { result ≡ may_take (held_of pair.now) outcome.now }
{
    is_open(entry(pair.pending.as_slice(), &outcome.end)) && !is_call(&outcome.end)
}

/// What a pair becomes where a call takes effect. The only refusal is that memory ran out.
pub(crate) fn taking_pair(alloc: Global, pair: &Pair, outcome: &Outcome) -> Result<Pair, AllocError>
    ensures { IfOk result (λ p. held_of p ≡ taking (held_of pair.now) outcome.now) }
{
    let pending = with_effect(alloc, pair.pending.as_slice(), &outcome.end)?;
    Ok(Pair {
        state: outcome.after,
        pending,
    })
}

/// Adds what a pair becomes with this end, if the call has taken effect with it. The only refusal is that memory ran
/// out.
fn add_kept(
    alloc: Global,
    pair: &Pair,
    end: &Event,
    found: &mut Vec<Pair>,
) -> Result<(), AllocError>
    ensures { OnOk result (helds_of found.new.items ≡ helds_of found.old.items ++ kept end.now (held_of pair.now)) }
{
    if !is_noted(end, entry(pair.pending.as_slice(), end)) {
        return Ok(());
    }
    let pending = without_call(alloc, pair.pending.as_slice(), end)?;
    found.push(Pair {
        state: pair.state,
        pending,
    })?;
    Ok(())
}

/// The outcomes in a state.
pub fn row_at(rows: &[Vec<Outcome>], state: usize) -> &[Outcome]
    ensures { result.now ≡ row_of (slice_get rows.now state) }
{
    if state < rows.len() {
        rows[state].as_slice()
    } else {
        &[]
    }
}

/// Adds what a pair becomes where the call of an outcome takes effect, if it may, unless that is there. The only
/// refusal is that memory ran out.
fn add_taking(
    alloc: Global,
    pair: &Pair,
    outcome: &Outcome,
    next: &mut Vec<Pair>,
) -> Result<(), AllocError>
    ensures { OnOk result (AreSame (helds_of next.new.items)
        (helds_of next.old.items ++ further (λ q. q ∷ []) (held_of pair.now) outcome.now)) }
{
    if !may_take(pair, outcome) {
        return Ok(());
    }
    let taking = taking_pair(alloc, pair, outcome)?;
    push_new(next, taking)?;
    Ok(())
}

/// Adds what a pair becomes where one pending call takes effect, unless it is there. The only refusal is that memory
/// ran out.
fn add_next(
    alloc: Global,
    rows: &[Vec<Outcome>],
    pair: &Pair,
    next: &mut Vec<Pair>,
) -> Result<(), AllocError>
    ensures { OnOk result (AreSame (helds_of next.new.items)
        (helds_of next.old.items ++ nexts rows.now (held_of pair.now))) }
{
    let row = row_at(rows, pair.state);
    for i in 0..row.len() {
        add_taking(alloc, pair, &row[i], next)?;
    }
    Ok(())
}

/// Adds what a pair becomes with this end to those that are found, if the call has taken effect. Else what it becomes
/// where one pending call takes effect is added to the next ones. The only refusal is that memory ran out.
fn add_by_effect(
    alloc: Global,
    rows: &[Vec<Outcome>],
    pair: &Pair,
    end: &Event,
    next: &mut Vec<Pair>,
    found: &mut Vec<Pair>,
) -> Result<(), AllocError>
    ensures { OnOk result (IsLayered rows.now end.now (held_of pair.now ∷ []) (helds_of next.old.items)
        (helds_of found.old.items) (helds_of next.new.items) (helds_of found.new.items)) }
{
    if has_taken(entry(pair.pending.as_slice(), end)) {
        add_kept(alloc, pair, end, found)?;
        return Ok(());
    }
    add_next(alloc, rows, pair, next)?;
    Ok(())
}

/// What pairs become where one more pending call of each takes effect, each once. To those that are found is added what
/// becomes of pairs with this end in which the call has taken effect. The only refusal is that memory ran out.
fn next_layer(
    alloc: Global,
    rows: &[Vec<Outcome>],
    layer: &[Pair],
    end: &Event,
    found: &mut Vec<Pair>,
) -> Result<Vec<Pair>, AllocError>
    ensures { IfOk result (λ next. IsLayered rows.now end.now (helds_of layer.now) []
        (helds_of found.old.items) (helds_of next.items) (helds_of found.new.items)) }
{
    let mut next = Vec::new(alloc);
    for i in 0..layer.len() {
        add_by_effect(alloc, rows, &layer[i], end, &mut next, found)?;
    }
    Ok(next)
}

/// Adds what pairs become with this end where the call has taken effect. The only refusal is that memory ran out.
fn add_all_kept(
    alloc: Global,
    layer: &[Pair],
    end: &Event,
    found: &mut Vec<Pair>,
) -> Result<(), AllocError>
    ensures { OnOk result (helds_of found.new.items ≡
        helds_of found.old.items ++ flat_map (kept end.now) (helds_of layer.now)) }
{
    for i in 0..layer.len() {
        add_kept(alloc, &layer[i], end, found)?;
    }
    Ok(())
}

/// The greatest of two numbers.
fn greatest(one: usize, other: usize) -> usize
    ensures { (one ≤ result) × (other ≤ result) }
{
    if one < other { other } else { one }
}

/// How many calls are pending.
fn pending_count(pair: &Pair) -> usize
    ensures { result ≡ length (held_of pair.now).pending }
{
    pair.pending.len()
}

/// The most calls that are pending in one of these pairs.
fn most_pending(pairs: &[Pair]) -> usize
    ensures { (p : Held) → Contains (helds_of pairs.now) p → length p.pending ≤ result }
{
    let mut most = 0;
    for i in 0..pairs.len() {
        most = greatest(most, pending_count(&pairs[i]));
    }
    most
}

/// What pairs become with this end: calls take effect, any of those that are pending, up to the one that ends, and no
/// further. What several orders of effects lead to is gone on from once. The only refusal is that memory ran out.
fn all_ended(
    alloc: Global,
    rows: &[Vec<Outcome>],
    pairs: &[Pair],
    end: &Event,
) -> Result<Vec<Pair>, AllocError>
    requires { IsEnd end.now }
    ensures { IfOk result (λ v. AreSame (helds_of v.items)
        (flat_map (λ p. ends rows.now (length p.pending) end.now p) (helds_of pairs.now))) }
{
    let mut found = Vec::new(alloc);
    let mut layer = next_layer(alloc, rows, pairs, end, &mut found)?;
    let most = most_pending(pairs);
    let mut left = most;
    while left > 0 {
        layer = next_layer(alloc, rows, layer.as_slice(), end, &mut found)?;
        left -= 1;
    }
    add_all_kept(alloc, layer.as_slice(), end, &mut found)?;
    Ok(found)
}

/// What pairs become where a call begins. The only refusal is that memory ran out.
fn all_begun(alloc: Global, pairs: &[Pair], call: &Event) -> Result<Vec<Pair>, AllocError>
    ensures { IfOk result (λ v. helds_of v.items ≡ flat_map (begins call.now) (helds_of pairs.now)) }
{
    let mut found = Vec::new(alloc);
    for i in 0..pairs.len() {
        add_begun(alloc, &pairs[i], call, &mut found)?;
    }
    Ok(found)
}

/// What pairs become with this event. The only refusal is that memory ran out.
fn all_moved(
    alloc: Global,
    rows: &[Vec<Outcome>],
    pairs: &[Pair],
    event: &Event,
) -> Result<Vec<Pair>, AllocError>
    ensures { IfOk result (λ v. AreSame (helds_of v.items)
        (flat_map (moved rows.now event.now) (helds_of pairs.now))) }
{
    if is_call(event) {
        let begun = all_begun(alloc, pairs, event)?;
        return Ok(begun);
    }
    let ended = all_ended(alloc, rows, pairs, event)?;
    Ok(ended)
}

/// Whether a pair is the other. True only where it is.
fn is_same_pair(pair: &Pair, other: &Pair) -> bool
    ensures { IsTrue result → held_of pair.now ≡ held_of other.now }
{
    pair.state == other.state && are_same_events(pair.pending.as_slice(), other.pending.as_slice())
}

/// Whether a pair is one of these. True only where it is.
fn has_pair(pairs: &[Pair], pair: &Pair) -> bool
    ensures { IsTrue result → Contains (helds_of pairs.now) (held_of pair.now) }
{
    for i in 0..pairs.len() {
        if is_same_pair(&pairs[i], pair) {
            return true;
        }
    }
    false
}

/// Adds a pair, unless it is there. The only refusal is that memory ran out.
fn push_new(pairs: &mut Vec<Pair>, pair: Pair) -> Result<(), AllocError>
    ensures { OnOk result (AreSame (helds_of pairs.new.items) (helds_of pairs.old.items ++ held_of pair ∷ [])) }
{
    if has_pair(pairs.as_slice(), &pair) {
        return Ok(());
    }
    pairs.push(pair)?;
    Ok(())
}

/// Whether each pair is one of the others. True only where it is.
fn are_among(pairs: &[Pair], others: &[Pair]) -> bool
    ensures { IsTrue result → AreAmong (helds_of pairs.now) (helds_of others.now) }
{
    for i in 0..pairs.len() {
        if !has_pair(others, &pairs[i]) {
            return false;
        }
    }
    true
}

/// Whether the pairs are the others. True only where the same is left of them.
pub fn are_same_pairs(pairs: &[Pair], others: &[Pair]) -> bool
    ensures { IsTrue result → (rows : List (Vec Outcome Global)) →
        leaves_none rows (helds_of pairs.now) ≡ leaves_none rows (helds_of others.now) }
{
    if pairs.len() != others.len() || !are_among(pairs, others) {
        return false;
    }
    are_among(others, pairs)
}

/// The pairs, each once. The only refusal is that memory ran out.
fn each_once(alloc: Global, pairs: Vec<Pair>) -> Result<Vec<Pair>, AllocError>
    ensures none_new { IfOk result (λ v. AreAmong (helds_of v.items) (helds_of pairs.items)) }
    ensures none_lost { IfOk result (λ v. AreAmong (helds_of pairs.items) (helds_of v.items)) }
{
    let mut rest = pairs;
    let mut once = Vec::new(alloc);
    while let Some(pair) = rest.pop() {
        if !has_pair(once.as_slice(), &pair) {
            once.push(pair)?;
        }
    }
    Ok(once)
}

/// Whether a pair becomes the other where the call of an outcome takes effect.
fn is_taking(pair: &Pair, outcome: &Outcome, other: &Pair) -> bool
    ensures { Decides result (IsTaking (held_of pair.now) outcome.now (held_of other.now)) }
{
    outcome.after == other.state
        && may_take(pair, outcome)
        && is_with_effect(
            pair.pending.as_slice(),
            &outcome.end,
            other.pending.as_slice(),
        )
}

/// Whether a pair covers the other.
fn covers(rows: &[Vec<Outcome>], pair: &Pair, other: &Pair) -> bool
    ensures { Decides result (Covers rows.now (held_of pair.now) (held_of other.now)) }
{
    let row = row_at(rows, pair.state);
    for i in 0..row.len() {
        if is_taking(pair, &row[i], other) {
            return true;
        }
    }
    false
}

/// Whether one of these pairs covers the other.
fn is_covered(rows: &[Vec<Outcome>], pairs: &[Pair], other: &Pair) -> bool
    ensures { Decides result (IsCovered rows.now (helds_of pairs.now) (held_of other.now)) }
{
    for i in 0..pairs.len() {
        if covers(rows, &pairs[i], other) {
            return true;
        }
    }
    false
}

/// The pair again. The only refusal is that memory ran out.
fn copied(alloc: Global, pair: &Pair) -> Result<Pair, AllocError>
    ensures { IfOk result (λ p. held_of p ≡ held_of pair.now) }
{
    let mut pending = Vec::with_capacity(alloc, pair.pending.len())?;
    for i in 0..pair.pending.len() {
        pending.push(pair.pending[i])?;
    }
    Ok(Pair {
        state: pair.state,
        pending,
    })
}

/// The pairs that no other one covers. The only refusal is that memory ran out.
fn uncovered(alloc: Global, rows: &[Vec<Outcome>], pairs: &[Pair]) -> Result<Vec<Pair>, AllocError>
    ensures none_new { IfOk result (λ v. AreAmong (helds_of v.items) (helds_of pairs.now)) }
    ensures none_lost { IfOk result (λ v. (q : Held) → Contains (helds_of pairs.now) q →
        Contains (helds_of v.items) q ⊎ IsCovered rows.now (helds_of pairs.now) q) }
    ensures none_covered { IfOk result (λ v. (q : Held) → Contains (helds_of v.items) q →
        IsCovered rows.now (helds_of pairs.now) q → ⊥) }
{
    let mut left = Vec::new(alloc);
    for i in 0..pairs.len() {
        let pair = &pairs[i];
        if !is_covered(rows, pairs, pair) {
            left.push(copied(alloc, pair)?)?;
        }
    }
    Ok(left)
}

/// What is left of pairs after an event, but for those that another one covers. The only refusal is that memory ran
/// out.
pub fn pairs_after(
    alloc: Global,
    rows: &[Vec<Outcome>],
    pairs: &[Pair],
    event: &Event,
) -> Result<Vec<Pair>, AllocError>
    ensures left { IfOk result (λ v. leaves_none rows.now (helds_of v.items) ≡
        later (leaves_none rows.now (helds_of pairs.now)) event.now) }
    ensures none_covered { IfOk result (λ v. NoneIsCovered rows.now (helds_of v.items)) }
{
    let found = all_moved(alloc, rows, pairs, event)?;
    let once = each_once(alloc, found)?;
    let left = uncovered(alloc, rows, once.as_slice())?;
    Ok(left)
}

/// A number by which a pair is found. Nothing depends on it.
fn hash_of_pair(pair: &Pair) -> u64 {
    let mut hash = hashed(0, pair.state as u64);
    for i in 0..pair.pending.len() {
        hash = hashed_event(hash, &pair.pending[i]);
    }
    hash
}

/// A number by which pairs are found, in whatever order they stand. Nothing depends on it.
pub fn hash_of_pairs(pairs: &[Pair]) -> u64 {
    let mut hash = pairs.len() as u64;
    for i in 0..pairs.len() {
        hash = hash.wrapping_add(hash_of_pair(&pairs[i]));
    }
    hash
}
