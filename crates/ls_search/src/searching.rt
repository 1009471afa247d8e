// The search: what each thread does after each state.

ghost use Rattle.std.specs.Prelude.{◌≡◌, ◌<◌, ◌≤◌, ◌+◌, IfOk, IfSome, IfNone, IsTrue, OnOk, Some, [], false, length};
ghost use Rattle.std.specs.Prelude.{map};
ghost use Rattle.std.specs.Prelude.{nat_eq, true, if◌then◌else◌, slice_get};
ghost use Rattle.ls_checked.specs.Plain.{plain_file};
ghost use Rattle.ls_checked.specs.PlainProgram.{plain_program};
ghost use Rattle.ls_meaning.specs.Constants.{FileHasConstants};
ghost use Rattle.ls_meaning.specs.Runs.{has_ended};
ghost use Rattle.ls_search_laws.specs.Configuration.{stride};
ghost use Rattle.ls_search_laws.specs.Noticing.{Noticed, noticed_after};
ghost use Rattle.ls_transitions.specs.declared.moves.Step.{Step as StepValue};
ghost use Rattle.ls_transitions.specs.declared.moves.Move.TheVariants.{Acts};
ghost use Rattle.ls_transitions.specs.Tables.{Grows, Keeps};
ghost use Rattle.ls_transitions.specs.Seen.{table_of};
ghost use Rattle.ls_search.specs.declared.places.Node.{Node as NodeValue};
ghost use Rattle.ls_search.specs.Listed.{AreFull, FoundAs, FoundBy};
ghost use Rattle.ls_search.specs.Places.{IsThere, configuration_of};
ghost use Rattle.ls_search.specs.Strides.{ActsBy, HasStarted, IsStrideBy};
ghost use Rattle.ls_search.specs.Searched.{ActsIn, IsLooked, IsNode, IsOther, Reaches, noticed_at};
ghost use Rattle.ls_search.specs.Searched.{seen_with};
ghost use Rattle.ls_search.specs.SeenSearch.{IsSoundSearch, pairs_of};

use crate::advancing::{settle, take};
use crate::keeping::Nodes;
use crate::moving::move_of;
use crate::noting::{Pool, note};
use crate::places::{Looked, Node, NumberedState, Seen};
use ls_checked::program::Program;
use ls_checked::tree::File;
use ls_observers::observer::Observer;
use ls_renaming::renumbering::Renumbering;
use ls_transitions::moves::{Move, Step};
use ls_transitions::transitions::Transitions;
use std::alloc::{AllocError, Global};

/// What a search goes by.
#[derive(Drop)]
pub struct Ground<'a, O> {
    pub alloc: Global,
    pub observer: &'a O,
    pub file: &'a File,
    pub program: &'a Program,
    /// How many threads there are, the setup with them.
    pub threads: u8,
    /// The most states.
    pub limit: usize,
    /// The most steps that are taken at once. More are sound, and so are fewer.
    pub most: usize,
}

/// What a search has found: states, and what is seen after the first of them.
#[derive(Drop)]
pub struct Search<'a, N> {
    pub transitions: Transitions<'a>,
    pub renumbering: Renumbering,
    pub pool: Pool<N>,
    pub found: Nodes,
    pub seen: Vec<Seen>,
}

/// A state after an action, and how many steps were taken at once after that.
#[derive(Drop)]
pub(crate) struct After {
    pub(crate) place: NumberedState,
    pub(crate) steps: usize,
}

/// The state at a place.
pub fn place_at(nodes: &[Node], at: usize) -> &NumberedState
    requires { at < length nodes.now }
    ensures { (n : NodeValue) × (slice_get nodes.now at ≡ Some n) × (result.now ≡ n.place) }
{
    &nodes[at].place
}

/// The same works.
fn copy_works(alloc: Global, works: &[usize]) -> Result<Vec<usize>, AllocError>
    ensures { IfOk result (λ v. v.items ≡ works.now) }
{
    let mut copies = Vec::new(alloc);
    for work in works {
        copies.push(*work)?;
    }
    Ok(copies)
}

/// The same state. The only refusal is that memory ran out.
pub fn copy_place(alloc: Global, place: &NumberedState) -> Result<NumberedState, AllocError>
    ensures store { IfOk result (λ p. p.store ≡ place.now.store) }
    ensures works { IfOk result (λ p. p.works.items ≡ place.now.works.items) }
    ensures noted { IfOk result (λ p. p.noted ≡ place.now.noted) }
{
    let works = copy_works(alloc, &place.works)?;
    Ok(NumberedState {
        store: place.store,
        works,
        noted: place.noted,
    })
}

/// Whether a thread has started: the setup has, and the others have where it has ended.
fn has_started(thread: usize, ended: bool) -> bool
    ensures { result ≡ (if nat_eq thread 0 then true else ended) }
{
    thread == 0 || ended
}

/// What a thread's next step does, where it is known whether the setup has ended. A refusal is that memory ran out, or
/// that a store or a work has no number left.
pub fn step_from<'a>(
    alloc: Global,
    transitions: &mut Transitions<'a>,
    place: &NumberedState,
    thread: usize,
    ended: bool,
) -> Result<Move, AllocError>
    requires there { IsThere (table_of transitions.old) place.now }
    requires ended { ended ≡ has_ended ((configuration_of (table_of transitions.old) place.now).continues 0 []) }
    ensures stride { IfOk result
        (λ m. IsStrideBy (table_of transitions.new) (configuration_of (table_of transitions.old) place.now)
        place.now.works.items thread m
        (stride (table_of transitions.old).file (configuration_of (table_of transitions.old) place.now) thread)) }
    ensures started { IfOk result (λ m. (s : StepValue) → m ≡ Acts s →
        HasStarted (configuration_of (table_of transitions.old) place.now) thread) }
    ensures grows { Grows (table_of transitions.old) (table_of transitions.new) }
{
    if !has_started(thread, ended) {
        return Ok(Move::Ended);
    }
    move_of(alloc, transitions, place, thread)
}

/// Numbers the objects of a state as they are reached.
pub fn renumber<'a>(
    alloc: Global,
    transitions: &mut Transitions<'a>,
    renumbering: &mut Renumbering,
    place: NumberedState,
) -> Result<NumberedState, AllocError>
    requires there { IsThere (table_of transitions.old) place }
    requires constants { FileHasConstants (table_of transitions.old).file }
    ensures other { IfOk result (λ p. IsOther (configuration_of (table_of transitions.new) p)
        (configuration_of (table_of transitions.old) place)) }
    ensures there { IfOk result (λ p. IsThere (table_of transitions.new) p) }
    ensures width { IfOk result (λ p. length p.works.items ≡ length place.works.items) }
    ensures noted { IfOk result (λ p. p.noted ≡ place.noted) }
    ensures grows { Grows (table_of transitions.old) (table_of transitions.new) }
{
    match renumbering.renumber(alloc, transitions, place.store, &place.works)? {
        None => Ok(place),
        Some(numbered) => Ok(NumberedState {
            store: numbered.store,
            works: numbered.works,
            noted: place.noted,
        }),
    }
}

/// The state after a thread's action, and after its steps at once after that.
pub(crate) fn go_on<'a, O: Observer>(
    ground: &Ground<'_, O>,
    transitions: &mut Transitions<'a>,
    renumbering: &mut Renumbering,
    pool: &mut Pool<O::Noted>,
    place: &NumberedState,
    thread: u8,
    step: &Step,
) -> Result<After, AllocError>
    requires there { IsThere (table_of transitions.old) place.now }
    requires noted { place.now.noted < length pool.old.values.items }
    requires within { thread < length place.now.works.items }
    requires constants { FileHasConstants (table_of transitions.old).file }
    requires started { HasStarted (configuration_of (table_of transitions.old) place.now) thread }
    requires acts { ActsBy (table_of transitions.old) place.now.works.items thread step.now
        (stride (table_of transitions.old).file (configuration_of (table_of transitions.old) place.now) thread) }
    ensures reaches { IfOk result (λ a. Reaches (table_of transitions.old).file
        (noticed_after (O.first ground.now.observer.now) (O.next ground.now.observer.now) (table_of
        transitions.old).file
        (table_of transitions.old).program
        (noticed_at (O.first ground.now.observer.now) (table_of transitions.old)
        (map (O.stands ground.now.observer.now) pool.old.values.items) place.now) thread)
        (noticed_at (O.first ground.now.observer.now) (table_of transitions.new)
        (map (O.stands ground.now.observer.now) pool.new.values.items) a.place) thread a.steps) }
    ensures node { IfOk result (λ a. IsNode (table_of transitions.new)
        (map (O.stands ground.now.observer.now) pool.new.values.items) (length place.now.works.items) a.place) }
    ensures few { IfOk result (λ a. a.steps ≤ ground.now.most) }
    ensures grows { Grows (table_of transitions.old) (table_of transitions.new) }
    ensures keeps { Keeps (map (O.stands ground.now.observer.now) pool.old.values.items)
        (map (O.stands ground.now.observer.now) pool.new.values.items) }
{
    let mut place = copy_place(ground.alloc, place)?;
    take(&mut place, thread as usize, step);
    let noted = place.noted;
    place.noted = note(
        ground.alloc,
        ground.observer,
        pool,
        noted,
        thread as usize,
        &step.action,
    )?;
    let steps = settle(ground.alloc, transitions, &mut place, thread, ground.most)?;
    let place = renumber(ground.alloc, transitions, renumbering, place)?;
    Ok(After { place, steps })
}

/// Keeps the state after a thread's action at the state at a place. Answers false where there are as many as there may
/// be, or where their stores have over 4,194,304 objects together.
fn reach<O: Observer>(
    ground: &Ground<'_, O>,
    search: &mut Search<'_, O::Noted>,
    at: usize,
    thread: u8,
    step: &Step,
) -> Result<bool, AllocError>
    requires at { at < length search.old.found.nodes.items }
    requires within { thread < ground.now.threads }
    requires most { ground.now.most ≤ 4096 }
    requires sound { IsSoundSearch (O.first ground.now.observer.now) (O.next ground.now.observer.now)
        (O.stands ground.now.observer.now) (plain_file ground.now.file.now) (plain_program ground.now.program.now)
        ground.now.threads search.old }
    requires started { (n : NodeValue) → slice_get search.old.found.nodes.items at ≡ Some n →
        HasStarted (configuration_of (table_of search.old.transitions) n.place) thread }
    requires acts { (n : NodeValue) → slice_get search.old.found.nodes.items at ≡ Some n →
        ActsBy (table_of search.old.transitions) n.place.works.items thread step.now
        (stride (table_of search.old.transitions).file (configuration_of (table_of search.old.transitions) n.place)
        thread) }
    ensures sound { OnOk result (IsSoundSearch (O.first ground.now.observer.now) (O.next ground.now.observer.now)
        (O.stands ground.now.observer.now) (plain_file ground.now.file.now) (plain_program ground.now.program.now)
        ground.now.threads search.new) }
    ensures keeps { OnOk result
        (Keeps (pairs_of (O.first ground.now.observer.now) (O.stands ground.now.observer.now) search.old)
        (pairs_of (O.first ground.now.observer.now) (O.stands ground.now.observer.now) search.new)) }
    ensures reached { IfOk result (λ kept. IsTrue kept → (p : Noticed O.State) →
        slice_get (pairs_of (O.first ground.now.observer.now) (O.stands ground.now.observer.now) search.old) at ≡ Some
        p →
        ActsIn (O.first ground.now.observer.now) (O.next ground.now.observer.now) (plain_file ground.now.file.now)
        (plain_program ground.now.program.now)
        (pairs_of (O.first ground.now.observer.now) (O.stands ground.now.observer.now) search.new) p thread) }
    ensures full { IfOk result (λ kept. kept ≡ false →
        AreFull (table_of search.new.transitions) ground.now.limit search.new.found.nodes.items) }
    ensures found { OnOk result (FoundBy search.old.found.nodes.items search.new.found.nodes.items at thread
        ground.now.most) }
    ensures same { IfOk result (λ kept. kept ≡ false →
        search.new.found.nodes.items ≡ search.old.found.nodes.items) }
    ensures few { OnOk result (length search.old.found.nodes.items ≤ ground.now.limit →
        length search.new.found.nodes.items ≤ ground.now.limit) }
    ensures seen { search.new.seen.items ≡ search.old.seen.items }
{
    let place = place_at(&search.found.nodes, at);
    let after = go_on(
        ground,
        &mut search.transitions,
        &mut search.renumbering,
        &mut search.pool,
        place,
        thread,
        step,
    )?;
    let node = Node {
        place: after.place,
        before: at,
        thread,
        steps: after.steps + 1,
    };
    let kept = search
        .found
        .keep(ground.alloc, &search.transitions, ground.limit, node)?;
    Ok(kept)
}

/// Looks at what a thread does at the state at a place, where it is known whether the setup has ended there. If it
/// acts, the state after that is kept. Answers nothing where there are as many states as there may be, or where their
/// stores have over 4,194,304 objects together.
pub(crate) fn look<O: Observer>(
    ground: &Ground<'_, O>,
    search: &mut Search<'_, O::Noted>,
    at: usize,
    thread: u8,
    ended: bool,
) -> Result<Option<Looked>, AllocError>
    requires at { at < length search.old.found.nodes.items }
    requires within { thread < ground.now.threads }
    requires most { ground.now.most ≤ 4096 }
    requires sound { IsSoundSearch (O.first ground.now.observer.now) (O.next ground.now.observer.now)
        (O.stands ground.now.observer.now) (plain_file ground.now.file.now) (plain_program ground.now.program.now)
        ground.now.threads search.old }
    requires ended { (p : Noticed O.State) →
        slice_get (pairs_of (O.first ground.now.observer.now) (O.stands ground.now.observer.now) search.old) at ≡ Some
        p →
        ended ≡ has_ended (p.configuration.continues 0 []) }
    ensures sound { OnOk result (IsSoundSearch (O.first ground.now.observer.now) (O.next ground.now.observer.now)
        (O.stands ground.now.observer.now) (plain_file ground.now.file.now) (plain_program ground.now.program.now)
        ground.now.threads search.new) }
    ensures keeps { OnOk result
        (Keeps (pairs_of (O.first ground.now.observer.now) (O.stands ground.now.observer.now) search.old)
        (pairs_of (O.first ground.now.observer.now) (O.stands ground.now.observer.now) search.new)) }
    ensures looked { IfOk result (λ found. IfSome found (λ l. (p : Noticed O.State) →
        slice_get (pairs_of (O.first ground.now.observer.now) (O.stands ground.now.observer.now) search.old) at ≡ Some
        p →
        IsLooked (O.first ground.now.observer.now) (O.next ground.now.observer.now) (plain_file ground.now.file.now)
        (plain_program ground.now.program.now)
        (pairs_of (O.first ground.now.observer.now) (O.stands ground.now.observer.now) search.new) p thread l)) }
    ensures full { IfOk result (λ found. IfNone found
        (AreFull (table_of search.new.transitions) ground.now.limit search.new.found.nodes.items)) }
    ensures found { IfOk result (λ found. IfSome found (λ l.
        FoundAs search.old.found.nodes.items search.new.found.nodes.items at thread ground.now.most l)) }
    ensures same { IfOk result (λ found. IfNone found
        (search.new.found.nodes.items ≡ search.old.found.nodes.items)) }
    ensures few { OnOk result (length search.old.found.nodes.items ≤ ground.now.limit →
        length search.new.found.nodes.items ≤ ground.now.limit) }
    ensures seen { search.new.seen.items ≡ search.old.seen.items }
{
    let place = place_at(&search.found.nodes, at);
    let made = step_from(
        ground.alloc,
        &mut search.transitions,
        place,
        thread as usize,
        ended,
    )?;
    match made {
        Move::Ended => Ok(Some(Looked::Idle)),
        Move::Trapped => Ok(Some(Looked::Idle)),
        Move::Waits => Ok(Some(Looked::Waits)),
        Move::Acts(step) => {
            let kept = reach(ground, search, at, thread, &step)?;
            if !kept {
                return Ok(None);
            }
            Ok(Some(Looked::Acts))
        }
    }
}

/// What is seen with one more thread.
pub fn seen_with(seen: Seen, looked: Looked) -> Seen
    ensures { result ≡ seen_with seen looked }
{
    match looked {
        Looked::Idle => seen,
        Looked::Waits => Seen {
            acts: seen.acts,
            waits: true,
        },
        Looked::Acts => Seen {
            acts: true,
            waits: seen.waits,
        },
    }
}
