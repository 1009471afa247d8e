// The states of a program as a space of a graph, in which also a step that waits is an edge.

ghost use Rattle.std.specs.Prelude.{◌≡◌, ◌≢◌, ◌<◌, IfNone, IfOk, IfSome, IsTrue, [], false, length, slice_get};
ghost use Rattle.std.specs.Prelude.{slice_set, true};
ghost use Rattle.ls_checked.specs.Plain.{plain_file};
ghost use Rattle.ls_meaning.specs.Constants.{FileHasConstants};
ghost use Rattle.ls_meaning.specs.Runs.{has_ended};
ghost use Rattle.ls_search_laws.specs.Configuration.{Configuration, stride};
ghost use Rattle.ls_transitions.specs.Tables.{Grows};
ghost use Rattle.ls_transitions.specs.Seen.{table_of};
ghost use Rattle.ls_search.specs.Objects.{IsOther};
ghost use Rattle.ls_search.specs.Places.{IsThere, configuration_of};
ghost use Rattle.ls_search.specs.Strides.{ActsBy, IsStrideBy};
ghost use Rattle.ls_progress.specs.Sorts.{sort_at, sort_of_action};
ghost use Rattle.ls_progress.specs.Steps.{IsIn, IsPlaced, IsSetBack, NoEnd, Rests, StepsTo, file_in, first_in};
ghost use Rattle.ls_progress.specs.Steps.{stands_in};
ghost use Rattle.ls_progress.specs.declared.sorts.Sort.TheVariants.{Waits};

use crate::sorts::{Sort, mark_of, sort_of};
use ls_checked::program::Program;
use ls_checked::tree::File;
use ls_graph::marks::{is_marked, mark};
use ls_graph::space::{Space, Step as Leading};
use ls_observers::hashing::hashed;
use ls_renaming::renumbering::Renumbering;
use ls_search::advancing::take;
use ls_search::moving::has_setup_ended;
use ls_search::places::NumberedState;
use ls_search::searching::{copy_place, renumber, step_from};
use ls_search::space::Kept;
use ls_transitions::moves::{Move, Step};
use ls_transitions::transitions::Transitions;
use std::alloc::{AllocError, Global};

/// What numbers stand for.
#[derive(Drop)]
pub struct Tables<'a> {
    pub transitions: Transitions<'a>,
    pub renumbering: Renumbering,
    /// By the number of a store: whether its objects are counted for a state.
    pub counted: Vec<bool>,
}

/// The states of a program of a file with so many threads. Where threads begin their calls again, one that has ended
/// goes on as it does at the root, before the first step.
#[derive(Drop)]
pub struct EndsSpace<'a> {
    pub file: &'a File,
    pub program: &'a Program,
    pub threads: u8,
    pub again: bool,
    pub root: NumberedState,
}

/// How many objects are counted for a state: those of its store, or none where they are counted for another state.
fn weigh(
    transitions: &Transitions<'_>,
    counted: &mut Vec<bool>,
    place: &NumberedState,
) -> Result<usize, AllocError>
    requires { IsThere (table_of transitions.now) place.now }
{
    if is_marked(counted, place.store) {
        return Ok(0);
    }
    mark(counted, place.store)?;
    Ok(transitions.store_at(place.store).things.len())
}

/// What a thread's next step does at a state.
fn move_from<'a>(
    alloc: Global,
    transitions: &mut Transitions<'a>,
    place: &NumberedState,
    thread: u8,
) -> Result<Move, AllocError>
    requires there { IsThere (table_of transitions.old) place.now }
    ensures stride { IfOk result
        (λ m. IsStrideBy (table_of transitions.new) (configuration_of (table_of transitions.old) place.now)
        place.now.works.items thread m
        (stride (table_of transitions.old).file (configuration_of (table_of transitions.old) place.now) thread)) }
    ensures grows { Grows (table_of transitions.old) (table_of transitions.new) }
{
    let ended = has_setup_ended(alloc, transitions, place)?;
    let made = step_from(alloc, transitions, place, thread as usize, ended)?;
    Ok(made)
}

/// The state after a step that acts.
fn after<'a>(
    alloc: Global,
    tables: &mut Tables<'a>,
    place: &NumberedState,
    thread: u8,
    step: &Step,
) -> Result<NumberedState, AllocError>
    requires within { thread < length place.now.works.items }
    requires there { IsThere (table_of tables.old.transitions) place.now }
    requires constants { FileHasConstants (table_of tables.old.transitions).file }
    requires acts { ActsBy (table_of tables.old.transitions) place.now.works.items thread step.now
        (stride (table_of tables.old.transitions).file (configuration_of (table_of tables.old.transitions) place.now)
        thread) }
    ensures other { IfOk result (λ p. IsOther (configuration_of (table_of tables.new.transitions) p)
        (stride (table_of tables.old.transitions).file (configuration_of (table_of tables.old.transitions) place.now)
        thread).after) }
    ensures there { IfOk result (λ p. IsThere (table_of tables.new.transitions) p) }
    ensures width { IfOk result (λ p. length p.works.items ≡ length place.now.works.items) }
    ensures grows { Grows (table_of tables.old.transitions) (table_of tables.new.transitions) }
{
    let mut place = copy_place(alloc, place)?;
    take(&mut place, thread as usize, step);
    let place = renumber(
        alloc,
        &mut tables.transitions,
        &mut tables.renumbering,
        place,
    )?;
    Ok(place)
}

/// Where a step leads that acts.
fn follow<'a>(
    alloc: Global,
    tables: &mut Tables<'a>,
    place: &NumberedState,
    thread: u8,
    step: &Step,
) -> Result<Leading<Kept>, AllocError>
    requires within { thread < length place.now.works.items }
    requires there { IsThere (table_of tables.old.transitions) place.now }
    requires constants { FileHasConstants (table_of tables.old.transitions).file }
    requires acts { ActsBy (table_of tables.old.transitions) place.now.works.items thread step.now
        (stride (table_of tables.old.transitions).file (configuration_of (table_of tables.old.transitions) place.now)
        thread) }
    ensures mark { IfOk result (λ s. sort_at s.mark ≡ sort_of_action step.now.action) }
    ensures other { IfOk result (λ s. IsOther (configuration_of (table_of tables.new.transitions) s.node.place)
        (stride (table_of tables.old.transitions).file (configuration_of (table_of tables.old.transitions) place.now)
        thread).after) }
    ensures there { IfOk result (λ s. IsThere (table_of tables.new.transitions) s.node.place) }
    ensures width { IfOk result (λ s. length s.node.place.works.items ≡ length place.now.works.items) }
    ensures grows { Grows (table_of tables.old.transitions) (table_of tables.new.transitions) }
{
    let sort = sort_of(&step.action)?;
    let mark = mark_of(sort)?;
    let place = after(alloc, tables, place, thread, step)?;
    let weight = weigh(&tables.transitions, &mut tables.counted, &place)?;
    let node = Kept { place, weight };
    Ok(Leading { node, mark })
}

/// Where a step leads that waits: to the state where it is made.
fn stay(alloc: Global, place: &NumberedState) -> Result<Leading<Kept>, AllocError>
    ensures mark { IfOk result (λ s. sort_at s.mark ≡ Waits) }
    ensures store { IfOk result (λ s. s.node.place.store ≡ place.now.store) }
    ensures works { IfOk result (λ s. s.node.place.works.items ≡ place.now.works.items) }
{
    let mark = mark_of(Sort::Waits)?;
    let place = copy_place(alloc, place)?;
    let node = Kept { place, weight: 0 };
    Ok(Leading { node, mark })
}

/// Where a thread leads from a state of the program: what it does where it acts or waits.
fn lead_once<'a>(
    space: &EndsSpace<'_>,
    alloc: Global,
    tables: &mut Tables<'a>,
    place: &NumberedState,
    thread: u8,
) -> Result<Option<Leading<Kept>>, AllocError>
    requires { IsPlaced (plain_file space.now.file.now) space.now.threads (table_of tables.old.transitions) place.now }
    ensures grows { Grows (table_of tables.old.transitions) (table_of tables.new.transitions) }
    ensures rests { IfOk result (λ o. IfNone o (Rests (plain_file space.now.file.now)
        (configuration_of (table_of tables.old.transitions) place.now) thread)) }
    ensures known { IfOk result (λ o. IfSome o (λ s. IsPlaced (plain_file space.now.file.now) space.now.threads
        (table_of tables.new.transitions) s.node.place)) }
    ensures leads { IfOk result (λ o. IfSome o (λ s. StepsTo (plain_file space.now.file.now)
        (configuration_of (table_of tables.old.transitions) place.now) thread s.mark
        (configuration_of (table_of tables.new.transitions) s.node.place))) }
{
    match move_from(alloc, &mut tables.transitions, place, thread)? {
        Move::Ended => Ok(None),
        Move::Trapped => Ok(None),
        Move::Waits => {
            let led = stay(alloc, place)?;
            Ok(Some(led))
        }
        Move::Acts(step) => {
            if thread as usize >= place.works.len() {
                return Err(AllocError);
            }
            let led = follow(alloc, tables, place, thread, &step)?;
            Ok(Some(led))
        }
    }
}

/// Whether a thread has ended without a trap.
fn has_thread_ended<'a>(
    alloc: Global,
    transitions: &mut Transitions<'a>,
    place: &NumberedState,
    thread: usize,
) -> Result<bool, AllocError>
    requires there { IsThere (table_of transitions.old) place.now }
    requires within { thread < length place.now.works.items }
    ensures ended { IfOk result
        (λ b. b ≡ has_ended ((configuration_of (table_of transitions.old) place.now).continues thread [])) }
    ensures grows { Grows (table_of transitions.old) (table_of transitions.new) }
{
    let mut works = Vec::new(alloc);
    works.push(place.works[thread])?;
    let alone = NumberedState {
        store: place.store,
        works,
        noted: 0,
    };
    has_setup_ended(alloc, transitions, &alone)
}

/// Puts the work of a thread.
fn put_work(place: &mut NumberedState, thread: usize, work: usize)
    requires { thread < length place.old.works.items }
    ensures store { place.new.store ≡ place.old.store }
    ensures works { place.new.works.items ≡ slice_set place.old.works.items thread work }
{
    place.works[thread] = work;
}

/// The work of a thread at a state, if it has one.
fn work_at(place: &NumberedState, thread: usize) -> Option<usize>
    ensures { result ≡ slice_get place.now.works.items thread }
{
    if thread >= place.works.len() {
        return None;
    }
    Some(place.works[thread])
}

/// The state, where a thread that has ended is back at its first call.
fn set_back<'a>(
    space: &EndsSpace<'_>,
    alloc: Global,
    transitions: &mut Transitions<'a>,
    place: &NumberedState,
    thread: usize,
) -> Result<NumberedState, AllocError>
    requires known { IsIn space.now (table_of transitions.old) place.now }
    requires within { thread < length place.now.works.items }
    requires other { thread ≢ 0 }
    ensures placed { IfOk result (λ p. IsPlaced (file_in space.now) space.now.threads (table_of transitions.new) p) }
    ensures back { IfOk result (λ p. IsSetBack (first_in space.now)
        (configuration_of (table_of transitions.old) place.now) (configuration_of (table_of transitions.new) p)
        thread) }
    ensures grows { Grows (table_of transitions.old) (table_of transitions.new) }
{
    let ended = has_thread_ended(alloc, transitions, place, thread)?;
    let mut back = copy_place(alloc, place)?;
    if ended {
        let Some(work) = work_at(&space.root, thread) else {
            return Err(AllocError);
        };
        put_work(&mut back, thread, work);
        return Ok(back);
    }
    Ok(back)
}

/// Whether a thread begins its calls again.
fn begins_again(space: &EndsSpace<'_>, thread: u8) -> bool
    ensures on { IsTrue result → space.now.again ≡ true }
    ensures other { IsTrue result → thread ≢ 0 }
    ensures off { result ≡ false → space.now.again ≡ true → thread ≢ 0 → ⊥ }
{
    if !space.again {
        return false;
    }
    thread != 0
}

/// Where a thread leads from a state.
fn lead<'a>(
    space: &EndsSpace<'_>,
    alloc: Global,
    tables: &mut Tables<'a>,
    place: &NumberedState,
    thread: u8,
) -> Result<Option<Leading<Kept>>, AllocError>
    requires { IsIn space.now (table_of tables.old.transitions) place.now }
    ensures grows { Grows (table_of tables.old.transitions) (table_of tables.new.transitions) }
    ensures rests { IfOk result (λ o. IfNone o (Rests (file_in space.now)
        (stands_in space.now (configuration_of (table_of tables.old.transitions) place.now)) thread)) }
    ensures known { IfOk result (λ o. IfSome o (λ s. IsPlaced (file_in space.now) space.now.threads
        (table_of tables.new.transitions) s.node.place)) }
    ensures leads { IfOk result (λ o. IfSome o (λ s. StepsTo (file_in space.now)
        (stands_in space.now (configuration_of (table_of tables.old.transitions) place.now)) thread s.mark
        (stands_in space.now (configuration_of (table_of tables.new.transitions) s.node.place)))) }
{
    if begins_again(space, thread) {
        if thread as usize >= place.works.len() {
            return Err(AllocError);
        }
        let back = set_back(
            space,
            alloc,
            &mut tables.transitions,
            place,
            thread as usize,
        )?;
        return lead_once(space, alloc, tables, &back, thread);
    }
    lead_once(space, alloc, tables, place, thread)
}

/// Whether works are the same, one by one.
fn are_same_works(works: &[usize], others: &[usize]) -> bool
    ensures { IsTrue result → works.now ≡ others.now }
{
    works == others
}

/// Whether a state is the other.
fn is_same_place(place: &NumberedState, other: &NumberedState) -> bool
    ensures store { IsTrue result → place.now.store ≡ other.now.store }
    ensures works { IsTrue result → place.now.works.items ≡ other.now.works.items }
{
    place.store == other.store && are_same_works(&place.works, &other.works)
}

const START: u64 = 0xcbf2_9ce4_8422_2325;

/// A number made of a state, by which it is found. Nothing depends on it.
fn hash_of(place: &NumberedState) -> u64 {
    let mut hash = hashed(START, place.store as u64);
    for work in &place.works {
        hash = hashed(hash, *work as u64);
    }
    hash
}

impl<'a> Space for EndsSpace<'a> {
    ghost State = { Configuration };

    ghost Rests = { λ s. Rests (file_in s) };

    ghost Leads = { λ s. StepsTo (file_in s) };

    ghost Ends = { λ s. NoEnd };

    type Tables = Tables<'a>;

    type Node = Kept;

    ghost IsKnown = { λ s t n. IsIn s (table_of t.transitions) n.place };

    ghost stands = { λ s t n. stands_in s (configuration_of (table_of t.transitions) n.place) };

    ghost weighs = { λ n. n.weight };

    fn next(
        &self,
        alloc: Global,
        tables: &mut Tables<'a>,
        node: &Kept,
        actor: u8,
    ) -> Result<Option<Leading<Kept>>, AllocError> {
        lead(self, alloc, tables, &node.place, actor)
    }

    fn is_end(
        &self,
        _alloc: Global,
        _tables: &mut Tables<'a>,
        _node: &Kept,
    ) -> Result<bool, AllocError> {
        Ok(false)
    }

    fn is_same(&self, node: &Kept, other: &Kept) -> bool {
        is_same_place(&node.place, &other.place)
    }

    fn hash(&self, node: &Kept) -> u64 {
        hash_of(&node.place)
    }

    fn weight(&self, node: &Kept) -> usize {
        node.weight
    }
}
