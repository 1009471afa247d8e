// Objects numbered in the order in which they are reached.

ghost use Rattle.std.specs.Prelude.{◌≡◌, ◌<◌, ℕ, IfOk, IfSome, IsTrue, Some, length, slice_get};
ghost use Rattle.ls_meaning.specs.Renamings.{IsRenaming};
ghost use Rattle.ls_search_laws.specs.Renaming.{IsRenamedStore};
ghost use Rattle.ls_source.specs.SeenThread.{thread_of};
ghost use Rattle.ls_source_store.specs.SeenStore.{store_of};
ghost use Rattle.ls_transitions.specs.Tables.{Grows};
ghost use Rattle.ls_transitions.specs.Seen.{table_of};
ghost use Rattle.ls_works.specs.Frames.{ThreadHasConstants, renamed_thread};
ghost use Rattle.ls_renaming.specs.Seen.{names_of};
ghost use Rattle.ls_renaming.specs.Renumbered.{ArePlaced, AreWorksThere, IsPlaced, IsRenumbered, IsStoreThere};
ghost use Rattle.ls_renaming.specs.Renumbered.{IsWorkThere};

use crate::constants::thread_has_constants;
use crate::names::Names;
use crate::phases::rename_thread;
use crate::references::objects_of;
use crate::stores::{are_other_things, chosen_store};
use crate::walk::Walk;
use ls_source::thread::Thread;
use ls_source_store::store::Store;
use ls_transitions::threads::is_same_thread;
use ls_transitions::transitions::Transitions;
use ls_works::values::are_same_values;
use std::alloc::{AllocError, Global};

/// The numbers of a store and of works that are others under other numbers of objects.
#[derive(Drop)]
pub struct Renumbered {
    pub store: usize,
    pub works: Vec<usize>,
}

/// What is kept to number objects: those that each work names.
#[derive(Drop)]
pub struct Renumbering {
    objects: Vec<Option<Vec<u64>>>,
}

/// The names of what is new by what was there, and the other way round.
#[derive(Drop)]
struct Both {
    names: Names,
    back: Names,
}

fn both_ways(walk: Walk) -> Both {
    let Walk { met, places, .. } = walk;
    let count = met.len() as u64;
    let others = places.len() as u64;
    Both {
        names: Names {
            numbers: met,
            others,
        },
        back: Names {
            numbers: places,
            others: count,
        },
    }
}

/// Whether a number at a place has that place at the number.
fn is_placed(back: &[u64], place: usize, number: u64) -> bool
    requires { place < 18446744073709551615 }
    ensures { IsTrue result → IsPlaced back.now place number }
{
    if number == 0 || number > back.len() as u64 {
        return false;
    }
    back[(number - 1) as usize] == place as u64 + 1
}

/// Whether each number at a place has.
fn are_placed(numbers: &[u64], back: &[u64]) -> bool
    ensures { IsTrue result → ArePlaced back.now 0 numbers.now }
{
    for (place, number) in numbers.iter().enumerate() {
        if !is_placed(back, place, *number) {
            return false;
        }
    }
    true
}

/// Whether no two objects have the same other number.
#[tactic(auto, using(crate::proofs::Apart::names_apart))]
fn are_apart(names: &Names, back: &[u64]) -> bool
    ensures { IsTrue result → IsRenaming (names_of names.now) }
{
    names.others == back.len() as u64 && are_placed(&names.numbers, back)
}

/// Whether a store is another under other numbers.
#[tactic(auto, using(crate::proofs::RenumberedThings::renamed_store))]
fn is_other_store(
    alloc: Global,
    names: &Names,
    new: &Store,
    old: &Store,
) -> Result<bool, AllocError>
    ensures { IfOk result (λ b. IsTrue b → IsRenamedStore (names_of names.now) (store_of new.now) (store_of old.now)) }
{
    if names.others != old.things.len() as u64 {
        return Ok(false);
    }
    if !are_other_things(alloc, names, &new.things, &old.things)? {
        return Ok(false);
    }
    let again = names.values(alloc, &new.names)?;
    Ok(are_same_values(&old.names, &again))
}

/// The number of a store under other numbers.
fn renumber_store<'a>(
    alloc: Global,
    transitions: &mut Transitions<'a>,
    both: &Both,
    store: usize,
) -> Result<Option<usize>, AllocError>
    requires { store < length (table_of transitions.old).stores }
    ensures there { IfOk result (λ r. IfSome r (λ n.
        IsStoreThere (table_of transitions.new) (names_of both.now.names) store n)) }
    ensures grows { Grows (table_of transitions.old) (table_of transitions.new) }
{
    let old = transitions.store_at(store);
    let Some(new) = chosen_store(alloc, &both.names.numbers, &both.back, old)? else {
        return Ok(None);
    };
    if !is_other_store(alloc, &both.names, &new, old)? {
        return Ok(None);
    }
    let number = transitions.store_number(alloc, &new)?;
    Ok(Some(number))
}

/// A thread that has the same to do under other numbers, and whose constants name no object.
fn other_thread<'a>(
    alloc: Global,
    both: &Both,
    old: &Thread<'a>,
) -> Result<Option<Thread<'a>>, AllocError>
    ensures same { IfOk result (λ r. IfSome r (λ t.
        thread_of old.now ≡ renamed_thread (names_of both.now.names) (thread_of t))) }
    ensures constants { IfOk result (λ r. IfSome r (λ t. ThreadHasConstants (thread_of t))) }
{
    let Some(new) = rename_thread(alloc, &both.back, old)? else {
        return Ok(None);
    };
    if !thread_has_constants(&new) {
        return Ok(None);
    }
    let Some(again) = rename_thread(alloc, &both.names, &new)? else {
        return Ok(None);
    };
    if !is_same_thread(old, &again) {
        return Ok(None);
    }
    Ok(Some(new))
}

/// The number of a work under other numbers.
fn renumber_work<'a>(
    alloc: Global,
    transitions: &mut Transitions<'a>,
    both: &Both,
    work: usize,
) -> Result<Option<usize>, AllocError>
    requires { work < length (table_of transitions.old).works }
    ensures there { IfOk result (λ r. IfSome r (λ n.
        IsWorkThere (table_of transitions.new) (names_of both.now.names) work n)) }
    ensures grows { Grows (table_of transitions.old) (table_of transitions.new) }
{
    let Some(new) = other_thread(alloc, both, transitions.work_at(work))? else {
        return Ok(None);
    };
    let number = transitions.work_number(alloc, &new)?;
    Ok(Some(number))
}

/// The numbers of works under other numbers.
fn renumber_works<'a>(
    alloc: Global,
    transitions: &mut Transitions<'a>,
    both: &Both,
    works: &[usize],
) -> Result<Option<Vec<usize>>, AllocError>
    requires { (place work : ℕ) → slice_get works.now place ≡ Some work →
        work < length (table_of transitions.old).works }
    ensures there { IfOk result (λ r. IfSome r (λ v.
        AreWorksThere (table_of transitions.new) (names_of both.now.names) works.now v.items)) }
    ensures width { IfOk result (λ r. IfSome r (λ v. length v.items ≡ length works.now)) }
    ensures grows { Grows (table_of transitions.old) (table_of transitions.new) }
{
    let mut renumbered = Vec::new(alloc);
    for work in works {
        let Some(number) = renumber_work(alloc, transitions, both, *work)? else {
            return Ok(None);
        };
        renumbered.push(number)?;
    }
    Ok(Some(renumbered))
}

impl Renumbering {
    /// What is kept at first.
    pub fn new(alloc: Global) -> Renumbering {
        Renumbering {
            objects: Vec::new(alloc),
        }
    }

    // Keeps which objects a work names.
    fn learn<'a>(
        &mut self,
        alloc: Global,
        transitions: &Transitions<'a>,
        work: usize,
    ) -> Result<(), AllocError>
        requires { work < length (table_of transitions.now).works }
    {
        for _ in self.objects.len()..work.saturating_add(1) {
            self.objects.push(None)?;
        }
        let objects = objects_of(alloc, transitions.work_at(work))?;
        if let Some(known) = self.objects.get_mut(work) {
            *known = Some(objects);
        }
        Ok(())
    }

    fn meet_those_of<'a>(
        &mut self,
        alloc: Global,
        transitions: &Transitions<'a>,
        work: usize,
        walk: &mut Walk,
    ) -> Result<(), AllocError>
        requires { work < length (table_of transitions.now).works }
    {
        if !matches!(self.objects.get(work), Some(Some(_))) {
            self.learn(alloc, transitions, work)?;
        }
        if let Some(Some(objects)) = self.objects.get(work) {
            for object in objects {
                walk.meet(*object)?;
            }
        }
        Ok(())
    }

    // The objects in the order in which they are reached.
    fn walk<'a>(
        &mut self,
        alloc: Global,
        transitions: &Transitions<'a>,
        store: usize,
        works: &[usize],
    ) -> Result<Walk, AllocError>
        requires store { store < length (table_of transitions.now).stores }
        requires works { (place work : ℕ) → slice_get works.now place ≡ Some work →
            work < length (table_of transitions.now).works }
    {
        let kept = transitions.store_at(store);
        let mut walk = Walk::of_names(alloc, kept)?;
        walk.go_on(kept)?;
        for work in works {
            self.meet_those_of(alloc, transitions, *work, &mut walk)?;
            walk.go_on(kept)?;
        }
        Ok(walk)
    }

    /// The numbers of a store and of works in which objects are numbered as they are reached, or nothing where they
    /// are so numbered, or where they are left.
    pub fn renumber<'a>(
        &mut self,
        alloc: Global,
        transitions: &mut Transitions<'a>,
        store: usize,
        works: &[usize],
    ) -> Result<Option<Renumbered>, AllocError>
        requires store { store < length (table_of transitions.old).stores }
        requires works { (place work : ℕ) → slice_get works.now place ≡ Some work →
            work < length (table_of transitions.old).works }
        ensures there { IfOk result (λ r. IfSome r (λ n.
            IsRenumbered (table_of transitions.new) store works.now n.store n.works.items)) }
        ensures grows { Grows (table_of transitions.old) (table_of transitions.new) }
    {
        let walk = self.walk(alloc, transitions, store, works)?;
        if walk.is_in_place() {
            return Ok(None);
        }
        let both = both_ways(walk);
        if !are_apart(&both.names, &both.back.numbers) {
            return Ok(None);
        }
        let Some(store) = renumber_store(alloc, transitions, &both, store)? else {
            return Ok(None);
        };
        let Some(works) = renumber_works(alloc, transitions, &both, works)? else {
            return Ok(None);
        };
        Ok(Some(Renumbered { store, works }))
    }
}
