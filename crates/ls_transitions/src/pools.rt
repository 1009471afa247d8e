// Stores and works, each once, by number.

ghost use Rattle.std.specs.Prelude.{◌≡◌, ◌≤◌, IfOk, IfSome, Some, length, map, slice_get};
ghost use Rattle.ls_source_store.specs.SeenStore.{store_of};
ghost use Rattle.ls_source.specs.SeenThread.{thread_of};
ghost use Rattle.ls_transitions.specs.Tables.{Keeps};

use crate::hash_index::HashIndex;
use crate::hashing;
use crate::stores::is_same_store;
use crate::threads::is_same_thread;
use ls_source::thread::Thread;
use ls_source_store::store::Store;
use std::alloc::{AllocError, Global};

/// The most stores, and the most works.
const MOST: usize = 0xFFFF_FFFF;

// The number of a store among these.
fn find_store(stores: &[Store], hints: &HashIndex, hash: u64, store: &Store) -> Option<usize>
    ensures { IfSome result (λ n. slice_get (map store_of stores.now) n ≡ Some (store_of store.now)) }
{
    let mut hint = hints.last(hash);
    for _ in 0..stores.len() {
        let place = hint?;
        let kept = stores.get(place)?;
        if is_same_store(kept, store) {
            return Some(place);
        }
        hint = hints.before(place);
    }
    None
}

/// The number of a store, which is kept if it is new.
pub(crate) fn keep_store(
    alloc: Global,
    stores: &mut Vec<Store>,
    hints: &mut HashIndex,
    store: Store,
) -> Result<usize, AllocError>
    requires few { length stores.old.items ≤ 4294967295 }
    ensures number { IfOk result (λ n. slice_get (map store_of stores.new.items) n ≡ Some (store_of store)) }
    ensures keeps { Keeps (map store_of stores.old.items) (map store_of stores.new.items) }
    ensures few { length stores.new.items ≤ 4294967295 }
{
    let hash = hashing::hash_of_store(&store);
    if let Some(number) = find_store(stores, hints, hash, &store) {
        return Ok(number);
    }
    let number = stores.len();
    if number >= MOST {
        return Err(AllocError);
    }
    stores.reserve(1)?;
    hints.add(alloc, hash)?;
    stores.push_reserved(store);
    Ok(number)
}

// The number of a work among these.
fn find_work<'a>(
    works: &[Thread<'a>],
    hints: &HashIndex,
    hash: u64,
    work: &Thread<'a>,
) -> Option<usize>
    ensures { IfSome result (λ n. slice_get (map thread_of works.now) n ≡ Some (thread_of work.now)) }
{
    let mut hint = hints.last(hash);
    for _ in 0..works.len() {
        let place = hint?;
        let kept = works.get(place)?;
        if is_same_thread(kept, work) {
            return Some(place);
        }
        hint = hints.before(place);
    }
    None
}

/// The number of a work, which is kept if it is new.
pub(crate) fn keep_work<'a>(
    alloc: Global,
    works: &mut Vec<Thread<'a>>,
    hints: &mut HashIndex,
    work: Thread<'a>,
) -> Result<usize, AllocError>
    requires few { length works.old.items ≤ 4294967295 }
    ensures number { IfOk result (λ n. slice_get (map thread_of works.new.items) n ≡ Some (thread_of work.entry)) }
    ensures keeps { Keeps (map thread_of works.old.items) (map thread_of works.new.items) }
    ensures few { length works.new.items ≤ 4294967295 }
{
    let hash = hashing::hash_of_thread(&work);
    if let Some(number) = find_work(works, hints, hash, &work) {
        return Ok(number);
    }
    let number = works.len();
    if number >= MOST {
        return Err(AllocError);
    }
    works.reserve(1)?;
    hints.add(alloc, hash)?;
    works.push_reserved(work);
    Ok(number)
}
