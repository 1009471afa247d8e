// Whether stores are the same, and copies of them.

ghost use Rattle.std.specs.Prelude.{◌≡◌, IfOk, IsTrue, map};
ghost use Rattle.ls_source_store.specs.SeenThing.{items_of, hold_of, thing_of};
ghost use Rattle.ls_source_store.specs.SeenStore.{store_of};

use ls_events::same::is_same_value;
use ls_events::value::Value;
use ls_source_store::store::Store;
use ls_source_store::thing::{Hold, Thing};
use ls_works::copies::copy_values;
use ls_works::values::are_same_values;
use std::alloc::{AllocError, Global};
use std::collections::BTreeMap;

// Whether a hold is the other.
fn is_same_hold(hold: Hold, other: Hold) -> bool
    ensures { IsTrue result → hold_of hold ≡ hold_of other }
{
    match (hold, other) {
        (Hold::Free, Hold::Free) => true,
        (Hold::HeldBy { owner: a, holds: m }, Hold::HeldBy { owner: b, holds: n }) => a == b
            && m == n,
        _ => false,
    }
}

// Whether the written items of arrays are the same, one by one.
fn are_same_entries(items: &BTreeMap<u32, Value>, others: &BTreeMap<u32, Value>) -> bool
    ensures { IsTrue result → items.now.entries ≡ others.now.entries }
{
    let mut rest = others.iter();
    for (i, v) in items {
        match rest.next() {
            None => return false,
            Some((j, w)) => {
                if *i != *j || !is_same_value(*v, *w) {
                    return false;
                }
            }
        }
    }
    rest.next().is_none()
}

// Whether arrays have the same items.
fn are_same_items(items: &BTreeMap<u32, Value>, others: &BTreeMap<u32, Value>) -> bool
    ensures { IsTrue result → items_of items.now ≡ items_of others.now }
{
    are_same_entries(items, others)
}

/// Whether a thing is the other. True only where it is.
pub fn is_same_thing(thing: &Thing, other: &Thing) -> bool
    ensures { IsTrue result → thing_of thing.now ≡ thing_of other.now }
{
    match (thing, other) {
        (
            Thing::Object {
                monitor: m,
                fields: vs,
            },
            Thing::Object {
                monitor: n,
                fields: ws,
            },
        ) => is_same_hold(*m, *n) && are_same_values(vs, ws),
        (Thing::Lock(m), Thing::Lock(n)) => is_same_hold(*m, *n),
        (Thing::Markable(v), Thing::Markable(w)) => is_same_value(*v, *w),
        (Thing::Array { size: a, items: vs }, Thing::Array { size: b, items: ws }) => a == b
            && are_same_items(vs, ws),
        _ => false,
    }
}

// Whether things are the same, one by one.
fn are_same_things(things: &[Thing], others: &[Thing]) -> bool
    ensures { IsTrue result → map thing_of things.now ≡ map thing_of others.now }
{
    if things.len() != others.len() {
        return false;
    }
    for (i, thing) in things.iter().enumerate() {
        if !is_same_thing(thing, &others[i]) {
            return false;
        }
    }
    true
}

/// Whether a store is the other. True only where it is.
pub fn is_same_store(store: &Store, other: &Store) -> bool
    ensures { IsTrue result → store_of store.now ≡ store_of other.now }
{
    are_same_values(&store.names, &other.names) && are_same_things(&store.things, &other.things)
}

// The written items of an array once more. The test never fails: it stands for a proof.
fn copy_items(
    alloc: Global,
    items: &BTreeMap<u32, Value>,
) -> Result<BTreeMap<u32, Value>, AllocError>
    ensures { IfOk result (λ m. items_of m ≡ items_of items.now) }
{
    let mut copies = BTreeMap::new(alloc);
    for (index, value) in items {
        copies.insert(*index, *value)?;
    }
    if are_same_items(&copies, items) {
        return Ok(copies);
    }
    Err(AllocError)
}

/// The same thing once more. The only refusal is that memory ran out.
pub fn copy_thing(alloc: Global, thing: &Thing) -> Result<Thing, AllocError>
    ensures { IfOk result (λ t. thing_of t ≡ thing_of thing.now) }
{
    match thing {
        Thing::Object { monitor, fields } => Ok(Thing::Object {
            monitor: *monitor,
            fields: copy_values(alloc, fields)?,
        }),
        Thing::Lock(hold) => Ok(Thing::Lock(*hold)),
        Thing::Markable(pair) => Ok(Thing::Markable(*pair)),
        Thing::Array { size, items } => Ok(Thing::Array {
            size: *size,
            items: copy_items(alloc, items)?,
        }),
    }
}

fn copy_things(alloc: Global, things: &[Thing]) -> Result<Vec<Thing>, AllocError>
    ensures { IfOk result (λ v. map thing_of v.items ≡ map thing_of things.now) }
{
    let mut copies = Vec::new(alloc);
    for thing in things {
        copies.push(copy_thing(alloc, thing)?)?;
    }
    Ok(copies)
}

/// The same store once more. The only refusal is that memory ran out.
pub fn copy_store(alloc: Global, store: &Store) -> Result<Store, AllocError>
    ensures { IfOk result (λ s. store_of s ≡ store_of store.now) }
{
    let things = copy_things(alloc, &store.things)?;
    let names = copy_values(alloc, &store.names)?;
    Ok(Store { things, names })
}
