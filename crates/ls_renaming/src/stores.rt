// Things and stores with other numbers.

ghost use Rattle.std.specs.Prelude.{◌≡◌, IfOk, IfSome, IsTrue, length, map};
ghost use Rattle.ls_search_laws.specs.Renaming.{renamed_thing};
ghost use Rattle.ls_source_store.specs.SeenThing.{thing_of};
ghost use Rattle.ls_renaming.specs.Seen.{names_of};
ghost use Rattle.ls_renaming.specs.Renumbered.{AreThingsThere, IsThingThere};

use crate::names::Names;
use crate::things::rename_thing;
use ls_source_store::store::Store;
use ls_source_store::thing::Thing;
use ls_transitions::stores::is_same_thing;
use std::alloc::{AllocError, Global};

/// The store whose objects 1, 2 and so on are these of another. There is none if an item of an array that is reached
/// names an object.
pub(crate) fn chosen_store(
    alloc: Global,
    chosen: &[u64],
    names: &Names,
    store: &Store,
) -> Result<Option<Store>, AllocError> {
    let mut things = Vec::new(alloc);
    for object in chosen {
        let Some(at) = object.checked_sub(1) else {
            return Ok(None);
        };
        let Some(thing) = store.things.get(at as usize) else {
            return Ok(None);
        };
        let Some(renamed) = rename_thing(alloc, names, thing)? else {
            return Ok(None);
        };
        things.push(renamed)?;
    }
    let names = names.values(alloc, &store.names)?;
    Ok(Some(Store { things, names }))
}

/// Whether a thing under other numbers is the one of that number.
fn is_other_thing(
    alloc: Global,
    names: &Names,
    thing: &Thing,
    number: u64,
    others: &[Thing],
) -> Result<bool, AllocError>
    ensures { IfOk result (λ b. IsTrue b →
        IsThingThere (names_of names.now) (thing_of thing.now) (map thing_of others.now) number) }
{
    let Some(at) = number.checked_sub(1) else {
        return Ok(false);
    };
    let Some(other) = others.get(at as usize) else {
        return Ok(false);
    };
    let Some(renamed) = rename_thing(alloc, names, thing)? else {
        return Ok(false);
    };
    Ok(is_same_thing(&renamed, other))
}

/// Whether things are those that have their other numbers.
pub(crate) fn are_other_things(
    alloc: Global,
    names: &Names,
    things: &[Thing],
    others: &[Thing],
) -> Result<bool, AllocError>
    ensures width { IfOk result (λ b. IsTrue b → length names.now.numbers.items ≡ length things.now) }
    ensures there { IfOk result (λ b. IsTrue b →
        AreThingsThere (names_of names.now) names.now.numbers.items (map thing_of things.now)
        (map thing_of others.now)) }
{
    if names.numbers.len() != things.len() {
        return Ok(false);
    }
    for (i, thing) in things.iter().enumerate() {
        if !is_other_thing(alloc, names, thing, names.numbers[i], others)? {
            return Ok(false);
        }
    }
    Ok(true)
}
