// The access that an action is at a store.

ghost use Rattle.std.specs.Prelude.{◌≡◌, IsTrue, false, map, option_map, slice_index_or};
ghost use Rattle.std.specs.Option.{option_copied};
ghost use Rattle.ls_meaning.specs.Effect.{in_range};
ghost use Rattle.ls_meaning.specs.Store.{Store, thing_at};
ghost use Rattle.ls_source_store.specs.SeenThing.{thing_of};
ghost use Rattle.ls_race_laws.specs.Accesses.{Conflict, access_of, of_field, of_item};
ghost use Rattle.ls_races.specs.Volatile.{is_any_volatile, is_unsure, volatile_by};

use ls_events::action::Action;
use ls_events::value::Value;
use ls_race_laws::access::{Access, Kind};
use ls_source_store::thing::Thing;

/// The flag of a field; false if there is none.
fn flag_at(flags: &[bool], field: usize) -> bool
    ensures { result ≡ slice_index_or flags.now field false }
{
    if field < flags.len() {
        flags[field]
    } else {
        false
    }
}

/// Whether each class with so many fields declares the field of this number volatile.
pub fn is_volatile(classes: &[Vec<bool>], fields: usize, field: usize) -> bool
    ensures { result ≡ volatile_by (map (λ v. v.items) classes.now) fields field }
{
    match classes {
        [] => true,
        [flags, rest @ ..] => {
            if flags.len() == fields && !flag_at(flags.as_slice(), field) {
                false
            } else {
                is_volatile(rest, fields, field)
            }
        }
    }
}

/// Whether a class with so many fields declares the field of this number volatile.
fn is_any_volatile(classes: &[Vec<bool>], fields: usize, field: usize) -> bool
    ensures { result ≡ is_any_volatile (map (λ v. v.items) classes.now) fields field }
{
    match classes {
        [] => false,
        [flags, rest @ ..] => {
            if flags.len() == fields && flag_at(flags.as_slice(), field) {
                true
            } else {
                is_any_volatile(rest, fields, field)
            }
        }
    }
}

/// Whether classes disagree on a variable of this kind that isn't volatile in each.
pub fn is_unsure(classes: &[Vec<bool>], on: Kind) -> bool
    ensures { result ≡ is_unsure (map (λ v. v.items) classes.now) on }
{
    match on {
        Kind::Field { fields, field } => is_any_volatile(classes, fields, field),
        Kind::Element => false,
    }
}

/// An access to a field of a thing, unless it is volatile.
fn of_field(
    classes: &[Vec<bool>],
    object: u64,
    field: usize,
    writes: bool,
    thing: Option<&Thing>,
) -> Option<Access>
    ensures { result ≡ of_field (volatile_by (map (λ v. v.items) classes.now)) object field writes
        (option_map thing_of (option_copied thing.entry)) }
{
    match thing {
        None => None,
        Some(Thing::Object { monitor: _, fields }) => {
            let fields = fields.len();
            if is_volatile(classes, fields, field) {
                return None;
            }
            Some(Access {
                kind: Kind::Field { fields, field },
                object,
                index: 0,
                writes,
            })
        }
        Some(Thing::Lock(_)) => None,
        Some(Thing::Markable(_)) => None,
        Some(Thing::Array { .. }) => None,
    }
}

/// Whether an index is in range.
fn is_in_range(index: i32, size: u32) -> bool
    ensures { result ≡ in_range index size }
{
    if index < 0 {
        false
    } else {
        index.unsigned_abs() < size
    }
}

/// An access to an element of a thing, if the index is in range.
fn of_item(array: u64, index: i32, writes: bool, thing: Option<&Thing>) -> Option<Access>
    ensures { result ≡ of_item array index writes (option_map thing_of (option_copied thing.entry)) }
{
    match thing {
        None => None,
        Some(Thing::Object { .. }) => None,
        Some(Thing::Lock(_)) => None,
        Some(Thing::Markable(_)) => None,
        Some(Thing::Array { size, items: _ }) => {
            if !is_in_range(index, *size) {
                return None;
            }
            Some(Access {
                kind: Kind::Element,
                object: array,
                index: index.unsigned_abs() as usize,
                writes,
            })
        }
    }
}

/// The thing of a number.
fn thing_at(things: &[Thing], object: u64) -> Option<&Thing>
    ensures { (s : Store) → s.things ≡ map thing_of things.now →
        option_map thing_of (option_copied result) ≡ thing_at s object }
{
    if object == 0 {
        return None;
    }
    things.get((object - 1) as usize)
}

/// The access that an action is at a store with these things, if it is one to a variable that isn't volatile.
pub fn access_of(classes: &[Vec<bool>], things: &[Thing], action: &Action<Value>) -> Option<Access>
    ensures { (s : Store) → s.things ≡ map thing_of things.now →
        result ≡ access_of (volatile_by (map (λ v. v.items) classes.now)) s action.now }
{
    match action {
        Action::ReadField { object, field } => of_field(
            classes,
            *object,
            *field,
            false,
            thing_at(things, *object),
        ),
        Action::WriteField {
            object,
            field,
            value: _,
        } => of_field(classes, *object, *field, true, thing_at(things, *object)),
        Action::ReadItem { array, index } => {
            of_item(*array, *index, false, thing_at(things, *array))
        }
        Action::WriteItem {
            array,
            index,
            value: _,
        } => of_item(*array, *index, true, thing_at(things, *array)),
        _ => None,
    }
}
