// How names find what a text declares.

ghost use Rattle.std.specs.Prelude.{◌≡◌, ◌<◌, IfSome, map, option_map, slice_get};
ghost use Rattle.indexmap.specs.IndexMap.{index_map_len};
ghost use Rattle.indexmap.specs.IndexSet.{index_set_len};
ghost use Rattle.ls_types_elaboration.specs.Known.{field_named, method_named, number_of, field_of, method_of};
ghost use Rattle.ls_types_tables.specs.ByName.{keys_of, field_entries_of, method_entry, method_entries_of};
ghost use Rattle.ls_types_tables.specs.ByName.{class_entry_of, known_of};

use crate::tables::{ClassTables, MethodEntry};
use indexmap::{IndexMap, IndexSet};
use ls_events::value::ValueType;
use ls_types_elaboration::known::FoundField;

/// The names of the classes, what they declare, and the number of the class to which the code belongs. A class's
/// number is the index of its name.
#[derive(Clone, Copy)]
pub struct Known<'k> {
    pub names: &'k IndexSet<String>,
    pub classes: &'k [ClassTables],
    pub own: usize,
}

/// The number of the class of a name: the index of the name, or none.
pub fn number_of(names: &IndexSet<String>, name: &str) -> Option<usize>
    ensures found { result ≡ number_of (keys_of names.now) name.now }
    ensures small { IfSome result (λ n. n < index_set_len names.now) }
{
    names.get_index_of(name)
}

/// The field of a name among those of a class, or none.
pub fn field_named(fields: &IndexMap<String, ValueType>, name: &str) -> Option<FoundField>
    ensures found { result ≡ field_named (field_entries_of fields.now) name.now }
    ensures small { IfSome result (λ f. f.number < index_map_len fields.now) }
{
    let (number, _, value_type) = fields.get_full(name)?;
    Some(FoundField {
        number,
        value_type: *value_type,
    })
}

/// The method of a name among those of a class, or none.
pub fn method_named<'a>(
    methods: &'a IndexMap<String, MethodEntry>,
    name: &str,
) -> Option<&'a MethodEntry>
    ensures { option_map (λ m. method_entry name.now m.now) result ≡
        method_named (method_entries_of methods.now) name.now }
{
    methods.get(name)
}

/// The class of a number, or none.
pub fn class_at<'a>(known: Known<'a>, class: usize) -> Option<&'a ClassTables>
    ensures { option_map (λ c. class_entry_of c.now) result ≡
        slice_get (map class_entry_of known.entry.classes.now) class }
{
    known.classes.get(class)
}

/// The field of a name in the class of a number, or none.
pub fn field_of(known: Known, class: usize, name: &str) -> Option<FoundField>
    ensures { result ≡ field_of (known_of known.entry) class name.now }
{
    match class_at(known, class) {
        None => None,
        Some(c) => field_named(&c.fields, name),
    }
}

/// The method of a name in the class of a number, or none.
pub fn method_of<'a>(known: Known<'a>, class: usize, name: &str) -> Option<&'a MethodEntry>
    ensures { option_map (λ m. method_entry name.now m.now) result ≡ method_of (known_of known.entry) class name.now }
{
    match class_at(known, class) {
        None => None,
        Some(c) => method_named(&c.methods, name),
    }
}
