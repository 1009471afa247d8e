// What a text declares, and how names find it.

ghost use Rattle.std.specs.List.{position};
ghost use Rattle.std.specs.Prelude.{◌≡◌, ◌<◌, IfSome, length, map, option_map, string_bytes};
ghost use Rattle.std.specs.Str.{bytes_eq};
ghost use Rattle.ls_types_elaboration.specs.Known.{local_named, number_of};
ghost use Rattle.ls_types_elaboration.specs.Tables.{local_of, texts_of};

use ls_events::value::ValueType;

/// The most slots of a method: `this`, parameters and locals. The slots of monitors don't count.
pub const MOST_SLOTS: usize = 128;

/// A local or parameter in scope, and its slot.
#[derive(Clone, Copy)]
pub struct Local<'t> {
    pub name: &'t str,
    pub value_type: ValueType,
    pub slot: usize,
}

/// A field: its name and its type.
#[derive(Drop)]
pub struct FieldSign {
    pub name: String,
    pub value_type: ValueType,
}

/// A method: its name, its number in the file, the types of its parameters, and the type of its answer. A void method
/// has none.
#[derive(Drop)]
pub struct MethodSign {
    pub name: String,
    pub number: usize,
    pub parameters: Vec<ValueType>,
    pub result: Option<ValueType>,
}

/// What a class declares, in text order. A field's number is its index. `constructor` is the number of the constructor
/// in the file, and `parameters` are the types of its parameters.
#[derive(Drop)]
pub struct ClassSign {
    pub fields: Vec<FieldSign>,
    pub methods: Vec<MethodSign>,
    pub constructor: usize,
    pub parameters: Vec<ValueType>,
}

/// A field that is found: its number in its class, and its type.
#[derive(Clone, Copy)]
pub struct FoundField {
    pub number: usize,
    pub value_type: ValueType,
}

fn name_at(names: &[String], name: &str) -> Option<usize>
    ensures found { result ≡ position (λ n. bytes_eq (string_bytes n) name.now) names.now }
    ensures small { IfSome result (λ n. n < length names.now) }
{
    names.iter().position(|n| n.as_str() == name)
}

/// The number of the class that has the name: the index of the first such name, or none.
pub fn number_of(names: &[String], name: &str) -> Option<usize>
    ensures found { result ≡ number_of (texts_of names.now) name.now }
    ensures small { IfSome result (λ n. n < length names.now) }
{
    name_at(names, name)
}

/// The first local that has the name, or none.
pub fn local_named<'t>(locals: &[Local<'t>], name: &str) -> Option<Local<'t>>
    ensures { option_map local_of result ≡ local_named (map local_of locals.now) name.now }
{
    match locals {
        [] => None,
        [l, rest @ ..] => {
            if l.name == name {
                Some(*l)
            } else {
                local_named(rest, name)
            }
        }
    }
}
