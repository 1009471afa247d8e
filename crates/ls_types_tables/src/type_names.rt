// The types that are written.

ghost use Rattle.std.specs.Prelude.{◌≡◌, option_map};
ghost use Rattle.ls_types_elaboration.specs.Trees.{Class as a_class};
ghost use Rattle.ls_types_elaboration.specs.Known.{type_of, result_of};
ghost use Rattle.ls_types_elaboration.specs.PlacedStatements.{placed_type};
ghost use Rattle.ls_types_elaboration.specs.Placed.{placed_name};
ghost use Rattle.ls_types_tables.specs.ByName.{keys_of};

use crate::known::number_of;
use indexmap::IndexSet;
use ls_events::value::ValueType;
use ls_tree::tree::{Name, Type};
use ls_types_elaboration::rule::{Broken, Rule, broken_at};

/// The type that is written (JLS 4.2, 4.3, 10.1). If a name is no class, it is refused by `UnknownType` at the name.
pub fn type_of(names: &IndexSet<String>, t: &Type) -> Result<ValueType, Broken>
    ensures { result ≡ type_of (keys_of names.now) (placed_type t.now) }
{
    match t {
        Type::Int => Ok(ValueType::Int),
        Type::Boolean => Ok(ValueType::Boolean),
        Type::BooleanArray => Ok(ValueType::BooleanArray),
        Type::Class(n) => class_type(names, n),
        Type::Markable(n) => match number_of(names, n.text.as_str()) {
            None => Err(broken_at(Rule::UnknownType, n.span)),
            Some(c) => Ok(ValueType::Markable(c)),
        },
    }
}

fn class_type(names: &IndexSet<String>, n: &Name) -> Result<ValueType, Broken>
    ensures { result ≡ type_of (keys_of names.now) (a_class (placed_name n.now)) }
{
    if n.text.as_str() == "Lock" || n.text.as_str() == "ReentrantLock" {
        return Ok(ValueType::Lock);
    }
    match number_of(names, n.text.as_str()) {
        None => Err(broken_at(Rule::UnknownType, n.span)),
        Some(c) => Ok(ValueType::Class(c)),
    }
}

/// What a method answers; `void` is nothing (JLS 8.4.5). It is refused as `type_of` is.
pub fn result_of(names: &IndexSet<String>, t: &Option<Type>) -> Result<Option<ValueType>, Broken>
    ensures { result ≡ result_of (keys_of names.now) (option_map placed_type t.now) }
{
    match t {
        None => Ok(None),
        Some(t) => match type_of(names, t) {
            Ok(t) => Ok(Some(t)),
            Err(broken) => Err(broken),
        },
    }
}
