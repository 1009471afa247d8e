// Whether the items of an array name objects.

ghost use Rattle.std.specs.Prelude.{◌≡◌, IsTrue, All, ℕ};
ghost use Rattle.ls_meaning.specs.Renamings.{renamed};
ghost use Rattle.ls_renaming.specs.Nameless.{IsNameless, NameNoObject};

use ls_events::value::Value;
use std::collections::BTreeMap;

/// Whether a value names no object, whatever numbers objects have.
fn is_nameless(value: Value) -> bool
    ensures { IsTrue result → IsNameless value }
{
    match value {
        Value::Int(_) | Value::Boolean(_) => true,
        Value::Reference(_) | Value::Pair { .. } => false,
    }
}

/// Whether no written item of an array names an object.
pub(crate) fn name_no_object(items: &BTreeMap<u32, Value>) -> bool
    ensures { IsTrue result → NameNoObject items.now.entries }
{
    for (_, value) in items {
        if !is_nameless(*value) {
            return false;
        }
    }
    true
}
