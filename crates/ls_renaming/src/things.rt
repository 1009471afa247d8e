// Things with other numbers.

ghost use Rattle.std.specs.Prelude.{◌≡◌, IfOk, IfSome};
ghost use Rattle.ls_search_laws.specs.Renaming.{renamed_thing};
ghost use Rattle.ls_source_store.specs.SeenThing.{thing_of};
ghost use Rattle.ls_renaming.specs.Seen.{names_of};

use crate::arrays::name_no_object;
use crate::names::Names;
use ls_source_store::thing::Thing;
use ls_transitions::stores::copy_thing;
use std::alloc::{AllocError, Global};

/// A thing with other numbers. An array with an item that names an object has none.
#[tactic(auto, using(crate::proofs::Items::array_renamed))]
pub fn rename_thing(
    alloc: Global,
    names: &Names,
    thing: &Thing,
) -> Result<Option<Thing>, AllocError>
    ensures { IfOk result (λ r. IfSome r (λ t. thing_of t ≡ renamed_thing (names_of names.now) (thing_of thing.now))) }
{
    match thing {
        Thing::Object { monitor, fields } => {
            let fields = names.values(alloc, fields)?;
            Ok(Some(Thing::Object {
                monitor: *monitor,
                fields,
            }))
        }
        Thing::Lock(hold) => Ok(Some(Thing::Lock(*hold))),
        Thing::Markable(pair) => {
            let pair = names.value(*pair)?;
            Ok(Some(Thing::Markable(pair)))
        }
        Thing::Array { items, .. } => {
            if !name_no_object(items) {
                return Ok(None);
            }
            Ok(Some(copy_thing(alloc, thing)?))
        }
    }
}
