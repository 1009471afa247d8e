// The set that the calls act on.

ghost use Rattle.std.specs.Prelude.{◌≡◌, ℤ, OnOk};
ghost use Rattle.std.specs.Ordering.{int_cmp};
ghost use Rattle.std.specs.BTreeSet.{contains};
ghost use Rattle.ls_orders.specs.Rules.{after_call};

use crate::calls::{Operation, SetCall};
use std::alloc::AllocError;
use std::collections::BTreeSet;

/// The set after the call. The only refusal is that memory ran out.
pub fn apply(set: &mut BTreeSet<i32>, call: SetCall) -> Result<(), AllocError>
    ensures { OnOk result ((z : ℤ) → contains int_cmp set.new z ≡ after_call z (contains int_cmp set.old z) call) }
{
    match call.operation {
        Operation::Add => {
            set.insert(call.item)?;
        }
        Operation::Remove => {
            set.remove(&call.item);
        }
        Operation::Contains => {}
    }
    Ok(())
}
