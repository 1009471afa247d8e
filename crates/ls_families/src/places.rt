// The number of the program that a double is with two threads exchanged.

ghost use Rattle.std.specs.Prelude.{◌≡◌, ◌↔◌, IfOk, IfSome, IsTrue, Some, slice_get};
ghost use Rattle.ls_families.specs.Doubles.{other_of};
ghost use Rattle.ls_families.specs.Families.{plans};

use crate::choosing::number_of;
use crate::doubles::other_of;
use crate::families::{Family, Plan};
use crate::parts::parted;
use std::alloc::{AllocError, Global};

/// Whether two plans are one.
fn is_same(first: &Plan<'_>, second: &Plan<'_>) -> bool
    ensures { IsTrue result ↔ (first.now ≡ second.now) }
{
    first.shape().setup() == second.shape().setup()
        && first.shape().threads() == second.shape().threads()
        && first.making() == second.making()
        && first.calls() == second.calls()
}

/// The number at which another plan is looked for whose threads alone have other calls, if a plan has this number.
fn guessed(menu: u64, number: u64, plan: &Plan<'_>, other: &Plan<'_>) -> Option<u64> {
    let (_, calls) = parted(plan.calls(), plan.shape().setup());
    let (_, others) = parted(other.calls(), other.shape().setup());
    let first = number.checked_sub(number_of(menu, calls)?)?;
    first.checked_add(number_of(menu, others)?)
}

/// The number of a plan with two threads exchanged, as `other_of` has them, if the plan itself has this number. None if
/// it isn't found there.
pub fn number_of_other(
    alloc: Global,
    family: &Family,
    number: u64,
    plan: &Plan<'_>,
) -> Result<Option<u64>, AllocError>
    ensures { IfOk result (λ found. IfSome found (λ m. slice_get (plans family.now) m ≡ Some (other_of plan.now))) }
{
    let other = other_of(alloc, plan)?;
    let Some(at) = guessed(family.sizes().threads, number, plan, &other) else {
        return Ok(None);
    };
    match family.plan(alloc, at)? {
        Some(found) if is_same(&found, &other) => Ok(Some(at)),
        _ => Ok(None),
    }
}
