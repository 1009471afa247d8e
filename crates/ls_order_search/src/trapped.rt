// How many trapped calls an item has.

ghost use Rattle.std.specs.Prelude.{◌≡◌, ◌&&◌, ◌+◌, ◌≤◌, ℤ, IfOk, OnOk, false, true, if◌then◌else◌};
ghost use Rattle.std.specs.Ordering.{int_eq};
ghost use Rattle.ls_order_search.specs.Groups.{counted};
ghost use Rattle.ls_order_search.specs.Trapped.{has_many_trapped, is_trapped, most_trapped};

use crate::trying::is_trapped;
use ls_orders::calls::SetCall;
use std::alloc::{AllocError, Global};
use std::collections::BTreeMap;

/// The most trapped calls of one item. At worst, each of the 4,096 ways to take or leave them is tried.
pub const MOST_TRAPPED: usize = 12;

/// How many trapped calls are counted on the item.
fn counted(counts: &BTreeMap<i32, usize>, item: &i32) -> usize
    ensures { result ≡ counted counts.now item.now }
{
    *counts.get(item).unwrap_or(&0)
}

/// Sets the count of the item. The only refusal is that memory ran out.
fn set_count(counts: &mut BTreeMap<i32, usize>, item: &i32, count: usize) -> Result<(), AllocError>
    ensures { OnOk result ((z : ℤ) → counted counts.new z
        ≡ (if int_eq item.now z then count else counted counts.old z)) }
{
    counts.insert(*item, count)?;
    Ok(())
}

/// Counts the call, if it is trapped. False if it is one trapped call too many on its item. The only refusal is that
/// memory ran out.
fn count_call(counts: &mut BTreeMap<i32, usize>, call: SetCall) -> Result<bool, AllocError>
    requires { (z : ℤ) → counted counts.old z ≤ most_trapped }
    ensures many { IfOk result (λ few. few ≡ false →
        (is_trapped call.end ≡ true) × (counted counts.old call.item ≡ most_trapped)) }
    ensures few { IfOk result (λ few. few ≡ true → (z : ℤ) →
        (counted counts.new z ≡ counted counts.old z +
        (if is_trapped call.end && int_eq call.item z then 1 else 0)) ×
        (counted counts.new z ≤ most_trapped)) }
{
    if !is_trapped(call.end) {
        return Ok(true);
    }
    let count = counted(counts, &call.item);
    if count == MOST_TRAPPED {
        return Ok(false);
    }
    set_count(counts, &call.item, count + 1)?;
    Ok(true)
}

/// Whether an item has more than 12 trapped calls. The only refusal is that memory ran out.
pub(crate) fn has_many_trapped(alloc: Global, calls: &[SetCall]) -> Result<bool, AllocError>
    ensures { IfOk result (λ many. many ≡ has_many_trapped calls.now) }
{
    let mut counts = BTreeMap::new(alloc);
    for call in calls {
        if !count_call(&mut counts, *call)? {
            return Ok(true);
        }
    }
    Ok(false)
}
