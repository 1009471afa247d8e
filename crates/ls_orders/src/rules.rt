// The rules of an order, each by the first call that breaks it.

ghost use Rattle.std.specs.Prelude.{◌≡◌, ◌==◌, ◌&&◌, [], ℕ, IfOk, find, map, not};
ghost use Rattle.std.specs.List.{list_any};
ghost use Rattle.ls_orders.specs.Named.{plain_call};
ghost use Rattle.ls_orders.specs.Places.{is_marked};
ghost use Rattle.ls_orders.specs.Rules.{
  answer_of,
  differs,
  ended_before,
  first_repeated,
  first_where,
  has_wrong_reply,
  is_late,
  is_missing,
  is_returned,
};

use crate::calls::{End, Operation, SetCall};
use crate::places::{is_marked, mark};
use crate::set::apply;
use std::alloc::{AllocError, Global};
use std::collections::BTreeSet;

fn is_returned(end: End) -> bool
    ensures { result ≡ is_returned end }
{
    matches!(end, End::Returned(_, _))
}

fn ended_before(end: End, at: usize) -> bool
    ensures { result ≡ ended_before end at }
{
    match end {
        End::Pending => false,
        End::Trapped(place) => place < at,
        End::Returned(place, _) => place < at,
    }
}

fn answer_of(operation: Operation, was: bool) -> bool
    ensures { result ≡ answer_of operation was }
{
    match operation {
        Operation::Add => !was,
        Operation::Remove => was,
        Operation::Contains => was,
    }
}

fn differs(end: End, wanted: bool) -> bool
    ensures { result ≡ differs end wanted }
{
    match end {
        End::Returned(_, Some(reply)) => !(reply && wanted || (!reply && !wanted)),
        End::Returned(_, None) => true,
        _ => false,
    }
}

/// The places of the calls.
fn places_of(alloc: Global, order: &[&SetCall]) -> Result<Vec<bool>, AllocError>
    ensures { IfOk result (λ places. (k : ℕ) →
        is_marked places.items k ≡ list_any (λ y. y.called == k) (map plain_call order.now)) }
{
    let mut places = Vec::new(alloc);
    for call in order {
        mark(&mut places, call.called)?;
    }
    Ok(places)
}

/// The first call that comes a second time. The only refusal is that memory ran out.
pub(crate) fn first_repeated(
    alloc: Global,
    order: &[&SetCall],
) -> Result<Option<SetCall>, AllocError>
    ensures { IfOk result (λ r. r ≡ first_repeated (map plain_call order.now)) }
{
    let mut behind = Vec::new(alloc);
    let mut first = None;
    for i in (0..order.len()).rev() {
        let call = *order[i];
        if is_marked(behind.as_slice(), call.called) {
            first = Some(call);
        }
        mark(&mut behind, call.called)?;
    }
    Ok(first)
}

fn is_missing(places: &[bool], call: SetCall) -> bool
    ensures { result ≡ (is_returned call.end && not (is_marked places.now call.called)) }
{
    is_returned(call.end) && !is_marked(places, call.called)
}

/// Among the returned calls that the order lacks, the first by its call event. The only refusal is that memory ran out.
pub(crate) fn first_missing(
    alloc: Global,
    calls: &[SetCall],
    order: &[&SetCall],
) -> Result<Option<SetCall>, AllocError>
    ensures { IfOk result (λ r. r ≡ find (is_missing (map plain_call order.now)) calls.now) }
{
    let places = places_of(alloc, order)?;
    for call in calls {
        if is_missing(places.as_slice(), *call) {
            return Ok(Some(*call));
        }
    }
    Ok(None)
}

/// The first call that comes too late: before it comes a call that was called only after this call had ended.
pub(crate) fn first_late(order: &[&SetCall]) -> Option<SetCall>
    ensures { result ≡ first_where is_late [] (map plain_call order.now) }
{
    let mut latest = 0;
    for i in 0..order.len() {
        let call = *order[i];
        if ended_before(call.end, latest) {
            return Some(call);
        }
        latest = latest.max(call.called);
    }
    None
}

/// The first returned call with another reply than the set gives. The only refusal is that memory ran out.
pub(crate) fn first_wrong(alloc: Global, order: &[&SetCall]) -> Result<Option<SetCall>, AllocError>
    ensures { IfOk result (λ r. r ≡ first_where has_wrong_reply [] (map plain_call order.now)) }
{
    let mut set = BTreeSet::new(alloc);
    for i in 0..order.len() {
        let call = *order[i];
        let was = set.contains(&call.item);
        if differs(call.end, answer_of(call.operation, was)) {
            return Ok(Some(call));
        }
        apply(&mut set, call)?;
    }
    Ok(None)
}
