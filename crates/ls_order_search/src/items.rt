// Which trapped calls stay, settled for each item alone.

ghost use Rattle.std.specs.Prelude.{◌≡◌, ◌==◌, ◌||◌, ◌+◌, ◌++◌, ◌∷◌, ◌<◌, [], ℕ, ℤ, IfNone, IfOk, IfSome, MatchBool};
ghost use Rattle.std.specs.Prelude.{OnOk, false, filter, if◌then◌else◌, length, true};
ghost use Rattle.std.specs.List.{list_any};
ghost use Rattle.std.specs.Ordering.{int_eq};
ghost use Rattle.ls_orders.specs.Places.{is_marked};
ghost use Rattle.ls_order_search.specs.Groups.{AreGroups, IsGrouped, grouped};
ghost use Rattle.ls_order_search.specs.Search.{CallsOf, NoOrder, NoWay, Settled, Settling, Way, held, is_item};
ghost use Rattle.ls_order_search.specs.Search.{on_items, stays};
ghost use Rattle.ls_order_search.specs.Trapped.{is_trapped};

use crate::searching::search;
use crate::trying::{is_trapped, tries};
use ls_orders::calls::SetCall;
use ls_orders::places::{is_marked, mark};
use std::alloc::{AllocError, Global};
use std::collections::{BTreeMap, BTreeSet};

/// Calls, and for each item those on the item.
#[derive(Drop)]
pub(crate) struct Groups<'a> {
    pub(crate) calls: &'a [SetCall],
    pub(crate) items: BTreeMap<i32, Vec<SetCall>>,
}

/// One call alone.
fn one_call(alloc: Global, call: SetCall) -> Result<Vec<SetCall>, AllocError>
    ensures { IfOk result (λ own. own.items ≡ call ∷ []) }
{
    let mut own = Vec::new(alloc);
    own.push(call)?;
    Ok(own)
}

/// Puts the call with those on its item.
fn put_call(
    alloc: Global,
    items: &mut BTreeMap<i32, Vec<SetCall>>,
    call: SetCall,
) -> Result<(), AllocError>
    ensures { OnOk result ((z : ℤ) → grouped items.new z
        ≡ (if int_eq call.item z then grouped items.old z ++ call ∷ [] else grouped items.old z)) }
{
    if let Some(own) = items.get_mut(&call.item) {
        own.push(call)?;
        return Ok(());
    }
    let own = one_call(alloc, call)?;
    items.insert(call.item, own)?;
    Ok(())
}

/// The calls in groups. The only refusal is that memory ran out.
fn group(alloc: Global, calls: &[SetCall]) -> Result<BTreeMap<i32, Vec<SetCall>>, AllocError>
    ensures { IfOk result (λ items. IsGrouped items calls.now) }
{
    let mut items = BTreeMap::new(alloc);
    for call in calls {
        put_call(alloc, &mut items, *call)?;
    }
    Ok(items)
}

/// The calls on the item.
fn of_item<'a>(items: &'a BTreeMap<i32, Vec<SetCall>>, item: &i32) -> &'a [SetCall]
    ensures { result.now ≡ grouped items.now item.now }
{
    match items.get(item) {
        Some(own) => own.as_slice(),
        None => &[],
    }
}

fn stays(marks: &[bool], call: SetCall) -> bool
    ensures { result ≡ stays marks.now call }
{
    !is_trapped(call.end) || is_marked(marks, call.called)
}

/// The calls without the trapped ones that aren't marked.
fn staying(alloc: Global, calls: &[SetCall], marks: &[bool]) -> Result<Vec<SetCall>, AllocError>
    ensures { IfOk result (λ chosen. chosen.items ≡ filter (stays marks.now) calls.now) }
{
    let mut chosen = Vec::new(alloc);
    for call in calls {
        if stays(marks, *call) {
            chosen.push(*call)?;
        }
    }
    Ok(chosen)
}

/// Marks the calls, by the places of their call events.
fn mark_all(marks: &mut Vec<bool>, order: &[SetCall]) -> Result<(), AllocError>
    ensures { OnOk result ((k : ℕ) →
        is_marked marks.new.items k ≡ (list_any (λ c. c.called == k) order.now || is_marked marks.old.items k)) }
{
    for call in order {
        mark(marks, call.called)?;
    }
    Ok(())
}

/// Takes up the item.
fn put(items: &mut BTreeSet<i32>, item: &i32) -> Result<(), AllocError>
    ensures { OnOk result ((z : ℤ) → held items.new z ≡ (int_eq item.now z || held items.old z)) }
{
    items.insert(*item)?;
    Ok(())
}

/// Whether the call is trapped, on an item that isn't among those.
fn is_new(items: &BTreeSet<i32>, call: SetCall) -> bool
    ensures { MatchBool result ((is_trapped call.end ≡ true) × (held items.now call.item ≡ false))
        (is_trapped call.end ≡ true → held items.now call.item ≡ true) }
{
    is_trapped(call.end) && !items.contains(&call.item)
}

/// An order of the item's calls; some trapped calls may be left out. None if there is none.
fn try_item(
    alloc: Global,
    groups: &Groups<'_>,
    item: &i32,
    events: usize,
) -> Result<Option<Vec<SetCall>>, AllocError>
    requires { AreGroups events groups.now }
    ensures none { IfOk result (λ found. IfNone found (NoWay [] (on_items (is_item item.now) groups.now.calls.now))) }
    ensures some { IfOk result (λ found. IfSome found
        (λ order. Way [] (on_items (is_item item.now) groups.now.calls.now) order.items)) }
{
    let own = of_item(&groups.items, item);
    tries(alloc, Vec::new(alloc), own, events)
}

/// If the call at the place is trapped, its item is settled. False if the calls on that item have no order.
fn settle_call(
    alloc: Global,
    groups: &Groups<'_>,
    events: usize,
    at: usize,
    items: &mut BTreeSet<i32>,
    marks: &mut Vec<bool>,
) -> Result<bool, AllocError>
    requires groups { AreGroups events groups.now }
    requires place { at < length groups.now.calls.now }
    requires so { Settling groups.now.calls.now at (held items.old) marks.old.items }
    ensures { IfOk result (λ goes. MatchBool goes
        (Settling groups.now.calls.now (at + 1) (held items.new) marks.new.items) (NoOrder groups.now.calls.now)) }
{
    let call = groups.calls[at];
    if !is_new(items, call) {
        return Ok(true);
    }
    let Some(order) = try_item(alloc, groups, &call.item, events)? else {
        return Ok(false);
    };
    mark_all(marks, order.as_slice())?;
    put(items, &call.item)?;
    Ok(true)
}

/// Marks of the trapped calls that stay. None if the calls on an item have no order.
fn settle(
    alloc: Global,
    groups: &Groups<'_>,
    events: usize,
) -> Result<Option<Vec<bool>>, AllocError>
    requires { AreGroups events groups.now }
    ensures none { IfOk result (λ marks. IfNone marks (NoOrder groups.now.calls.now)) }
    ensures some { IfOk result (λ marks. IfSome marks (λ m. Settled groups.now.calls.now m.items)) }
{
    let mut items = BTreeSet::new(alloc);
    let mut marks = Vec::new(alloc);
    for at in 0..groups.calls.len() {
        if !settle_call(alloc, groups, events, at, &mut items, &mut marks)? {
            return Ok(None);
        }
    }
    Ok(Some(marks))
}

/// Whether a call is trapped.
fn has_trapped(calls: &[SetCall]) -> bool
    ensures { result ≡ list_any (λ c. is_trapped c.end) calls.now }
{
    calls.iter().any(|call| is_trapped(call.end))
}

/// The same of calls, of which none may be trapped: then there is nothing to settle.
fn settled(alloc: Global, calls: &[SetCall], events: usize) -> Result<Option<Vec<bool>>, AllocError>
    requires { CallsOf events calls.now }
    ensures none { IfOk result (λ marks. IfNone marks (NoOrder calls.now)) }
    ensures some { IfOk result (λ marks. IfSome marks (λ m. Settled calls.now m.items)) }
{
    if !has_trapped(calls) {
        return Ok(Some(Vec::new(alloc)));
    }
    let items = group(alloc, calls)?;
    settle(alloc, &Groups { calls, items }, events)
}

/// An order of the calls without the trapped calls that aren't marked. None if no order of the calls is legal.
fn joint(
    alloc: Global,
    calls: &[SetCall],
    marks: &[bool],
    events: usize,
) -> Result<Option<Vec<SetCall>>, AllocError>
    requires calls { CallsOf events calls.now }
    requires settled { Settled calls.now marks.now }
    ensures none { IfOk result (λ found. IfNone found (NoOrder calls.now)) }
    ensures some { IfOk result (λ found. IfSome found (λ order. Way [] calls.now order.items)) }
{
    let chosen = staying(alloc, calls, marks)?;
    search(alloc, chosen.as_slice(), events)
}

/// An order of the calls; some trapped calls may be left out. None if there is no order. The only refusal is that
/// memory ran out.
pub(crate) fn find_calls(
    alloc: Global,
    calls: &[SetCall],
    events: usize,
) -> Result<Option<Vec<SetCall>>, AllocError>
    requires { CallsOf events calls.now }
    ensures none { IfOk result (λ found. IfNone found (NoOrder calls.now)) }
    ensures some { IfOk result (λ found. IfSome found (λ order. Way [] calls.now order.items)) }
{
    match settled(alloc, calls, events)? {
        Some(marks) => joint(alloc, calls, marks.as_slice(), events),
        None => Ok(None),
    }
}
