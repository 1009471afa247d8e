// What a set holds after calls, in the order in which its items are told.

ghost use Rattle.std.specs.Prelude.{◌≡◌, [], ℤ, IfOk, filter, map};
ghost use Rattle.std.specs.BTreeSet.{contains};
ghost use Rattle.std.specs.HashMap.{get_by_text};
ghost use Rattle.std.specs.List.{before_first, filter_map};
ghost use Rattle.std.specs.Ordering.{int_cmp};
ghost use Rattle.std.specs.Str.{bytes_eq};
ghost use Rattle.ls_report.specs.Events.{Text};
ghost use Rattle.ls_report.specs.Plain.{plain_event};
ghost use Rattle.ls_orders.specs.Orders.{plain_text};
ghost use Rattle.ls_orders.specs.Rules.{is_present};
ghost use Rattle.ls_orders.specs.SetCalls.{call_named};
ghost use Rattle.ls_explanations.specs.Held.{added_after, calls_before, held, is_add};

use ls_orders::Order;
use ls_orders::calls::{Operation, SetCall};
use ls_orders::finding::{name_at, set_calls};
use ls_orders::set::apply;
use ls_report::history::{History, NamedEvent};
use std::alloc::{AllocError, Global};
use std::collections::{BTreeSet, HashMap};

/// The calls by their texts. Of calls with one text it has the first.
fn named_calls(
    alloc: Global,
    events: &[NamedEvent<'_>],
    calls: &[SetCall],
) -> Result<HashMap<String, SetCall>, AllocError>
    ensures { IfOk result (λ names. (text : Text) →
        get_by_text names text ≡ call_named (map plain_event events.now) calls.now text) }
{
    let mut names = HashMap::new(alloc);
    // This goes from the last to the first, so that of calls with one text the first stays.
    for i in (0..calls.len()).rev() {
        let call = calls[i];
        let name = name_at(alloc, events, call.called)?;
        names.insert(name, call)?;
    }
    Ok(names)
}

/// The calls that the entries of an order name, up to the first entry with this text.
fn calls_up_to(
    alloc: Global,
    names: &HashMap<String, SetCall>,
    order: &[&str],
    entry: &str,
) -> Result<Vec<SetCall>, AllocError>
    ensures { IfOk result (λ calls. calls.items ≡
        filter_map (get_by_text names.now) (before_first (bytes_eq entry.now) (map plain_text order.now))) }
{
    let mut calls = Vec::new(alloc);
    for name in order {
        if entry == *name {
            return Ok(calls);
        }
        if let Some(call) = names.get(*name) {
            calls.push(*call)?;
        }
    }
    Ok(calls)
}

/// The set calls that an order names before the first entry with this text. The only refusal is that memory ran out.
pub(crate) fn calls_before(
    alloc: Global,
    history: &History<'_>,
    order: &Order<'_>,
    entry: &str,
) -> Result<Vec<SetCall>, AllocError>
    ensures { IfOk result (λ calls. calls.items ≡ calls_before history.now order.now entry.now) }
{
    let events = history.events();
    let calls = set_calls(alloc, events)?;
    let names = named_calls(alloc, events, calls.as_slice())?;
    calls_up_to(alloc, &names, order.calls(), entry)
}

fn is_add(operation: Operation) -> bool
    ensures { result ≡ is_add operation }
{
    matches!(operation, Operation::Add)
}

/// The items that the calls add, each once, by the first call that adds it.
fn added(alloc: Global, calls: &[SetCall]) -> Result<Vec<i32>, AllocError>
    ensures { IfOk result (λ items. items.items ≡ added_after [] calls.now) }
{
    let mut seen = BTreeSet::new(alloc);
    let mut items = Vec::new(alloc);
    for call in calls {
        if is_add(call.operation) {
            let is_first = seen.insert(call.item)?;
            if is_first {
                items.push(call.item)?;
            }
        }
    }
    Ok(items)
}

/// The set after the calls, which is empty before.
fn set_after(alloc: Global, calls: &[SetCall]) -> Result<BTreeSet<i32>, AllocError>
    ensures { IfOk result (λ set. (item : ℤ) → contains int_cmp set item ≡ is_present item calls.now) }
{
    let mut set = BTreeSet::new(alloc);
    for call in calls {
        apply(&mut set, *call)?;
    }
    Ok(set)
}

/// Of the items those that are in the set.
fn those_in(alloc: Global, set: &BTreeSet<i32>, items: &[i32]) -> Result<Vec<i32>, AllocError>
    ensures { IfOk result (λ kept. kept.items ≡ filter (contains int_cmp set.now) items.now) }
{
    let mut kept = Vec::new(alloc);
    for item in items {
        if set.contains(item) {
            kept.push(*item)?;
        }
    }
    Ok(kept)
}

/// What the set holds after the calls: its items in the order in which they were first added. The only refusal is that
/// memory ran out.
pub(crate) fn held(alloc: Global, calls: &[SetCall]) -> Result<Vec<i32>, AllocError>
    ensures { IfOk result (λ items. items.items ≡ held calls.now) }
{
    let set = set_after(alloc, calls)?;
    let added = added(alloc, calls)?;
    those_in(alloc, &set, added.as_slice())
}
