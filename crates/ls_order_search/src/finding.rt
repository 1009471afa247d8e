// A legal order of a history.

ghost use Rattle.std.specs.Prelude.{◌≡◌, [], IfNone, IfOk, IfSome, None, map, string_bytes, true};
ghost use Rattle.ls_report.specs.Discipline.{is_history};
ghost use Rattle.ls_report.specs.Plain.{plain_event};
ghost use Rattle.ls_orders.specs.Legal.{IsLegal};
ghost use Rattle.ls_orders.specs.Rules.{named_by};
ghost use Rattle.ls_orders.specs.SetCalls.{first_foreign, set_calls};
ghost use Rattle.ls_order_search.specs.Answers.{NoneIsLegal};
ghost use Rattle.ls_order_search.specs.Search.{Way};

use crate::items::find_calls;
use ls_orders::calls::SetCall;
use ls_orders::finding::{first_foreign, name_at, set_calls};
use ls_report::history::NamedEvent;
use std::alloc::{AllocError, Global};

/// The texts of the calls.
fn names_of(
    alloc: Global,
    events: &[NamedEvent<'_>],
    order: &[SetCall],
) -> Result<Vec<String>, AllocError>
    ensures { IfOk result (λ names. map string_bytes names.items ≡
        map (named_by (map plain_event events.now)) order.now) }
{
    let mut names = Vec::with_capacity(alloc, order.len())?;
    for call in order {
        let name = name_at(alloc, events, call.called)?;
        names.push(name)?;
    }
    Ok(names)
}

/// The texts of the calls of an order that was found.
fn legal_names(
    alloc: Global,
    events: &[NamedEvent<'_>],
    order: &[SetCall],
) -> Result<Vec<String>, AllocError>
    requires history { is_history (map plain_event events.now) ≡ true }
    requires one_set { first_foreign (map plain_event events.now) ≡ None }
    requires way { Way [] (set_calls (map plain_event events.now)) order.now }
    ensures { IfOk result (λ names. IsLegal (map plain_event events.now) (map string_bytes names.items)) }
{
    names_of(alloc, events, order)
}

/// A legal order of a history of one set, whose set calls these are, by the texts of its calls. None if no order is
/// legal.
pub(crate) fn order_of(
    alloc: Global,
    events: &[NamedEvent<'_>],
    calls: &[SetCall],
) -> Result<Option<Vec<String>>, AllocError>
    requires history { is_history (map plain_event events.now) ≡ true }
    requires one_set { first_foreign (map plain_event events.now) ≡ None }
    requires calls { calls.now ≡ set_calls (map plain_event events.now) }
    ensures some { IfOk result
        (λ found. IfSome found (λ order. IsLegal (map plain_event events.now) (map string_bytes order.items))) }
    ensures none { IfOk result (λ found. IfNone found (NoneIsLegal (map plain_event events.now))) }
{
    match find_calls(alloc, calls, events.len())? {
        Some(order) => {
            let names = legal_names(alloc, events, order.as_slice())?;
            Ok(Some(names))
        }
        None => Ok(None),
    }
}

/// A legal order of the history's set calls, by the texts of its calls. None if no order is legal. The only refusal is
/// that memory ran out.
pub fn find_order(
    alloc: Global,
    events: &[NamedEvent<'_>],
) -> Result<Option<Vec<String>>, AllocError>
    requires { is_history (map plain_event events.now) ≡ true }
    ensures some { IfOk result
        (λ found. IfSome found (λ order. IsLegal (map plain_event events.now) (map string_bytes order.items))) }
    ensures none { IfOk result (λ found. IfNone found (NoneIsLegal (map plain_event events.now))) }
{
    if first_foreign(events).is_some() {
        return Ok(None);
    }
    let calls = set_calls(alloc, events)?;
    order_of(alloc, events, calls.as_slice())
}
