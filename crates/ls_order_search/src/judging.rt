// The verdict on a history.

ghost use Rattle.std.specs.Prelude.{◌≡◌, ◌≤◌, IfNone, IfOk, IfSome, length, map, string_bytes, take, true};
ghost use Rattle.ls_report.specs.Discipline.{is_history};
ghost use Rattle.ls_report.specs.Plain.{plain_event};
ghost use Rattle.ls_orders.specs.Legal.{IsLegal};
ghost use Rattle.ls_order_search.specs.Answers.{IsDecided, IsOutcome, NoneIsLegal};
ghost use Rattle.ls_orders.specs.SetCalls.{set_calls};

use crate::finding::{find_order, order_of};
use crate::trapped::has_many_trapped;
use ls_orders::calls::SetCall;
use ls_orders::finding::{first_foreign, name_of, set_calls};
use ls_report::history::NamedEvent;
use std::alloc::{AllocError, Global};

/// Whether a history has a legal order, and with which event it ceases to have one.
#[derive(Drop)]
pub enum OrderAnswer {
    /// The text of the first call that isn't a set call on the same object as the first set call.
    NotOneSet(String),
    /// An item has more than 12 trapped calls.
    TooManyTrapped,
    /// A legal order, by the texts of its calls.
    Legal(Vec<String>),
    /// The place, from 0, of the event with which no order is legal any more, and a legal order of the events before
    /// it.
    Hopeless { at: usize, order: Vec<String> },
}

/// A legal order of the first events, by the texts of its calls. None if no order is legal.
fn find_front(
    alloc: Global,
    events: &[NamedEvent<'_>],
    count: usize,
) -> Result<Option<Vec<String>>, AllocError>
    requires history { is_history (map plain_event events.now) ≡ true }
    requires count { count ≤ length events.now }
    ensures some { IfOk result
        (λ found. IfSome found
        (λ order. IsLegal (take count (map plain_event events.now)) (map string_bytes order.items))) }
    ensures none { IfOk result (λ found. IfNone found (NoneIsLegal (take count (map plain_event events.now)))) }
{
    find_order(alloc, &events[..count])
}

/// The place of the first event with which no order is legal any more, and a legal order of the events before it. The
/// place is found by binary search.
fn find_hopeless(alloc: Global, events: &[NamedEvent<'_>]) -> Result<OrderAnswer, AllocError>
    requires history { is_history (map plain_event events.now) ≡ true }
    requires decided { IsDecided (map plain_event events.now) }
    requires none { NoneIsLegal (map plain_event events.now) }
    ensures { IfOk result (λ outcome. IsOutcome (map plain_event events.now) outcome) }
{
    let mut at = 0;
    let mut order = Vec::new(alloc);
    let mut illegal = events.len();
    'bisect: while illegal - at > 1 {
        let middle = at + (illegal - at) / 2;
        match find_front(alloc, events, middle)? {
            Some(found) => {
                at = middle;
                order = found;
            }
            None => illegal = middle,
        }
    }
    Ok(OrderAnswer::Hopeless { at, order })
}

/// Whether a history with few trapped calls has a legal order, or else the event with which it ceases to have one.
fn decide(
    alloc: Global,
    events: &[NamedEvent<'_>],
    calls: &[SetCall],
) -> Result<OrderAnswer, AllocError>
    requires history { is_history (map plain_event events.now) ≡ true }
    requires calls { calls.now ≡ set_calls (map plain_event events.now) }
    requires decided { IsDecided (map plain_event events.now) }
    ensures { IfOk result (λ outcome. IsOutcome (map plain_event events.now) outcome) }
{
    match order_of(alloc, events, calls)? {
        Some(order) => Ok(OrderAnswer::Legal(order)),
        None => find_hopeless(alloc, events),
    }
}

/// Whether the history has a legal order, or else the event with which it ceases to have one. The only refusal is that
/// memory ran out.
pub fn judge(alloc: Global, events: &[NamedEvent<'_>]) -> Result<OrderAnswer, AllocError>
    requires { is_history (map plain_event events.now) ≡ true }
    ensures { IfOk result (λ outcome. IsOutcome (map plain_event events.now) outcome) }
{
    if let Some(event) = first_foreign(events) {
        let call = name_of(alloc, event)?;
        return Ok(OrderAnswer::NotOneSet(call));
    }
    let calls = set_calls(alloc, events)?;
    if has_many_trapped(alloc, calls.as_slice())? {
        return Ok(OrderAnswer::TooManyTrapped);
    }
    decide(alloc, events, calls.as_slice())
}
