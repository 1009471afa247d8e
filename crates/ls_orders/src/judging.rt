// Judging an order.

ghost use Rattle.std.specs.Prelude.{◌≡◌, ◌↔◌, IfOk, map};
ghost use Rattle.ls_report.specs.Plain.{plain_event};
ghost use Rattle.ls_orders.specs.Legal.{IsLegal, plain_verdict};
ghost use Rattle.ls_orders.specs.Named.{plain_call};
ghost use Rattle.ls_orders.specs.Rules.{Judgement, Broken, Legal, judgement_of, judgement_of_calls};
ghost use Rattle.ls_orders.specs.SetCalls.{name_at, set_calls};

use crate::calls::SetCall;
use crate::finding::{first_foreign, name_at, name_of, set_calls};
use crate::naming::{Named, calls_of, names_of};
use crate::order::Order;
use crate::rules::{first_late, first_missing, first_repeated, first_wrong};
use crate::verdict::{OrderRule, OrderVerdict};
use ls_report::history::{History, NamedEvent};
use std::alloc::{AllocError, Global};

/// The verdict that the call breaks the rule.
fn broken(
    alloc: Global,
    events: &[NamedEvent<'_>],
    rule: OrderRule,
    call: SetCall,
) -> Result<OrderVerdict, AllocError>
    ensures { IfOk result (λ v. plain_verdict v ≡ Broken rule (name_at (map plain_event events.now) call.called)) }
{
    let call = name_at(alloc, events, call.called)?;
    Ok(OrderVerdict::Broken { rule, call })
}

/// The rules of an order of set calls.
fn judge_calls(
    alloc: Global,
    events: &[NamedEvent<'_>],
    calls: &[SetCall],
    order: &[&SetCall],
) -> Result<OrderVerdict, AllocError>
    requires { calls.now ≡ set_calls (map plain_event events.now) }
    ensures { IfOk result
        (λ v. plain_verdict v ≡ judgement_of_calls (map plain_event events.now) (map plain_call order.now)) }
{
    if let Some(call) = first_repeated(alloc, order)? {
        return broken(alloc, events, OrderRule::Repeated, call);
    }
    if let Some(call) = first_missing(alloc, calls, order)? {
        return broken(alloc, events, OrderRule::Missing, call);
    }
    if let Some(call) = first_late(order) {
        return broken(alloc, events, OrderRule::AgainstTime, call);
    }
    if let Some(call) = first_wrong(alloc, order)? {
        return broken(alloc, events, OrderRule::WrongReply, call);
    }
    Ok(OrderVerdict::Legal)
}

/// Whether the order is a legal order of the history's set calls. If it isn't, the answer is the first rule that is
/// broken, at the first call that breaks it. The only refusal is that memory ran out.
pub fn check_order(
    alloc: Global,
    history: &History<'_>,
    order: &Order<'_>,
) -> Result<OrderVerdict, AllocError>
    ensures legal { IfOk result (λ v. (plain_verdict v ≡ Legal) ↔ IsLegal history.now order.now) }
    ensures exact { IfOk result (λ v. plain_verdict v ≡ judgement_of history.now order.now) }
{
    judged(alloc, history, order)
}

fn judged(
    alloc: Global,
    history: &History<'_>,
    order: &Order<'_>,
) -> Result<OrderVerdict, AllocError>
    ensures { IfOk result (λ v. plain_verdict v ≡ judgement_of history.now order.now) }
{
    let events = history.events();
    if let Some(event) = first_foreign(events) {
        let call = name_of(alloc, event)?;
        return Ok(OrderVerdict::Broken {
            rule: OrderRule::NotASetCall,
            call,
        });
    }
    let calls = set_calls(alloc, events)?;
    let names = names_of(alloc, events, calls.as_slice())?;
    match calls_of(alloc, &names, calls.as_slice(), order.calls())? {
        Named::Unknown(call) => Ok(OrderVerdict::Broken {
            rule: OrderRule::UnknownCall,
            call,
        }),
        Named::Calls(order) => judge_calls(alloc, events, calls.as_slice(), order.as_slice()),
    }
}
