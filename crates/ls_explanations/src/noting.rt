// What is said of an order that isn't legal.

ghost use Rattle.std.specs.Prelude.{◌≡◌, ◌++◌, IfOk, OnOk, string_bytes};
ghost use Rattle.std.specs.List.{flat_map};
ghost use Rattle.ls_orders.specs.Legal.{plain_verdict};
ghost use Rattle.ls_explanations.specs.Held.{calls_before};
ghost use Rattle.ls_explanations.specs.OrderNotes.{broken_text, held_text, more_item, order_note, set_text};

use crate::held::{calls_before, held};
use ls_orders::{Order, OrderRule, OrderVerdict};
use ls_report::history::History;
use std::alloc::{AllocError, Global};
use std::fmt::Write;

/// What is said of the call that breaks a rule.
fn broken_text(rule: OrderRule) -> &'static str
    ensures { result.now ≡ broken_text rule }
{
    match rule {
        OrderRule::NotASetCall => "is no call of the one set, so the history isn't judged",
        OrderRule::UnknownCall => "is no set call of the history",
        OrderRule::Repeated => "stands twice in the order",
        OrderRule::Missing => "returned, and isn't in the order",
        OrderRule::AgainstTime => "stands after a call that began when it had ended",
        OrderRule::WrongReply => "returned another answer than the set has there",
    }
}

/// Adds items, with a comma and a space before each.
fn push_more(text: &mut String, items: &[i32]) -> Result<(), AllocError>
    ensures { OnOk result (string_bytes text.new ≡ string_bytes text.old ++ flat_map more_item items.now) }
{
    for item in items {
        write!(text, ", {item}")?;
    }
    Ok(())
}

/// What a set holds, in words.
fn held_text(alloc: Global, items: &[i32]) -> Result<String, AllocError>
    ensures { IfOk result (λ text. string_bytes text ≡ held_text items.now) }
{
    match items {
        [] => String::from_str(alloc, "it is empty"),
        [first, more @ ..] => {
            let mut text = format!(in alloc; "it holds {first}")?;
            push_more(&mut text, more)?;
            Ok(text)
        }
    }
}

/// Where an answer is another than the set has, what the set holds before this entry.
fn set_text(
    alloc: Global,
    history: &History<'_>,
    order: &Order<'_>,
    rule: OrderRule,
    entry: &str,
) -> Result<String, AllocError>
    ensures { IfOk result (λ text.
        string_bytes text ≡ set_text rule (calls_before history.now order.now entry.now)) }
{
    match rule {
        OrderRule::WrongReply => {
            let calls = calls_before(alloc, history, order, entry)?;
            let items = held(alloc, calls.as_slice())?;
            let text = held_text(alloc, items.as_slice())?;
            format!(in alloc; ": {text}")
        }
        _ => Ok(String::new(alloc)),
    }
}

/// What is said of a verdict on an order of a history: which call breaks which rule and, where an answer is another
/// than the set has, what the set holds there. It is one line, or nothing if the order is legal. The only refusal is
/// that memory ran out.
pub fn order_note(
    alloc: Global,
    history: &History<'_>,
    order: &Order<'_>,
    verdict: &OrderVerdict,
) -> Result<String, AllocError>
    ensures { IfOk result (λ text.
        string_bytes text ≡ order_note history.now order.now (plain_verdict verdict.now)) }
{
    match verdict {
        OrderVerdict::Legal => Ok(String::new(alloc)),
        OrderVerdict::Broken { rule, call } => {
            let says = broken_text(*rule);
            let set = set_text(alloc, history, order, *rule, call.as_str())?;
            format!(in alloc; "listset: {call} {says}{set}\n")
        }
    }
}
