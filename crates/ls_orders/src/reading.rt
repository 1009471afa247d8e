// Reading an order.

ghost use Rattle.std.specs.Prelude.{◌≡◌, ◌==◌, length, map, unwrap_or};
ghost use Rattle.std.specs.List.{list_all, position};
ghost use Rattle.ls_lexer.specs.Characters.{is_digit};
ghost use Rattle.ls_report.specs.Events.{Text};
ghost use Rattle.ls_orders.specs.Each.{each};
ghost use Rattle.ls_items.specs.Items.{items};
ghost use Rattle.ls_orders.specs.Orders.{call_at, Gives, is_call, is_number, order_of, plain_text};

use crate::fault::OrderFault;
use crate::order::Order;
use ls_items::item_len;
use ls_lexer::characters::is_digit;
use ls_lexer::names::is_name;
use ls_report::cuts::cut;
use std::alloc::Global;

fn are_digits(text: &[u8]) -> bool
    ensures { result ≡ list_all is_digit text.now }
{
    text.iter().all(|b| is_digit(*b))
}

fn is_number(text: &[u8]) -> bool
    ensures { result ≡ is_number text.now }
{
    match text {
        [] => false,
        [first, ..] => *first != b'0' && are_digits(text),
    }
}

fn is_call(text: &str) -> bool
    ensures { result ≡ is_call text.now }
{
    match cut(text, '.') {
        Some((name, number)) => is_name(name) && is_number(number.as_bytes()),
        None => false,
    }
}

/// The call that the item names. If the item is no call, the fault has its place, which is `at`.
fn read_call(at: usize, item: &[u8]) -> Result<&str, OrderFault>
    ensures { Gives plain_text result (call_at (at, item.now)) }
{
    let Ok(text) = std::str::from_utf8(item) else {
        return Err(OrderFault::BadOrder { at });
    };
    if !is_call(text) {
        return Err(OrderFault::BadOrder { at });
    }
    Ok(text)
}

/// The order that the text has. Otherwise the fault has the byte where the first item begins that is no call, or
/// memory ran out.
pub fn read_order<'a>(alloc: Global, text: &'a str) -> Result<Order<'a>, OrderFault>
    ensures { Gives (λ o. o) result (order_of text.now) }
{
    // A call takes at least three bytes, and one byte before the next.
    let mut calls = Vec::with_capacity(alloc, text.len() / 4 + 1)?;
    let mut at = 0;
    let mut rest = text.as_bytes();
    while !rest.is_empty() {
        let len = item_len(rest);
        if len == 0 {
            rest = &rest[1..];
            at += 1;
        } else {
            let (item, after) = rest.split_at(len);
            let call = read_call(at, item)?;
            calls.push(call)?;
            rest = after;
            at += len;
        }
    }
    Ok(Order::from_calls(calls))
}
