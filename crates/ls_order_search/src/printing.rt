// Printing an order.

ghost use Rattle.std.specs.Prelude.{◌≡◌, ◌++◌, IfOk, OnOk, map, string_bytes};
ghost use Rattle.std.specs.List.{flat_map};
ghost use Rattle.ls_order_search.specs.OrderLines.{OrderReadsBack, order_line, spaced};

use std::alloc::{AllocError, Global};

/// Pushes the calls, each with a space before it.
fn push_spaced(text: &mut String, calls: &[String]) -> Result<(), AllocError>
    ensures { OnOk result (string_bytes text.new ≡ string_bytes text.old ++
        flat_map spaced (map string_bytes calls.now)) }
{
    for call in calls {
        text.push_str(" ")?;
        text.push_str(call.as_str())?;
    }
    Ok(())
}

/// The calls on one line, with a space between two. The only refusal is that memory ran out.
pub fn order_line(alloc: Global, order: &[String]) -> Result<String, AllocError>
    ensures { IfOk result (λ text. string_bytes text ≡ order_line (map string_bytes order.now)) }
{
    let mut text = String::new(alloc);
    if let [first, rest @ ..] = order {
        text.push_str(first.as_str())?;
        push_spaced(&mut text, rest)?;
    }
    text.push_str("\n")?;
    Ok(text)
}

/// The line of a legal order is read as that order.
pub fn order_reads_back()
    ensures { OrderReadsBack }
{}
