// Orders of calls.

use std::marker::Model;

/// Calls in an order. Each has its text, as `A.1`: the thread's name and the call's number among those of its thread.
/// A number may have any number of digits. The texts are places in the text that was read.
#[derive(Drop)]
pub struct Order<'a> {
    calls: Vec<&'a str>,
}

impl<'a> Model for Order<'a> {
    ghost use Rattle.std.specs.Prelude.{List, map};
    ghost use Rattle.ls_report.specs.Events.{Text};
    ghost use Rattle.ls_orders.specs.Orders.{plain_text};

    ghost Value = { List Text };

    ghost view = { λ o. map plain_text o.calls.items };
}

impl<'a> Order<'a> {
    ghost use Rattle.std.specs.Prelude.{◌≡◌, map};
    ghost use Rattle.ls_orders.specs.Orders.{plain_text};

    pub(crate) fn from_calls(calls: Vec<&'a str>) -> Order<'a>
        ensures { result ≡ map plain_text calls.entry.items }
    {
        Order { calls }
    }

    /// The calls' texts, in order.
    pub fn calls(&self) -> &[&'a str]
        ensures { map plain_text result.now ≡ self.now }
    {
        self.calls.as_slice()
    }
}
