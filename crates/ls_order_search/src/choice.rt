// What a call does to the set, and where it ends.

ghost use Rattle.std.specs.Prelude.{◌≡◌, Decides};
ghost use Rattle.ls_order_search.specs.Plans.{needed, turns, want};
ghost use Rattle.ls_order_search.specs.Search.{ends_at};

use ls_orders::calls::{End, Operation};

/// Whether the operation changes the set.
pub(crate) fn turns(operation: Operation, was: bool) -> bool
    ensures { result ≡ turns operation was }
{
    match operation {
        Operation::Add => !was,
        Operation::Remove => was,
        Operation::Contains => false,
    }
}

/// Whether the item has to be present before a call with this reply.
fn needed(operation: Operation, reply: bool) -> bool
    ensures { result ≡ needed operation reply }
{
    match operation {
        Operation::Add => !reply,
        Operation::Remove => reply,
        Operation::Contains => reply,
    }
}

/// Whether the item has to be present before the call. None if the call can't be placed.
pub(crate) fn want(end: End, operation: Operation) -> Option<bool>
    ensures { result ≡ want end operation }
{
    match end {
        End::Returned(_, Some(reply)) => Some(needed(operation, reply)),
        End::Returned(_, None) => None,
        _ => match operation {
            Operation::Contains => None,
            _ => Some(needed(operation, true)),
        },
    }
}

/// Whether these are both true or both false.
pub(crate) fn same(one: bool, other: bool) -> bool
    ensures { Decides result (one ≡ other) }
{
    one && other || (!one && !other)
}

/// Whether a call with this end ends at the place.
pub(crate) fn ends_at(end: End, at: usize) -> bool
    ensures { result ≡ ends_at at end }
{
    match end {
        End::Pending => false,
        End::Trapped(place) => place == at,
        End::Returned(place, _) => place == at,
    }
}
