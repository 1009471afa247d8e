// Trapped calls, which may be left out.

ghost use Rattle.std.specs.Prelude.{◌≡◌, ◌++◌, IfNone, IfOk, IfSome};
ghost use Rattle.ls_order_search.specs.Search.{Lasting, NoWay, Rising, Way, Within};
ghost use Rattle.ls_order_search.specs.Trapped.{is_trapped};

use crate::searching::search;
use ls_orders::calls::{End, SetCall};
use std::alloc::{AllocError, Global};

pub(crate) fn is_trapped(end: End) -> bool
    ensures { result ≡ is_trapped end }
{
    matches!(end, End::Trapped(_))
}

/// The same calls.
fn copied(alloc: Global, calls: &[SetCall]) -> Result<Vec<SetCall>, AllocError>
    ensures { IfOk result (λ copy. copy.items ≡ calls.now) }
{
    let mut copy = Vec::with_capacity(alloc, calls.len())?;
    for call in calls {
        copy.push(*call)?;
    }
    Ok(copy)
}

/// An order of the calls in `front` and of the calls after them. Trapped calls after `front` may be left out. None if
/// there is no order. The only refusal is that memory ran out.
pub(crate) fn tries(
    alloc: Global,
    front: Vec<SetCall>,
    back: &[SetCall],
    events: usize,
) -> Result<Option<Vec<SetCall>>, AllocError>
    requires { Rising (front.items ++ back.now) }
    ensures none { IfOk result (λ found. IfNone found (NoWay front.items back.now)) }
    ensures some { IfOk result
        (λ found. IfSome found (λ order. Within events (front.items ++ back.now) → Lasting (front.items ++ back.now) →
        Way front.items back.now order.items)) }
{
    let mut front = front;
    for i in 0..back.len() {
        let call = back[i];
        if is_trapped(call.end) {
            let less = copied(alloc, front.as_slice())?;
            let found = tries(alloc, less, &back[i + 1..], events)?;
            if found.is_some() {
                return Ok(found);
            }
        }
        front.push(call)?;
    }
    search(alloc, front.as_slice(), events)
}
