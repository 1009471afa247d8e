// The search, from the first event to the last. Events at which no call begins or ends are passed over. Where an open
// call ends, the calls that are placed are found in maps, and the others aren't looked at.

ghost use Rattle.std.specs.Prelude.{◌<◌, ◌≤◌, IfOk, IfNone, IfSome, MatchBool, MatchOption};
ghost use Rattle.ls_orders.specs.Legal.{empty};
ghost use Rattle.ls_order_search.specs.Plans.{IsPlan};
ghost use Rattle.ls_order_search.specs.Pools.{Holds, PassedTo};
ghost use Rattle.ls_order_search.specs.Search.{Calls, Due, Lasting, NoPlanOn, NotDue, Rising, Stuck, Within, held};

use crate::closing::close;
use crate::opening::{next_end, no_calls, open_call};
use crate::places::{end_within, next_call};
use crate::pool::Pool;
use ls_orders::calls::SetCall;
use std::alloc::{AllocError, Global};
use std::collections::BTreeSet;

/// Whether the next call was called at this place or before.
fn is_due(calls: &[SetCall], next: usize, at: usize) -> bool
    ensures { MatchBool result (Due at calls.now next) (NotDue at calls.now next) }
{
    next < calls.len() && calls[next].called <= at
}

/// Places calls until those that end here are placed. Answers a later place, before which no open call ends, and at
/// most `events`. It is `end` if no open call ends before `end`, and `end` is later. None if there is no way to place
/// them. The only refusal is that memory ran out.
fn pass(
    set: &mut BTreeSet<i32>,
    pool: &mut Pool,
    placed: &mut Vec<SetCall>,
    at: usize,
    end: usize,
    events: usize,
) -> Result<Option<usize>, AllocError>
    requires here { at < events }
    requires within { end ≤ events }
    ensures { IfOk result (λ passed. (calls : Calls) → Holds pool.old calls →
        MatchOption passed (Stuck at (held set.old) calls)
        (PassedTo at end events (held set.old) (held set.new) calls pool.new placed.old.items placed.new.items)) }
{
    if at < end {
        return Ok(Some(end));
    }
    if !close(set, pool, placed, at)? {
        return Ok(None);
    }
    Ok(Some(next_end(pool, at + 1, events)))
}

/// An order of the calls, with each call that has an end. None if there is no order. The only refusal is that
/// memory ran out.
pub(crate) fn search(
    alloc: Global,
    calls: &[SetCall],
    events: usize,
) -> Result<Option<Vec<SetCall>>, AllocError>
    requires { Rising calls.now }
    ensures none { IfOk result (λ found. IfNone found (NoPlanOn calls.now)) }
    ensures some { IfOk result
        (λ found. IfSome found (λ order. Within events calls.now → Lasting calls.now →
        IsPlan empty calls.now order.items)) }
{
    let mut set = BTreeSet::new(alloc);
    let mut pool = no_calls(alloc);
    let mut placed = Vec::new(alloc);
    let mut next = 0;
    let mut at = 0;
    // no open call ends before this place
    let mut end = events;
    'places: while at < events {
        'due: while is_due(calls, next, at) {
            let call = calls[next];
            open_call(&mut pool, call)?;
            end = end_within(call.end, at, end);
            next += 1;
        }
        let Some(passed) = pass(&mut set, &mut pool, &mut placed, at, end, events)? else {
            return Ok(None);
        };
        end = passed;
        at = next_call(calls, next, end);
    }
    Ok(Some(placed))
}
