// Calls that are opened and placed.

ghost use Rattle.std.specs.Prelude.{◌≡◌, ◌++◌, ◌∷◌, ◌<◌, ◌≤◌, [], false, true, Decides, IfNone, IfSome, OnOk};
ghost use Rattle.std.specs.BTreeMap.{btree_map_len, get};
ghost use Rattle.std.specs.BTreeMap.Range.{IsLeBy};
ghost use Rattle.std.specs.Prelude.{None};
ghost use Rattle.ls_orders.specs.Rules.{ended_before};
ghost use Rattle.ls_orders.specs.declared.calls.SetCall.{SetCall as ghost_SetCall};
ghost use Rattle.ls_order_search.specs.Plans.{Among, Distinct};
ghost use Rattle.ls_order_search.specs.Pools.{EndsNext, Holds, Indexed, IsFirst, Taken, end_if, ending_cmp, ending_of};
ghost use Rattle.ls_order_search.specs.Pools.{first_ending, first_turn, place_of, turn_at, turn_cmp, turn_of};
ghost use Rattle.ls_order_search.specs.Search.{Calls, Choice, Fits, LastUntil, ends_at};

use crate::choice::{ends_at, same, turns, want};
use crate::places::end_within;
use crate::pool::{Ending, Pool, Turn};
use ls_orders::calls::{End, SetCall};
use std::alloc::{AllocError, Global};
use std::collections::BTreeMap;

fn place_of(end: End) -> Option<usize>
    ensures { result ≡ place_of end }
{
    match end {
        End::Pending => None,
        End::Trapped(at) => Some(at),
        End::Returned(at, _) => Some(at),
    }
}

fn end_if(changes: bool, place: Option<usize>) -> usize
    ensures { result ≡ end_if changes place }
{
    if changes { place.unwrap_or(0) } else { 0 }
}

fn turn_at(call: SetCall, present: bool) -> Turn
    ensures { result ≡ turn_at call present }
{
    let changes = turns(call.operation, present);
    let place = place_of(call.end);
    Turn {
        item: call.item,
        present,
        turns: changes,
        pending: changes && !place.is_some(),
        end: end_if(changes, place),
        called: call.called,
    }
}

/// None if the call can't be placed.
fn turn_of(call: SetCall) -> Option<Turn>
    ensures { result ≡ turn_of call }
{
    let present = want(call.end, call.operation)?;
    Some(turn_at(call, present))
}

/// None if the call is pending.
fn ending_of(call: SetCall) -> Option<Ending>
    ensures { result ≡ ending_of call }
{
    let at = place_of(call.end)?;
    Some(Ending {
        at,
        called: call.called,
    })
}

/// No open calls.
pub(crate) fn no_calls(alloc: Global) -> Pool
    ensures { Holds result [] }
{
    Pool {
        turns: BTreeMap::new(alloc),
        ends: BTreeMap::new(alloc),
    }
}

fn put_turn(turns: &mut BTreeMap<Turn, SetCall>, call: SetCall) -> Result<(), AllocError>
    ensures { OnOk result ((calls : Calls) → Distinct (calls ++ call ∷ []) →
        Indexed turn_cmp turn_of turns.old calls → Indexed turn_cmp turn_of turns.new (calls ++ call ∷ [])) }
{
    if let Some(turn) = turn_of(call) {
        turns.insert(turn, call)?;
    }
    Ok(())
}

fn put_ending(ends: &mut BTreeMap<Ending, SetCall>, call: SetCall) -> Result<(), AllocError>
    ensures { OnOk result ((calls : Calls) → Distinct (calls ++ call ∷ []) →
        Indexed ending_cmp ending_of ends.old calls → Indexed ending_cmp ending_of ends.new (calls ++ call ∷ [])) }
{
    if let Some(ending) = ending_of(call) {
        ends.insert(ending, call)?;
    }
    Ok(())
}

/// One more open call. The only refusal is that memory ran out.
pub(crate) fn open_call(pool: &mut Pool, call: SetCall) -> Result<(), AllocError>
    ensures { OnOk result ((calls : Calls) → Distinct (calls ++ call ∷ []) → Holds pool.old calls →
        Holds pool.new (calls ++ call ∷ [])) }
{
    put_turn(&mut pool.turns, call)?;
    put_ending(&mut pool.ends, call)
}

fn first_turn(turns: &BTreeMap<Turn, SetCall>, start: Turn) -> Option<(Turn, SetCall)>
    ensures none { IfNone result ((q : _) → IsLeBy turn_cmp start q → get turn_cmp turns.now q ≡ None) }
    ensures some { IfSome result (IsFirst turn_cmp turns.now start) }
{
    match turns.range(start..).next() {
        Some((turn, call)) => Some((*turn, *call)),
        None => None,
    }
}

fn first_ending(ends: &BTreeMap<Ending, SetCall>, start: Ending) -> Option<(Ending, SetCall)>
    ensures none { IfNone result ((q : _) → IsLeBy ending_cmp start q → get ending_cmp ends.now q ≡ None) }
    ensures some { IfSome result (IsFirst ending_cmp ends.now start) }
{
    match ends.range(start..).next() {
        Some((ending, call)) => Some((*ending, *call)),
        None => None,
    }
}

/// The key that comes before those of the calls on an item, if the item is present, or absent.
fn start_of(item: &i32, was: bool) -> Turn
    ensures { result ≡ first_turn item.now was }
{
    Turn {
        item: *item,
        present: was,
        turns: false,
        pending: false,
        end: 0,
        called: 0,
    }
}

/// Whether the key is of a call on the item, if the item is present, or absent.
fn is_on(turn: Turn, item: &i32, was: bool) -> bool
    ensures { Decides result ((turn.item ≡ item.now) × (turn.present ≡ was)) }
{
    turn.item == *item && same(turn.present, was)
}

/// Of the open calls on an item that is present, or absent, one that changes nothing. If there is none, then among
/// those that change the set, the first to end.
fn next_turn(pool: &Pool, item: &i32, was: bool) -> Option<(Turn, SetCall)>
    ensures there { IfSome result (λ e. get turn_cmp pool.now.turns e.0 ≡ Some e.1) }
    ensures none { (calls : Calls) → Holds pool.now calls →
        IfNone result ((c : ghost_SetCall) → Among c calls → Fits item.now was c → ⊥) }
    ensures some { (calls : Calls) → Holds pool.now calls →
        IfSome result (λ e. Among e.1 calls × (turn_of e.1 ≡ Some e.0) × Choice item.now was calls e.1) }
{
    match first_turn(&pool.turns, start_of(item, was)) {
        Some((turn, call)) => {
            if is_on(turn, item, was) {
                Some((turn, call))
            } else {
                None
            }
        }
        None => None,
    }
}

/// Of the open calls that end at a place or later, the first to end.
fn next_ending(pool: &Pool, from: usize) -> Option<SetCall>
    ensures none { (calls : Calls) → Holds pool.now calls →
        IfNone result ((c : ghost_SetCall) → Among c calls → ended_before c.end from ≡ false → place_of c.end ≡ None) }
    ensures some { (calls : Calls) → Holds pool.now calls → IfSome result (EndsNext from calls) }
{
    match first_ending(
        &pool.ends,
        Ending {
            at: from,
            called: 0,
        },
    ) {
        Some((_, call)) => Some(call),
        None => None,
    }
}

/// An open call that ends at the place.
pub(crate) fn ending(pool: &Pool, at: usize) -> Option<SetCall>
    ensures none { (calls : Calls) → Holds pool.now calls →
        IfNone result ((c : ghost_SetCall) → Among c calls → ends_at at c.end ≡ false) }
    ensures some { (calls : Calls) → Holds pool.now calls →
        IfSome result (λ c. Among c calls × (ends_at at c.end ≡ true)) }
{
    match next_ending(pool, at) {
        Some(call) => {
            if ends_at(call.end, at) {
                Some(call)
            } else {
                None
            }
        }
        None => None,
    }
}

/// The first place where an open call ends, but at least `from` and at most `most`.
pub(crate) fn next_end(pool: &Pool, from: usize, most: usize) -> usize
    requires { from ≤ most }
    ensures from { from ≤ result }
    ensures within { result ≤ most }
    ensures lasts { (calls : Calls) → Holds pool.now calls → LastUntil from calls → LastUntil result calls }
{
    match next_ending(pool, from) {
        Some(call) => end_within(call.end, from, most),
        None => most,
    }
}

/// The call that ends is no longer among those that end.
fn take_ending(ends: &mut BTreeMap<Ending, SetCall>, call: SetCall)
    ensures { (front back : Calls) → Distinct (front ++ call ∷ back) →
        Indexed ending_cmp ending_of ends.old (front ++ call ∷ back) →
        Indexed ending_cmp ending_of ends.new (front ++ back) }
{
    if let Some(ending) = ending_of(call) {
        ends.remove(&ending);
    }
}

/// The call that is placed next, which is open no longer. None if none can be placed.
pub(crate) fn take(pool: &mut Pool, item: &i32, was: bool) -> Option<SetCall>
    ensures none { (calls : Calls) → Holds pool.old calls →
        IfNone result ((c : ghost_SetCall) → Among c calls → Fits item.now was c → ⊥) }
    ensures some { (calls : Calls) → Holds pool.old calls → IfSome result (Taken item.now was pool.new calls) }
    ensures fewer { IfSome result (λ _. btree_map_len pool.new.turns < btree_map_len pool.old.turns) }
{
    let (turn, call) = next_turn(pool, item, was)?;
    pool.turns.remove(&turn);
    take_ending(&mut pool.ends, call);
    Some(call)
}
