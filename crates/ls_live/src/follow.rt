// Each seat of a turnstile in a thread of its own.

ghost use Rattle.ls_live.specs.Ends.{IsFaultOf, Leaves, fault_of_end, fault_with};
ghost use Rattle.ls_live.specs.Turns.{AreBack, AreOver, IsSeatOf};
ghost use Rattle.std.specs.Prelude.{
  ◌≡◌,
  ◌+◌,
  ◌++◌,
  ◌∷◌,
  ◌<◌,
  ◌≤◌,
  [],
  All,
  IfErr,
  IfNone,
  IfOk,
  IfSome,
  length,
  map,
  vec_capacity,
  vec_len,
};

use crate::follow_fault::FollowFault;
use crate::{Gate, Turn, TurnSeat, Turnstile};
use std::alloc::{AllocError, Global};
use std::sync::Wait;
use std::sync::atomic::AtomicBool;
use std::sync::atomic::Ordering::SeqCst;
use std::thread;
use std::thread::{Promise, PromisedHandle, Scope, Threads, yield_now};

/// Why a thread left its seat: the tape is over, there were too many answers `NotYet` at one place, or it was told to
/// stop.
#[derive(Copy)]
pub enum End {
    Over,
    Spent { place: usize },
    Stopped,
}

impl Clone for End {
    fn clone(&self) -> Result<End, AllocError> {
        Ok(*self)
    }
}

/// A seat that a thread has left.
#[derive(Drop)]
pub struct Left {
    seat: TurnSeat,
    end: End,
}

/// What the threads share: the turnstile, and whether they are to stop.
#[derive(Drop)]
pub struct Followed {
    turnstile: Turnstile,
    stop: AtomicBool,
}

// The fact that what a thread leaves is the seat of this number, with an end that the seat may have.
#[derive(Drop)]
struct LeftOf<'a> {
    followed: &'a Followed,
    thread: usize,
}

impl<'a> Promise<Left> for LeftOf<'a> {
    ghost kept_by = { λ p l. Leaves p.followed.now.turnstile p.thread l.seat l.end };
}

// The most answers `NotYet` in a row at one place.
const MOST_TRIES: u32 = 10_000_000;

// After this many answers in a row, a thread lets others run now and then. If there are more threads than processors,
// one of the others has the turn.
const QUICK_TRIES: u32 = 1000;

// How many tries a thread then makes before it lets others run again.
const TRIES_OF_A_SLICE: u32 = 16;

// Steps the seat until the tape is over, or until too many answers at one place were that the entry is another's.
fn work<G: Gate>(followed: &Followed, mut seat: TurnSeat, gate: &G) -> Left
    requires { IsSeatOf followed.now.turnstile seat }
    ensures { Leaves followed.now.turnstile seat.thread result.seat result.end }
{
    let thread = seat.thread();
    let mut tries = 0;
    let mut at = 0;
    for _ in 0..u64::MAX {
        if followed.stop.load(SeqCst) {
            break;
        }
        gate.pass(thread);
        match followed.turnstile.step(&mut seat) {
            Turn::Over => {
                return Left {
                    seat,
                    end: End::Over,
                };
            }
            Turn::Stepped { place: _, did: _ } => tries = 0,
            Turn::NotYet { place } => {
                if place != at {
                    at = place;
                    tries = 0;
                }
                tries += 1;
                if tries >= MOST_TRIES {
                    let end = End::Spent { place };
                    return Left { seat, end };
                }
                if tries >= QUICK_TRIES && tries % TRIES_OF_A_SLICE == 0 {
                    yield_now();
                }
            }
        }
    }
    let end = End::Stopped;
    Left { seat, end }
}

/// All seats, and why the tape is not at its end, if it is not.
#[derive(Drop)]
pub struct Back {
    seats: Vec<TurnSeat>,
    fault: Option<FollowFault>,
}

// Room for the seats that threads leave, and for the seats that get no thread.
#[derive(Drop)]
struct Room {
    alloc: Global,
    left: Vec<TurnSeat>,
    rest: Vec<TurnSeat>,
}

impl Room {
    fn new(alloc: Global, count: usize) -> Result<Room, AllocError>
        ensures empty { IfOk result (λ r. (r.left.items ≡ []) × (r.rest.items ≡ [])) }
        ensures room { IfOk result (λ r. (count ≤ vec_capacity r.left) × (count ≤ vec_capacity r.rest)) }
    {
        let left = Vec::with_capacity(alloc, count)?;
        let rest = Vec::with_capacity(alloc, count)?;
        Ok(Room { alloc, left, rest })
    }
}

// Starts a thread for a seat, if each seat before it got one. If it gets none, all others are stopped.
fn start<'s, 'a: 's, E, G: Gate + Sync>(
    scope: &'s Scope<'s, E>,
    followed: &'a Followed,
    gate: &'a G,
    handles: &mut Vec<PromisedHandle<Left, LeftOf<'a>>>,
    rest: &mut Vec<TurnSeat>,
    seat: TurnSeat,
)
    requires seat { IsSeatOf followed.now.turnstile seat }
    requires of { All (λ h. h.promise.followed.now ≡ followed.now) handles.old.items }
    requires rest { All (IsSeatOf followed.now.turnstile) rest.old.items }
    requires room { (vec_len handles.old < vec_capacity handles.old) × (vec_len rest.old < vec_capacity rest.old) }
    ensures of { All (λ h. h.promise.followed.now ≡ followed.now) handles.new.items }
    ensures rest { All (IsSeatOf followed.now.turnstile) rest.new.items }
    ensures threads { map (λ h. h.promise.thread) handles.new.items ++ map (λ c. c.thread) rest.new.items ≡
        (map (λ h. h.promise.thread) handles.old.items ++ map (λ c. c.thread) rest.old.items) ++ seat.thread ∷ [] }
    ensures count { length handles.new.items + length rest.new.items ≡
        length handles.old.items + length rest.old.items + 1 }
    ensures room { (vec_capacity handles.new ≡ vec_capacity handles.old) ×
        (vec_capacity rest.new ≡ vec_capacity rest.old) }
{
    if !rest.is_empty() {
        rest.push_reserved(seat);
        return;
    }
    let thread = seat.thread();
    let job = move || -> Left
        requires { IsSeatOf followed.now.turnstile seat }
        ensures { Leaves followed.entry.now.turnstile seat.thread result.seat result.end }
    { work(followed, seat, gate) };
    match scope.spawn_with(LeftOf { followed, thread }, job) {
        Ok(handle) => handles.push_reserved(handle),
        Err(refused) => {
            followed.stop.store(true, SeqCst);
            let Left { seat, end: _ } = (refused.value)();
            rest.push_reserved(seat);
        }
    }
}

// Starts a thread for each seat, and joins the threads. If a seat gets no thread, all others are stopped, and the
// seats after it get none.
fn follow_all<'s, 'a: 's, E, G: Gate + Sync, R: Threads + Sync>(
    scope: &'s Scope<'s, E>,
    rt: &'a R,
    followed: &'a Followed,
    gate: &'a G,
    seats: Vec<TurnSeat>,
    room: Room,
) -> Back
    requires seats { All (IsSeatOf followed.now.turnstile) seats.items }
    requires empty { (room.left.items ≡ []) × (room.rest.items ≡ []) }
    requires room { (length seats.items ≤ vec_capacity room.left) × (length seats.items ≤ vec_capacity room.rest) }
    ensures back { AreBack followed.now.turnstile seats.items result.seats.items }
    ensures over { IfNone result.fault (AreOver followed.now.turnstile result.seats.items) }
    ensures fault { IfSome result.fault (IsFaultOf followed.now.turnstile) }
{
    let Room {
        alloc,
        left,
        mut rest,
    } = room;
    let Ok(mut handles) = Vec::with_capacity(alloc, seats.len()) else {
        let fault = Some(FollowFault::Memory);
        return Back { seats, fault };
    };
    for seat in seats {
        start(scope, followed, gate, &mut handles, &mut rest, seat);
    }
    let joined = join_all(rt, followed, handles, left);
    with_rest(joined, rest)
}

// What the threads leave, once they have left.
fn join_all<'a, R: Threads>(
    rt: &R,
    followed: &'a Followed,
    handles: Vec<PromisedHandle<Left, LeftOf<'a>>>,
    left: Vec<TurnSeat>,
) -> Back
    requires of { All (λ h. h.promise.followed.now ≡ followed.now) handles.items }
    requires empty { left.items ≡ [] }
    requires room { length handles.items ≤ vec_capacity left }
    ensures threads { map (λ c. c.thread) result.seats.items ≡ map (λ h. h.promise.thread) handles.entry.items }
    ensures of { All (IsSeatOf followed.now.turnstile) result.seats.items }
    ensures over { IfNone result.fault (AreOver followed.now.turnstile result.seats.items) }
    ensures fault { IfSome result.fault (IsFaultOf followed.now.turnstile) }
    ensures room { vec_capacity result.seats ≡ vec_capacity left }
{
    let mut back = Back {
        seats: left,
        fault: None,
    };
    for handle in handles {
        take_in(followed, &mut back, handle.join(rt));
    }
    back
}

// Takes a seat in, and keeps the first fault.
fn take_in(followed: &Followed, back: &mut Back, left: Left)
    requires room { vec_len back.old.seats < vec_capacity back.old.seats }
    requires of { All (IsSeatOf followed.now.turnstile) back.old.seats.items }
    requires over { IfNone back.old.fault (AreOver followed.now.turnstile back.old.seats.items) }
    requires fault { IfSome back.old.fault (IsFaultOf followed.now.turnstile) }
    requires left { Leaves followed.now.turnstile left.seat.thread left.seat left.end }
    ensures room { vec_capacity back.new.seats ≡ vec_capacity back.old.seats }
    ensures seats { back.new.seats.items ≡ back.old.seats.items ++ left.seat ∷ [] }
    ensures over { IfNone back.new.fault (AreOver followed.now.turnstile back.new.seats.items) }
    ensures fault { IfSome back.new.fault (IsFaultOf followed.now.turnstile) }
{
    let Left { seat, end } = left;
    if back.fault.is_none() {
        back.fault = fault_of(end);
    }
    back.seats.push_reserved(seat);
}

fn fault_of(end: End) -> Option<FollowFault>
    ensures { result ≡ fault_of_end end }
{
    match end {
        End::Over => None,
        End::Spent { place } => Some(FollowFault::TurnsSpent { place }),
        End::Stopped => Some(FollowFault::NoThread),
    }
}

// The seats that threads left, and then the seats that got no thread.
fn with_rest(joined: Back, rest: Vec<TurnSeat>) -> Back
    requires { length joined.seats.items + length rest.items ≤ vec_capacity joined.seats }
    ensures seats { result.seats.items ≡ joined.seats.items ++ rest.items }
    ensures fault { result.fault ≡ fault_with joined.fault rest.items }
{
    if rest.is_empty() {
        return joined;
    }
    let Back {
        mut seats,
        fault: _,
    } = joined;
    for seat in rest {
        seats.push_reserved(seat);
    }
    let fault = Some(FollowFault::NoThread);
    Back { seats, fault }
}

/// Works each seat in a thread of its own until the tape is over, and joins the threads. Each thread passes the gate
/// before each step. All seats are given back, in their order.
///
/// Refused with 1 if memory runs out, and with 52 if a seat gets no thread. Else refused with 53 if a seat has been
/// answered `NotYet` 10,000,000 times in a row at one place. Then the seat of that place is missing, has been kept by
/// the gate, or doesn't exist.
pub fn follow_tape<'x, G: Gate + Sync, R: Threads + Wait + Sync>(
    rt: &'x R,
    alloc: Global,
    turnstile: Turnstile,
    seats: Vec<TurnSeat>,
    gate: &'x G,
) -> Result<(Turnstile, Vec<TurnSeat>), (FollowFault, Turnstile, Vec<TurnSeat>)>
    requires { All (IsSeatOf turnstile) seats.items }
    ensures turnstile { IfOk result (λ r. r.0 ≡ turnstile) }
    ensures back { IfOk result (λ r. AreBack turnstile seats.items r.1.items) }
    ensures over { IfOk result (λ r. AreOver turnstile r.1.items) }
    ensures fault { IfErr result (λ e. IsFaultOf turnstile e.0) }
    ensures refused { IfErr result (λ e. (e.1 ≡ turnstile) × AreBack turnstile seats.items e.2.items) }
{
    let Ok(room) = Room::new(alloc, seats.len()) else {
        return Err((FollowFault::Memory, turnstile, seats));
    };
    let followed = Followed {
        turnstile,
        stop: AtomicBool::new(false),
    };
    let shared = &followed;
    let back = thread::scope(
        thread::scope_env(),
        rt,
        move |scope| -> Back
            requires seats { All (IsSeatOf shared.now.turnstile) seats.items }
            requires empty { (room.left.items ≡ []) × (room.rest.items ≡ []) }
            requires room { (length seats.items ≤ vec_capacity room.left) ×
                (length seats.items ≤ vec_capacity room.rest) }
            ensures back { AreBack shared.entry.now.turnstile seats.items result.seats.items }
            ensures over { IfNone result.fault (AreOver shared.entry.now.turnstile result.seats.items) }
            ensures fault { IfSome result.fault (IsFaultOf shared.entry.now.turnstile) }
        { follow_all(scope, rt, shared, gate, seats, room) },
    );
    let Followed { turnstile, stop: _ } = followed;
    let Back { seats, fault } = back;
    match fault {
        None => Ok((turnstile, seats)),
        Some(fault) => Err((fault, turnstile, seats)),
    }
}
