// Each seat in a thread of its own.

ghost use Rattle.ls_live.specs.Seats.{AreInOrder, is_told};
ghost use Rattle.std.specs.List.{list_all};
ghost use Rattle.std.specs.Prelude.{◌≡◌, true, length, IfOk, IfErr};

use crate::live::{Live, Seat};
use crate::{Gate, More, Session, Told};
use std::sync::Wait;
use std::thread;
use std::thread::Threads;

/// 52: a thread could not be started. The run and all seats are given back.
#[derive(Drop)]
pub struct NoThread<L: Session> {
    pub live: Live<L>,
    pub seats: Vec<Seat<L>>,
}

// Steps the seat until it is told that no step will come of its thread, or that the book is full.
fn work<L: Session, G: Gate, R: Wait>(rt: &R, live: &Live<L>, seat: &mut Seat<L>, gate: &G)
    ensures { is_told seat.new.told ≡ true }
{
    for _ in rt.forever() {
        gate.pass(seat.thread());
        match live.step(rt, seat) {
            More::Over | More::Full => return,
            More::Later => thread::yield_now(),
            More::Did(_) => {}
        }
    }
    unreachable!()
}

fn are_told<L: Session>(seats: &[Seat<L>]) -> bool
    ensures { result ≡ list_all (λ s. is_told s.told) seats.now }
{
    seats.iter().all(|seat| seat.told() != Told::Nothing)
}

// Whether the seats are those of threads 0, 1, 2, .. in order.
fn are_in_order<L: Session>(seats: &[Seat<L>]) -> bool
    ensures { result ≡ true → AreInOrder seats.now }
{
    for (thread, seat) in seats.iter().enumerate() {
        if seat.thread() != thread {
            return false;
        }
    }
    true
}

/// Works each seat in a thread of its own until it is told `Over` or `Full`; that of the setup is started first.
/// Refused if a thread could not be started. The threads that were started go on to their ends.
pub fn run_live<'x, L: Session + Send + Sync, G: Gate + Sync, R: Threads + Wait + Sync>(
    rt: &'x R,
    live: Live<L>,
    mut seats: Vec<Seat<L>>,
    gate: &'x G,
) -> Result<(Live<L>, Vec<Seat<L>>), NoThread<L>>
    requires { AreInOrder seats.items }
    ensures order { IfOk result (λ r. AreInOrder r.1.items) }
    ensures told { IfOk result (λ r. list_all (λ s. is_told s.told) r.1.items ≡ true) }
    ensures all { IfOk result (λ r. length r.1.items ≡ length seats.items) }
    ensures refused { IfErr result (λ e. length e.seats.items ≡ length seats.items) }
{
    let shared = &live;
    let row = seats.as_mut_slice();
    thread::scope(thread::scope_env(), rt, move |scope| {
        for seat in row.iter_mut() {
            if scope.spawn(move || work(rt, shared, seat, gate)).is_err() {
                break;
            }
        }
    });
    if are_told(seats.as_slice()) && are_in_order(seats.as_slice()) {
        Ok((live, seats))
    } else {
        Err(NoThread { live, seats })
    }
}
