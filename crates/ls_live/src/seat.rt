// Seats.

use crate::view::View;
use atomic_table::Seat;
use ls_machine::Machine;
use std::marker::Model;

/// A thread's right to step its own entries of a turnstile's tape.
#[derive(Drop)]
pub struct TurnSeat {
    pub(crate) seat: Seat<Machine, View>,
    pub(crate) thread: usize,
    pub(crate) seen: usize,
    pub(crate) steps: u64,
}

impl Model for TurnSeat {
    ghost use Rattle.ls_events.specs.Limits.{most_steps};
    ghost use Rattle.std.specs.Prelude.{◌≡◌, ◌≤◌, []};
    ghost use Rattle.ls_live.specs.Turns.{SeatState, seat_state};
    ghost use Rattle.ls_live.specs.Views.{seated};

    ghost Value = { SeatState };

    ghost view = { λ s. seat_state s.seat.table_id s.seat.me.0.start s.seat.me.0.tape s.thread s.seen s.steps };

    ghost invariant = { λ s. (s.seat.me ≡ (seated s.seat.me.0.start s.seat.me.0.tape s.thread s.seen s.steps, [])) ×
        (s.steps ≤ s.seen) × (s.seen ≤ most_steps) };
}

impl TurnSeat {
    ghost use Rattle.std.specs.Prelude.{◌≡◌};

    /// The thread whose entries it steps, by number: 0 is the setup.
    pub fn thread(&self) -> usize
        ensures { result ≡ self.now.thread }
    {
        self.thread
    }

    /// How many entries it has seen done.
    pub fn seen(&self) -> usize
        ensures { result ≡ self.now.seen }
    {
        self.seen
    }

    /// How many entries it did.
    pub fn steps(&self) -> u64
        ensures { result ≡ self.now.steps }
    {
        self.steps
    }
}
