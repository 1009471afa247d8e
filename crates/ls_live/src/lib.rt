//! Live threads over one machine. Under a lock each step is done and recorded. Or the threads pass the machine on
//! along a tape, which is followed to its end. Without threads: the record of the run, and the gate before each step.
#![tactic(auto)]

mod book;
mod fault;
mod follow;
mod follow_fault;
mod following;
mod gate;
pub mod laws;
mod live;
mod playing;
mod rule;
mod running;
mod seat;
mod turn;
mod turnstile;
mod view;

pub use book::{Book, More, Session, Told};
pub use fault::{LiveFault, PlayFault};
pub use follow::follow_tape;
pub use follow_fault::{FollowFault, TapeFault};
pub use following::play_turns;
pub use gate::{Gate, OpenGate};
pub use live::{CloseFault, Live, Seat};
pub use playing::play_live;
pub use running::{NoThread, run_live};
pub use seat::TurnSeat;
pub use turn::Turn;
pub use turnstile::Turnstile;
