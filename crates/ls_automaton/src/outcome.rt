// What comes of a call that runs alone.

use ls_events::event::Event;

/// A call that runs alone from a state to its end: its end, and the number of the state that it leaves.
#[derive(Drop)]
pub struct Outcome {
    pub end: Event,
    pub after: usize,
}
