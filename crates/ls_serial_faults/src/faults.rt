// What may be wrong with calls that run one at a time.

use ls_events::kind::Kind;
use ls_events::schedule::Schedule;

/// A call that ended by an exception.
#[derive(Drop)]
pub struct Thrown {
    /// The steps up to its end.
    pub schedule: Schedule,
    pub thread: usize,
    pub call: usize,
    pub kind: Kind,
}

/// A call that never ends.
#[derive(Drop)]
pub struct Stopped {
    /// The steps up to where its thread waits, or up to its first one if the thread turns for ever.
    pub schedule: Schedule,
    pub thread: usize,
    pub call: usize,
}

/// What is wrong with calls of a program where they run one at a time: of each kind the first that was found.
#[derive(Drop)]
pub struct SerialFaults {
    /// A call that ends by an exception.
    pub throws: Option<Thrown>,
    /// A call whose thread waits for ever.
    pub waits: Option<Stopped>,
    /// A call whose thread turns for ever.
    pub turns: Option<Stopped>,
    /// Whether no bound was met. Then there is none of a kind of which none was found.
    pub complete: bool,
}
