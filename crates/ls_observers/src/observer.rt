// An observer of histories, which runs.

ghost use Rattle.std.specs.Prelude.{◌≡◌, Bool, IfOk, IsTrue};
ghost use Rattle.ls_events.specs.declared.event.Event.{Event as EventValue};

use ls_events::event::Event;
use std::alloc::{AllocError, Global};

/// An observer of histories: what it has noted after an event depends only on the event and on what it had noted
/// before.
pub trait Observer {
    // What it notes.
    ghost State: { Type 0 };

    // What has been noted where nothing has happened.
    ghost first: { Self → State };

    // What has been noted after one event more.
    ghost next: { Self → State → EventValue → State };

    // Whether a history of which this was noted is bad.
    ghost bad: { Self → State → Bool };

    /// A noted value.
    type Noted: Drop;

    // What a noted value stands for.
    ghost stands: { Self → Self.Noted → State };

    /// What is noted where nothing has happened. The only refusal is that memory ran out.
    fn start(&self, alloc: Global) -> Result<Self::Noted, AllocError>
        ensures { IfOk result (λ n. stands self.now n ≡ first self.now) };

    /// What is noted after one event more. The only refusal is that memory ran out.
    fn after(
        &self,
        alloc: Global,
        noted: &Self::Noted,
        event: &Event,
    ) -> Result<Self::Noted, AllocError>
        ensures { IfOk result (λ n. stands self.now n ≡ next self.now (stands self.now noted.now) event.now) };

    /// Whether the same is noted. True only where it is.
    fn is_same(&self, noted: &Self::Noted, other: &Self::Noted) -> bool
        ensures { IsTrue result → stands self.now noted.now ≡ stands self.now other.now };

    /// A number by which noted values are found. Nothing depends on it.
    fn hash(&self, noted: &Self::Noted) -> u64;

    /// Whether a history of which this was noted is bad.
    fn is_bad(&self, noted: &Self::Noted) -> bool
        ensures { result ≡ bad self.now (stands self.now noted.now) };
}
