// What comes of a thread's next call, if no other thread goes on.

ghost use Rattle.std.specs.Prelude.{◌≡◌};
ghost use Rattle.ls_automaton.specs.Fates.{is_long};

use ls_events::event::Event;

/// What comes of a thread's next call in a state, if no other thread goes on.
#[derive(Drop)]
pub enum Fate {
    /// There is none.
    Stays,
    /// This one never ends: after so many steps of it its thread waits.
    Waits(usize, usize),
    /// This one never ends: its thread turns for ever.
    Turns(usize),
    /// With the last of so many steps it ends so.
    Ends(usize, Event),
    /// It doesn't end within the bound.
    GoesOn,
}

/// Whether a call doesn't end within the bound.
pub(crate) fn is_long(fate: &Fate) -> bool
    ensures { result ≡ is_long fate.now }
{
    match fate {
        Fate::GoesOn => true,
        Fate::Stays | Fate::Waits(_, _) | Fate::Turns(_) | Fate::Ends(_, _) => false,
    }
}
