// The law, as the contract of a function that computes nothing.

ghost use Rattle.ls_automaton.specs.Once.{HistoriesAreOnce};

/// In the history of a schedule, of any length, no event stands at two places.
pub fn histories_are_once()
    ensures { HistoriesAreOnce }
{}
