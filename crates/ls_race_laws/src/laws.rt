// The law, as the contract of a function that computes nothing.

ghost use Rattle.ls_race_laws.specs.Ordered.{MeetingsAreRaces};

/// If the next actions of two threads conflict after a schedule, then the schedule with both of them after it has a
/// race: happens-before doesn't order them.
pub fn meetings_are_races()
    ensures { MeetingsAreRaces }
{}
