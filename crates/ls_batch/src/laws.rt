// Laws of the definitions.

ghost use Rattle.ls_batch.specs.Even.{OneIsEven};
ghost use Rattle.ls_batch.specs.Ended.{OverStays};
ghost use Rattle.ls_batch.specs.Replays.{SeedsReplay};

/// The history of a seed's run is the machine's history of the seed's schedule: steps of the setup, at most 100,000,
/// and then the seed's sample. So a replay of that schedule shows it.
pub fn seeds_replay()
    ensures { SeedsReplay }
{}

/// Where a step's thread is drawn by chance 1 in 1, the draw is even at each step.
pub fn one_is_even()
    ensures { OneIsEven }
{}

/// A machine of which no thread takes steps stays as it is, whatever steps of these threads follow.
pub fn over_stays()
    ensures { OverStays }
{}
