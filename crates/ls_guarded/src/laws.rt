// The law, as the contract of a function that computes nothing.

ghost use Rattle.ls_guarded.specs.Guards.{GuardedAreCalm};

/// Where a guard is told, the history of each schedule of any length of each program is linearizable, and where no
/// thread acts, none waits.
pub fn guarded()
    ensures { GuardedAreCalm }
{}
