// The laws, each as the contract of a function that computes nothing.

ghost use Rattle.ls_explore.specs.Bursts.{NeverActs};
ghost use Rattle.ls_explore.specs.Explored.{Covers, CoversWhole, LeadsAsSource, SetsUp};
ghost use Rattle.ls_explore.specs.Ends.{Ends, EndsWhole, StandsStill, StandsStillAlong};
ghost use Rattle.ls_explore.specs.Stuck.{StuckCovers};

/// Take a list of machines that has the one whose setup has ended, and is closed under what each thread does until it
/// acts. It shows the history of each schedule of source steps that fits the cells, of any length.
pub fn covers()
    ensures { Covers }
{}

/// Where no thread of these machines would stop it for want of cells, it shows the history of each schedule whatever.
pub fn covers_whole()
    ensures { CoversWhole }
{}

/// Take a schedule that fits, and after which no thread of the source acts. Such a list has a machine of the same
/// history in which no thread acts.
pub fn ends()
    ensures { Ends }
{}

/// Where no thread of these machines would stop it, so it is of each schedule after which no thread of the source acts.
pub fn ends_whole()
    ensures { EndsWhole }
{}

/// Where each thread of a machine that hasn't stopped stands still, no thread of the source acts.
pub fn stands_still()
    ensures { StandsStill }
{}

/// The machine to which threads lead from the one whose setup has ended has the history of a schedule of source steps:
/// those of the setup, and then one of each of these threads.
pub fn leads_as_source()
    ensures { LeadsAsSource }
{}

/// Where threads lead to a machine whose threads are all quiet, no thread of the source acts after the same steps.
pub fn stands_still_along()
    ensures { StandsStillAlong }
{}

/// Where the setup is stuck, its history is the only one: each schedule has a beginning of it.
pub fn stuck_covers()
    ensures { StuckCovers }
{}

/// A thread that comes back in silence to where it stood never acts: so it is one that waits for a lock.
pub fn never_acts()
    ensures { NeverActs }
{}

/// If the setup's source ends, the machine's steps for the setup's source steps end it too.
pub fn sets_up()
    ensures { SetsUp }
{}
