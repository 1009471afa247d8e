// The laws, each as the contract of a function that computes nothing.

ghost use Rattle.ls_one_at_a_time.specs.CoarseList.{CoarseListsAreLinearizable};
ghost use Rattle.ls_one_at_a_time.specs.Example.{CountersAreLinearizable};
ghost use Rattle.ls_one_at_a_time.specs.Laws.{AllOneAtATime, NoneWaitOneAtATime};
ghost use Rattle.ls_one_at_a_time.specs.Locked.{AllLocked, NoneWaitLocked};

/// Where the setup makes an object, and all other calls are of its synchronized methods, the history of each schedule
/// of any length is linearizable. Where no thread acts, none waits.
pub fn one_at_a_time()
    ensures linearizable { AllOneAtATime }
    ensures waits { NoneWaitOneAtATime }
{}

/// The law isn't empty: a counter whose methods are synchronized, with as many threads and calls as one likes.
pub fn counters()
    ensures { CountersAreLinearizable }
{}

/// The same where each call locks the same field of the object round its whole body.
pub fn one_lock()
    ensures linearizable { AllLocked }
    ensures waits { NoneWaitLocked }
{}

/// This law isn't empty either: the list with one lock, with as many threads and set calls as one likes.
pub fn coarse_lists()
    ensures { CoarseListsAreLinearizable }
{}
