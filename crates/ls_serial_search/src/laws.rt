// The laws, each as the contract of a function that computes nothing.

ghost use Rattle.ls_serial_search.specs.Laws.{LongCallsAreRuns, SerialHistoriesAreKnown};

/// If some schedules are searched, each serial history of a schedule is that of one of them.
pub fn serial_histories_are_known()
    ensures { SerialHistoriesAreKnown }
{}

/// A call that is said to go on ends a run of so many steps, each of which acts.
pub fn long_calls_are_runs()
    ensures { LongCallsAreRuns }
{}
