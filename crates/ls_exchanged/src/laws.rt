// The laws, each as the contract of a function that computes nothing.

ghost use Rattle.ls_exchanged.specs.Laws.{ExchangedBack, ExchangedIsLegal, ExchangedIsLinearizable};
ghost use Rattle.ls_exchanged.specs.Laws.{ExchangedNeverMeets, ExchangedNeverTurns, ExchangedNeverWaits};
ghost use Rattle.ls_exchanged.specs.Laws.{HistoriesAreExchanged};
ghost use Rattle.ls_exchanged.specs.Laws.{StepsAreExchanged};

/// If a program is another with two threads exchanged, the other is it with the same two exchanged.
pub fn exchanged_back()
    ensures { ExchangedBack }
{}

/// The schedule of the exchanged threads has the history of the exchanged threads.
pub fn histories_are_exchanged()
    ensures { HistoriesAreExchanged }
{}

/// After these schedules each thread does what the exchanged thread does.
pub fn steps_are_exchanged()
    ensures { StepsAreExchanged }
{}

/// If each history of a program is linearizable, so is each of the program with two threads exchanged.
pub fn exchanged_is_linearizable()
    ensures { ExchangedIsLinearizable }
{}

/// If no call waits for ever, none does with two threads exchanged.
pub fn exchanged_never_waits()
    ensures { ExchangedNeverWaits }
{}

/// If no threads turn for ever in calls that end where calls run one at a time, none do with two threads exchanged.
pub fn exchanged_never_turns()
    ensures { ExchangedNeverTurns }
{}

/// If each history has a legal order, so has each with two threads exchanged, where threads have their names by place.
pub fn exchanged_is_legal()
    ensures { ExchangedIsLegal }
{}

/// If accesses of two threads never meet, none do with two threads exchanged.
pub fn exchanged_never_meets()
    ensures { ExchangedNeverMeets }
{}
