// Laws of runs: the functions compute nothing, and their contracts say the laws.

ghost use Rattle.ls_code.specs.Laws.{HistoriesAreOfTraces, RunsGoOn};

/// A history is the events of its trace.
pub fn histories_are_of_traces()
    ensures { HistoriesAreOfTraces }
{}

/// A run goes on from the machine that another run has reached.
pub fn runs_go_on()
    ensures { RunsGoOn }
{}
