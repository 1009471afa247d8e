// The laws, each as the contract of a function that computes nothing.

ghost use Rattle.ls_progress_laws.specs.Laws.{AllKindsFollow, LassosGoRound, NeverBoth, RanksBound, RoundsAreEndless};
ghost use Rattle.ls_progress_laws.specs.Laws.{RunsFromStart};
ghost use Rattle.ls_progress_laws.specs.Rows.{PendingRows};

/// A wait-free call is lock-free, and a lock-free one obstruction-free, with the same bound.
pub fn kinds_follow()
    ensures { AllKindsFollow }
{}

/// A call with a bound on its steps isn't one that may take any number of them.
pub fn never_both()
    ensures { NeverBoth }
{}

/// A lasso can be played again and again, from whatever configuration its way begins: in each round the thread takes a
/// step more, and no call begins or ends that mustn't.
pub fn lassos_go_round()
    ensures { LassosGoRound }
{}

/// So if there is a lasso, no number of steps suffices.
pub fn rounds_are_endless()
    ensures { RoundsAreEndless }
{}

/// If a rank sinks with each step of a call, so many steps suffice, in whatever schedule of whatever length.
pub fn ranks_bound()
    ensures { RanksBound }
{}

/// What is said of the runs from before a program's first step on is said of the program.
pub fn runs_from_start()
    ensures { RunsFromStart }
{}

/// Which call is pending after small histories.
pub fn pending_rows()
    ensures { PendingRows }
{}
