// The laws, each as the contract of a function that computes nothing.

ghost use Rattle.ls_endless_calls.specs.Laws.{AmongNeverEnds, NoWaitNoneForEver, PendingWaits, NeverEndsIsAmong};

/// If one of some runs up to a call that never ends is to a call, then the call never ends so. If the runs are all, no
/// other call does.
pub fn runs_decide()
    ensures among { AmongNeverEnds }
    ensures all { NeverEndsIsAmong }
{}

/// Where no thread acts, the thread of a pending call waits. So if no thread waits where none acts, no call waits for
/// ever.
pub fn pending_calls_wait()
    ensures waits { PendingWaits }
    ensures none { NoWaitNoneForEver }
{}
