// The law, as the contract of a function that computes nothing.

ghost use Rattle.ls_loopless.specs.Loops.{LooplessNeverTurn, LooplessTurnExcused};

/// Where no body of a file has a loop, no threads of a program turn for ever, whatever its size: recursion is at most
/// 64 calls deep, so each call ends or waits.
pub fn loopless()
    ensures never { LooplessNeverTurn }
    ensures none { LooplessTurnExcused }
{}
