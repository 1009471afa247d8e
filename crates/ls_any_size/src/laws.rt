// The law, as the contract of a function that computes nothing.

ghost use Rattle.ls_any_size.specs.Laws.{CalmIsGood};

use ls_endless_calls::laws::pending_calls_wait;
use ls_loopless::laws::loopless;

/// If each history of a program is linearizable, and where no thread acts none waits, the program is good for what
/// `find` looks for. Left out are histories of a set; and turning, if a body has a loop.
pub fn calm_is_good()
    ensures { CalmIsGood }
{
    pending_calls_wait();
    loopless();
}
