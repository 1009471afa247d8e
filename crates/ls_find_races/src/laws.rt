// Programs with two threads exchanged, as the contract of a function that computes nothing.

ghost use Rattle.ls_find_races.specs.Doubles.{RaceFreeFollows};

use ls_exchanged::doubles::doubles_are_exchanged;
use ls_exchanged::laws::exchanged_never_meets;
use ls_types_places::laws::one_answer;
use ls_types_programs::reads_what_is_spelled;

/// If a program is another with two threads exchanged, its accesses never meet if those of that one never do.
pub fn race_free_follows()
    ensures { RaceFreeFollows }
{
    one_answer();
    reads_what_is_spelled();
    doubles_are_exchanged();
    exchanged_never_meets();
}
