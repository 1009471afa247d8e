// What a search says of the programs of a family, as the contract of a function that computes nothing.

ghost use Rattle.ls_find.specs.Doubles.{SoundFollows};
ghost use Rattle.ls_find.specs.Family.{EachIsSound, EachPassedIsSound};

use ls_exchanged::doubles::{doubles_are_exchanged, doubles_have_names};
use ls_exchanged::laws::{
    exchanged_is_legal, exchanged_is_linearizable, exchanged_never_turns, exchanged_never_waits,
};
use ls_families::laws::each_belongs;
use ls_types_places::laws::one_answer;
use ls_types_programs::reads_what_is_spelled;

/// If a program is another with two threads exchanged, it is sound if that one is.
pub fn sound_follows()
    ensures { SoundFollows }
{
    one_answer();
    reads_what_is_spelled();
    doubles_are_exchanged();
    doubles_have_names();
    exchanged_is_linearizable();
    exchanged_is_legal();
    exchanged_never_waits();
    exchanged_never_turns();
}

/// If a search of a range cuts none up to one that it passes, then the history of each schedule of that one is
/// linearizable; and what else is looked for isn't so of it.
pub fn each_passed_is_sound()
    ensures { EachPassedIsSound }
{}

/// If a search goes through a whole family, ends with no program, and cuts none, then that is so of each program within
/// the bounds.
pub fn each_is_sound()
    ensures { EachIsSound }
{
    each_belongs();
    each_passed_is_sound();
}
