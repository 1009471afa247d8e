// The laws of room in the cells, each as the contract of a function that computes nothing.

ghost use Rattle.ls_checked.specs.CheckedTree.{File};
ghost use Rattle.ls_checked.specs.CheckedProgram.{Program};
ghost use Rattle.ls_meaning.specs.Constants.{FileHasConstants, ProgramHasConstants};
ghost use Rattle.ls_code.specs.Code.{Code};
ghost use Rattle.ls_preservation.specs.Threads.{Asks, IsSound};
ghost use Rattle.ls_explore.specs.Room.{StaysWithin, StopsForRoom};

use ls_meaning::laws::next_renames;

/// Assume that the threads of code ask what the source asks. Then what each schedule of instructions makes fits the
/// cells.
pub fn stays_within()
    ensures { (file : File) (program : Program) (code : Code) → Asks file program code → FileHasConstants file →
        ProgramHasConstants program → IsSound file program → StaysWithin file program code }
{
    next_renames();
}

/// If a thread of such code stops the machine, its source acts next, and for what that makes there is no room.
pub fn stops_for_room()
    ensures { (file : File) (program : Program) (code : Code) → Asks file program code → FileHasConstants file →
        ProgramHasConstants program → IsSound file program → StopsForRoom file program code }
{
    next_renames();
}
