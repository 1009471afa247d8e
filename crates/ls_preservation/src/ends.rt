// The laws: the functions compute nothing, and their contracts say the laws.

ghost use Rattle.ls_checked.specs.CheckedTree.{File};
ghost use Rattle.ls_checked.specs.CheckedProgram.{Program};
ghost use Rattle.ls_meaning.specs.Constants.{FileHasConstants, ProgramHasConstants};
ghost use Rattle.ls_code.specs.Code.{Code};
ghost use Rattle.ls_preservation.specs.Threads.{Asks, IsSound};
ghost use Rattle.ls_preservation.specs.InTime.{EndsInTime};
ghost use Rattle.ls_preservation.specs.Acting.{ActsInTime};

use ls_meaning::laws::next_renames;

/// Assume that the threads of code ask what the source asks. If the source of a thread has ended or has been
/// trapped, the thread does the same, after at most `most_silent` steps of its own.
pub fn ends_in_time()
    ensures { (file : File) (program : Program) (code : Code) → Asks file program code → FileHasConstants file →
        ProgramHasConstants program → IsSound file program → EndsInTime file program code }
{
    next_renames();
}

/// In such code, if the source of a thread acts next, the thread makes at most `most_silent` silent steps, and
/// then acts. It stops the machine only if there is no room for what the source's step makes.
pub fn acts_in_time()
    ensures { (file : File) (program : Program) (code : Code) → Asks file program code → FileHasConstants file →
        ProgramHasConstants program → IsSound file program → ActsInTime file program code }
{
    next_renames();
}
