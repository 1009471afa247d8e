//! Which texts spell which thread programs.
#![tactic(auto)]

ghost use Rattle.ls_types_programs.specs.Faults.{FaultsStand};
ghost use Rattle.ls_types_programs.specs.Laws.{ReadsWhatIsSpelled, OneProgram, ThreadsAreNamed};

/// If a program is read from a text, it is the program of the file that the text's tokens spell. No text spells more
/// than one.
pub fn reads_what_is_spelled()
    ensures law { ReadsWhatIsSpelled }
    ensures one { OneProgram }
    ensures named { ThreadsAreNamed }
{}

/// If tokens have a fault, they are not the beginning of any program of the file.
pub fn faults_stand()
    ensures { FaultsStand }
{}
