// Laws of the meaning.

ghost use Rattle.std.specs.Prelude.{◌≡◌, ℕ};
ghost use Rattle.ls_checked.specs.CheckedTree.{File};
ghost use Rattle.ls_checked.specs.CheckedProgram.{Program};
ghost use Rattle.ls_meaning.specs.Course.{Answers};
ghost use Rattle.ls_meaning.specs.Threads.{next};
ghost use Rattle.ls_meaning.specs.Constants.{FileHasConstants, ProgramHasConstants};
ghost use Rattle.ls_meaning.specs.Renamings.{IsRenaming, renamed_answers, renamed_next};

/// Assume that the constants of the file and of the program name no object. Then what a thread does next commutes with
/// every one-to-one renaming of references that keeps null.
pub fn next_renames()
    ensures { (file : File) (program : Program) → FileHasConstants file → ProgramHasConstants program →
        (names : ℕ → ℕ) → IsRenaming names → (thread : ℕ) (answers : Answers) → next file program thread
        (renamed_answers names answers) ≡ renamed_next names (next file program thread answers) }
{}
