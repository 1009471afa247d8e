// Sources.

ghost use Rattle.std.specs.Prelude.{◌≡◌};
ghost use Rattle.ls_checked.specs.Plain.{plain_file};
ghost use Rattle.ls_checked.specs.PlainProgram.{plain_program};
ghost use Rattle.ls_types_judgement.specs.WellTyped.{IsWellTypedProgram};
ghost use Rattle.ls_types_checked.specs.CheckedFile.{elaborated_file};

use crate::checked::Checked;
use ls_checked::program::Program;
use ls_checked::tree::File;

/// What is compiled: a checked file and a thread program of it.
#[derive(Drop)]
pub struct Source {
    checked: Checked,
    program: Program,
    /// The program is one of the file.
    pub ghost kept: { ∥ IsWellTypedProgram (elaborated_file checked).file (plain_program program) ∥₁ },
}

impl Source {
    ghost use Rattle.ls_types_checked.specs.Sources.{checked_of, program_of, source_file};

    /// A checked file and a program that was read for it.
    pub fn new(checked: Checked, program: Program) -> Source
        requires { ∥ IsWellTypedProgram (elaborated_file checked).file (plain_program program) ∥₁ }
        ensures checked { checked_of result ≡ checked }
        ensures program { program_of result ≡ program }
    {
        Source { checked, program }
    }

    /// The checked file, with what its text declares.
    pub fn checked(&self) -> &Checked
        ensures { result.now ≡ checked_of self.now }
    {
        &self.checked
    }

    /// The checked file itself.
    pub fn file(&self) -> &File
        ensures { plain_file result.now ≡ source_file self.now }
    {
        self.checked.file()
    }

    /// The thread program.
    pub fn program(&self) -> &Program
        ensures { result.now ≡ program_of self.now }
    {
        &self.program
    }
}
