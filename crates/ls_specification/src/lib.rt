//! What says how the calls of a program are right: a program of a file, whose calls run one at a time.
#![tactic(auto)]

ghost use Rattle.std.specs.Prelude.{◌≡◌};
ghost use Rattle.ls_checked.specs.Plain.{plain_file};
ghost use Rattle.ls_checked.specs.PlainProgram.{plain_program};
ghost use Rattle.ls_specification.specs.Specification.{spec_file, spec_program};

use ls_checked::program::Program;
use ls_checked::tree::File;

/// A sequential specification: a program of a file. What its calls answer, run one at a time, is right.
#[derive(Clone, Copy)]
pub struct Specification<'a> {
    pub file: &'a File,
    pub program: &'a Program,
}

impl<'a> Specification<'a> {
    /// A program of a file as a specification.
    pub fn own(file: &'a File, program: &'a Program) -> Specification<'a>
        ensures file { spec_file result ≡ plain_file file.now }
        ensures program { spec_program result ≡ plain_program program.now }
    {
        Specification { file, program }
    }
}
