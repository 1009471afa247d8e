// Images.

ghost use Rattle.std.specs.Prelude.{◌≡◌, ◌<◌, length};
ghost use Rattle.ls_linker.specs.Runs.{Runs};
ghost use Rattle.ls_types_checked.specs.Sources.{source_file, source_program};

use ls_checked::program::Program;
use ls_code::code::Code;
use ls_types_checked::checked::Checked;
use ls_types_checked::source::Source;

/// The code of a class text and a program text, with the checked file and the program of these texts. The code runs as
/// the file and the program do. What that means is in `laws`.
#[derive(Drop)]
pub struct Image {
    source: Source,
    code: Code,
    pub ghost kept: { ∥ Runs (source_file source) (source_program source) code ∥₁ },
    /// The setup is a thread.
    pub ghost setup: { 0 < length code.starts },
}

impl Image {
    ghost use Rattle.ls_image.specs.Images.{checked_of, code_of_image, program_of_image, source_of};

    /// The image of a source and of code. The caller has to show that the code runs as the source does. The code has a
    /// thread.
    pub fn new(source: Source, code: Code) -> Image
        requires runs { Runs (source_file source) (source_program source) code }
        requires setup { 0 < length code.starts }
        ensures source { source_of result ≡ source }
        ensures code { code_of_image result ≡ code }
    {
        Image { source, code }
    }

    /// The checked file.
    pub fn checked(&self) -> &Checked
        ensures { result.now ≡ checked_of self.now }
    {
        self.source.checked()
    }

    /// The thread program.
    pub fn program(&self) -> &Program
        ensures { result.now ≡ program_of_image self.now }
    {
        self.source.program()
    }

    /// What a machine runs.
    pub fn code(&self) -> &Code
        ensures { result.now ≡ code_of_image self.now }
    {
        &self.code
    }
}
