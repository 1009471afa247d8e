// Why two texts are not compiled.

ghost use Rattle.std.specs.Prelude.{◌≡◌};
ghost use Rattle.ls_compiler.specs.declared.fault.CompileFault.TheVariants.{Text, Check, Program, Build};

use ls_lexer::fault::TextFault;
use ls_linker::fault::BuildFault;
use ls_types_checked::checked::CheckFault;
use ls_types_checked::fault::ProgramFault;
use thiserror::Error;

/// Why two texts are not compiled, by the stage that refuses them. At each stage memory may run out.
#[derive(Clone, Copy, Debug, Error, PartialEq, Eq)]
pub enum CompileFault {
    #[error("the class text is no class file")]
    Text(TextFault),
    #[error("the class file breaks a rule")]
    Check(CheckFault),
    #[error("the program text is no program of the class file")]
    Program(ProgramFault),
    #[error("the code goes past a limit")]
    Build(BuildFault),
}

impl From<TextFault> for CompileFault {
    ghost from_gives = { λ f e. e ≡ Text f };

    fn from(fault: TextFault) -> CompileFault {
        CompileFault::Text(fault)
    }
}

impl From<CheckFault> for CompileFault {
    ghost from_gives = { λ f e. e ≡ Check f };

    fn from(fault: CheckFault) -> CompileFault {
        CompileFault::Check(fault)
    }
}

impl From<ProgramFault> for CompileFault {
    ghost from_gives = { λ f e. e ≡ Program f };

    fn from(fault: ProgramFault) -> CompileFault {
        CompileFault::Program(fault)
    }
}

impl From<BuildFault> for CompileFault {
    ghost from_gives = { λ f e. e ≡ Build f };

    fn from(fault: BuildFault) -> CompileFault {
        CompileFault::Build(fault)
    }
}
