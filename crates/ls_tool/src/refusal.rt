// Why there is no output.

ghost use Rattle.std.specs.Prelude.{◌≡◌};
ghost use Rattle.ls_tool.specs.Output.{refused_words};
ghost use Rattle.ls_tool.specs.declared.refusal.Refusal.TheVariants as refusals;

use ls_command_line::WordsFault;
use ls_faults::fault::ToolFault;

/// Why there is no output.
#[derive(Debug, Drop)]
pub enum Refusal {
    /// The words are no command line, or ask for help or the version.
    BadLine(clap::Error),
    Fault(ToolFault),
    /// A fault as it is told: its line, and the line of the input in which it stands.
    Explained(Vec<u8>),
}

impl From<WordsFault> for Refusal {
    ghost from_gives = { λ fault refusal. refusal ≡ refused_words fault };

    fn from(fault: WordsFault) -> Refusal {
        match fault {
            WordsFault::Memory => Refusal::Fault(ToolFault::Memory),
            WordsFault::BadLine(error) => Refusal::BadLine(error),
        }
    }
}

impl From<ToolFault> for Refusal {
    ghost from_gives = { λ fault refusal. refusal ≡ refusals.Fault fault };

    fn from(fault: ToolFault) -> Refusal {
        Refusal::Fault(fault)
    }
}
