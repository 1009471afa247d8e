// Whether a text is a class text that keeps every rule.

ghost use Rattle.std.specs.Prelude.{OnOk};
ghost use Rattle.ls_java.specs.Accepted.{IsAccepted};

use ls_lexer::fault::TextFault;
use ls_parser::parsing::parse_text;
use ls_types_elaboration::rule::CheckFault;
use ls_types_files::checking::check;
use std::alloc::Global;

/// Why a text isn't accepted.
#[derive(Drop)]
pub enum NotAccepted {
    Text(TextFault),
    Check(CheckFault),
}

impl From<TextFault> for NotAccepted {
    fn from(fault: TextFault) -> NotAccepted {
        NotAccepted::Text(fault)
    }
}

impl From<CheckFault> for NotAccepted {
    fn from(fault: CheckFault) -> NotAccepted {
        NotAccepted::Check(fault)
    }
}

/// A text is read and checked. The answer says that it is a class text that keeps every rule.
pub fn accept(alloc: Global, text: &str) -> Result<(), NotAccepted>
    ensures { OnOk result (IsAccepted text.now) }
{
    let parsed = parse_text(alloc, text)?;
    let _checked = check(alloc, parsed)?;
    Ok(())
}
