// Why a Java file isn't restated.

use crate::remarks::Remark;
use ls_java_lexer::fault::JavaFault;
use ls_java_tables::remarks::Stop;
use ls_lexer::fault::TextFault;
use ls_types_elaboration::rule::Broken;
use std::alloc::AllocError;

/// Why a Java file isn't restated.
#[derive(Drop)]
pub enum NotRestated {
    /// Memory ran out.
    Memory,
    /// The file isn't read.
    Unread(JavaFault),
    /// Members that can't be restated, by their lines; and what was restated otherwise.
    Refused {
        refusals: Vec<Remark>,
        notes: Vec<Remark>,
    },
    /// The tree is over the greatest height, which is a limit of this profile.
    TooDeep,
    /// What was restated is too long, which is a limit of this profile.
    TooLong,
    /// What was restated is no class text, at a place that comes from this line, or from none. Then restating is
    /// wrong.
    NoClassText {
        line: usize,
        fault: TextFault,
    },
    /// Words of what was restated don't come from the tokens of the file, or don't stand on their lines, as they
    /// should. Then laying them out is wrong.
    Misplaced,
    /// What was restated breaks a rule of typing, at a place that comes from this line, or from none. The file breaks
    /// it, or restating is wrong.
    BreaksRule {
        line: usize,
        broken: Broken,
    },
}

impl From<AllocError> for NotRestated {
    fn from(_: AllocError) -> NotRestated {
        NotRestated::Memory
    }
}

impl From<JavaFault> for NotRestated {
    fn from(fault: JavaFault) -> NotRestated {
        match fault {
            JavaFault::Memory => NotRestated::Memory,
            fault => NotRestated::Unread(fault),
        }
    }
}

impl From<Stop> for NotRestated {
    fn from(stop: Stop) -> NotRestated {
        match stop {
            Stop::Memory => NotRestated::Memory,
            _ => NotRestated::TooDeep,
        }
    }
}
