// Why nothing is run, and how that is told.

use std::alloc::{AllocError, AllocFailed};

/// Why nothing is run.
#[derive(Debug, Drop)]
pub(crate) enum End {
    Memory,
    /// The last word is an option that takes a value.
    Lacking(&'static str),
    /// A file can't be read.
    Unread {
        name: String,
        why: &'static str,
        /// The option that the name is but for its dashes, if there is one.
        option: Option<String>,
    },
}

impl From<AllocError> for End {
    fn from(_error: AllocError) -> End {
        End::Memory
    }
}

impl<T: Drop> From<AllocFailed<T>> for End {
    fn from(_error: AllocFailed<T>) -> End {
        End::Memory
    }
}

/// Tells on standard error why nothing is run. Answers the exit status.
pub(crate) fn told(rt: &HostRuntime, end: End) -> u8 {
    match end {
        End::Memory => {
            let _ = eprintln!(rt; "fault 1 Memory");
            1
        }
        End::Lacking(what) => {
            let _ = eprintln!(rt; "listset: {what}");
            2
        }
        End::Unread { name, why, option } => {
            let _ = match option {
                Some(option) => {
                    eprintln!(rt; "{name}: error 82 ReadFailed: {why}; the option is --{option}")
                }
                None => eprintln!(rt; "{name}: error 82 ReadFailed: {why}"),
            };
            1
        }
    }
}
