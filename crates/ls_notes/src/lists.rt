// Lists in words.

use std::alloc::{AllocError, Global};

/// How many entries of a list are shown.
const SHOWN: usize = 16;

/// Entries with a comma between two, at most sixteen of them, and how many more there are.
pub(crate) fn listed(alloc: Global, entries: &[&str]) -> Result<String, AllocError> {
    let mut text = String::new(alloc);
    let mut more = 0usize;
    for (i, entry) in entries.iter().enumerate() {
        if i >= SHOWN {
            more = more.saturating_add(1);
        } else {
            if i > 0 {
                text.push_str(", ")?;
            }
            text.push_str(entry)?;
        }
    }
    if more > 0 {
        return format!(in alloc; "{text} and {more} more");
    }
    Ok(text)
}

/// Whether an entry is in the list.
pub(crate) fn has(entries: &[&str], wanted: &str) -> bool {
    for entry in entries {
        if *entry == wanted {
            return true;
        }
    }
    false
}
