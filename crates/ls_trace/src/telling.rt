// What each step of a schedule does.

ghost use Rattle.std.specs.Prelude.{◌≡◌, IfOk, string_bytes};
ghost use Rattle.ls_labels.specs.Names.{names_of};
ghost use Rattle.ls_trace.specs.Lines.{trace_text};

use crate::teller::Teller;
use ls_labels::names::Names;
use std::alloc::{AllocError, Global};

/// A line for each step of a schedule whose number, counted from 1, lies in `from..=to`: what its thread does, or why
/// that does nothing. Steps after `to` aren't made.
pub fn trace(
    alloc: Global,
    names: Names,
    schedule: &[u8],
    from: usize,
    to: usize,
) -> Result<String, AllocError>
    ensures { IfOk result (λ text. string_bytes text ≡ trace_text (names_of names.entry) schedule.now from to) }
{
    let mut teller = Teller::new(alloc, names)?;
    let mut text = String::new(alloc);
    let steps = &schedule[..to.min(schedule.len())];
    for (place, thread) in steps.iter().enumerate() {
        teller.tell(alloc, &mut text, from, place + 1, *thread as usize)?;
    }
    Ok(text)
}
