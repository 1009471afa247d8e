// A history with the line in front of it and the empty one after it.

ghost use Rattle.std.specs.Prelude.{◌≡◌, ◌++◌, ◌∷◌, Some, true, option_map, IfOk, IfSome};
ghost use Rattle.ls_report.specs.Events.{Text};
ghost use Rattle.ls_tallies.specs.Plain.{plain_row};
ghost use Rattle.ls_tallies.specs.Tallies.{Row as ghost_Row};
ghost use Rattle.ls_tallies.specs.Heads.{head_line};
ghost use Rattle.ls_tallies.specs.Reading.{IsHistory, IsRow, plain_entry};

use crate::Row;
use crate::blocks::split_block;
use crate::heads::head_in;
use ls_report::{HistoryFault, read_history};
use std::alloc::{AllocError, Global};

/// Whether the text is a history's lines.
fn is_history(alloc: Global, text: &str) -> Result<bool, AllocError>
    ensures is { IfOk result (λ b. b ≡ true → IsHistory text.now) }
    ensures reads { IsHistory text.now → IfOk result (λ b. b ≡ true) }
{
    match read_history(alloc, text) {
        Ok(_) => Ok(true),
        Err(HistoryFault::BadHistory { .. }) => Ok(false),
        Err(HistoryFault::Memory) => Err(AllocError),
    }
}

/// The row that begins with this line and goes on in what stands after it, and what stands after the row.
pub(crate) fn entry_in<'a>(
    alloc: Global,
    printed: &mut String,
    line: &str,
    rest: &'a str,
) -> Result<Option<(Row<'a>, &'a str)>, AllocError>
    ensures is { IfOk result (λ o. IfSome o (λ p. IsRow (plain_row p.0) × (line.now ≡ head_line p.0.seed p.0.count)
        × (rest.now ≡ p.0.history.now ++ 10 ∷ p.1.now))) }
    ensures reads { (r : ghost_Row) (after : Text) → IsRow r → line.now ≡ head_line r.seed r.count → rest.now ≡
        r.history ++ 10 ∷ after
        → IfOk result (λ o. option_map plain_entry o ≡ Some (r, after)) }
{
    let Some((seed, count)) = head_in(printed, line)? else {
        return Ok(None);
    };
    let Some((history, after)) = split_block(rest) else {
        return Ok(None);
    };
    if !is_history(alloc, history)? {
        return Ok(None);
    }
    let row = Row {
        seed,
        history,
        count,
    };
    Ok(Some((row, after)))
}
