// A history, followed through a table event by event.

ghost use Rattle.std.specs.Prelude.{◌≡◌, false, IfNone, IfOk, IfSome};
ghost use Rattle.ls_linearity.specs.Followed.{IsLostAt, is_lost};

use ls_automaton::outcome::Outcome;
use ls_automaton::pairs::{first_pair, pairs_after};
use ls_events::event::Event;
use std::alloc::{AllocError, Global};

/// The place, from 0, of the first event of a history with which no pair is left. None if one is left after all events.
/// The only refusal is that memory ran out.
pub fn lost_at(
    alloc: Global,
    rows: &[Vec<Outcome>],
    history: &[Event],
) -> Result<Option<usize>, AllocError>
    ensures some { IfOk result (λ place. IfSome place (IsLostAt rows.now history.now)) }
    ensures none { IfOk result (λ place. IfNone place (is_lost rows.now history.now ≡ false)) }
{
    let mut pairs = Vec::new(alloc);
    pairs.push(first_pair(alloc))?;
    for at in 0..history.len() {
        let left = pairs_after(alloc, rows, pairs.as_slice(), &history[at])?;
        let rest = left.as_slice();
        if rest.is_empty() {
            return Ok(Some(at));
        }
        pairs = left;
    }
    Ok(None)
}
