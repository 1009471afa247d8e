// Moves up to a question or the end.

ghost use Rattle.std.specs.Prelude.{◌≡◌, false, OnOk};
ghost use Rattle.ls_checked.specs.Plain.{plain_file};
ghost use Rattle.ls_meaning.specs.Course.{Answers};
ghost use Rattle.ls_source_pending.specs.Moves.{is_left};
ghost use Rattle.ls_source_pending.specs.Meaning.{meaning, Rest};
ghost use Rattle.ls_source_pending.specs.SeenPending.{state_of};

use crate::moves::advance;
use ls_checked::tree::File;
use ls_source_pending::pending::Pending;
use std::alloc::{AllocError, Global};

/// Goes on to what is asked for next, or to the end. If memory runs out, the work still means what it meant.
pub fn settle<'a>(
    pending: &mut Pending<'a>,
    alloc: Global,
    file: &'a File,
) -> Result<(), AllocError>
    ensures same { (base : Rest) (q : Answers) → meaning (plain_file file.now) base (state_of pending.new) q ≡
        meaning (plain_file file.now) base (state_of pending.old) q }
    ensures settled { OnOk result (is_left (state_of pending.new).control (state_of pending.new).frames ≡ false) }
{
    'moves: while pending.is_left() {
        advance(pending, alloc, file)?;
    }
    Ok(())
}
