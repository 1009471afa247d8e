// A whole run of live threads along a tape.

ghost use Rattle.ls_image.specs.Images.{RunsAsItsTexts, code_of_image};
ghost use Rattle.ls_machine.specs.Room.{AreBadCells};
ghost use Rattle.ls_schedule.specs.Records.{IsRecordOf};
ghost use Rattle.std.specs.Prelude.{◌↔◌, ◌<◌, ℕ, IfOk, IsErrOf, length};

use crate::follow::follow_tape;
use crate::follow_fault::{FollowFault, TapeFault};
use crate::{Gate, Turnstile};
use ls_events::schedule::Schedule;
use ls_image::image::Image;
use ls_machine::LoadFault;
use ls_schedule::Record;
use std::alloc::Global;
use std::sync::Wait;
use std::thread::Threads;

/// Plays a schedule as the tape of a turnstile. Each thread of the image is live, in a thread of its own. The record
/// is that of `replay`. The image runs as its texts, whoever compiled it.
///
/// Refused as `Turnstile::open` and `follow_tape` are. So if the thread of an entry doesn't exist, it is refused with
/// 53 at the place of that entry.
pub fn play_turns<'x, G: Gate + Sync, R: Threads + Wait + Sync>(
    rt: &'x R,
    alloc: Global,
    image: &Image,
    cells: usize,
    schedule: &Schedule,
    gate: &'x G,
) -> Result<Record, TapeFault>
    ensures bad { IsErrOf result (TapeFault.Load LoadFault.BadCells) ↔ AreBadCells (code_of_image image.now).names
        cells }
    ensures spent { (place : ℕ) → IsErrOf result (TapeFault.Follow (FollowFault.TurnsSpent place)) →
        place < length schedule.now }
    ensures record { IfOk result (IsRecordOf (code_of_image image.now) cells schedule.now) }
    ensures image { ∥ RunsAsItsTexts image.now ∥₁ }
{
    let (turnstile, seats) = Turnstile::open(alloc, image, cells, schedule)?;
    match follow_tape(rt, alloc, turnstile, seats, gate) {
        Ok((turnstile, seats)) => match turnstile.close(seats) {
            Ok(record) => Ok(record),
            Err(_) => unreachable!(),
        },
        Err((fault, _, _)) => Err(TapeFault::Follow(fault)),
    }
}
