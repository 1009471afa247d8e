// A whole live run.

ghost use Rattle.ls_events.specs.Limits.{most_steps};
ghost use Rattle.ls_code.specs.Machine.{loaded};
ghost use Rattle.ls_image.specs.Images.{code_of_image};
ghost use Rattle.ls_live.specs.Records.{AreThere, IsDone};
ghost use Rattle.ls_live.specs.declared.fault.LiveFault.TheVariants.{BadCells, BadLimit};
ghost use Rattle.ls_live.specs.Due.{AreDue};
ghost use Rattle.ls_machine.specs.Room.{AreBadCells};
ghost use Rattle.ls_schedule.specs.Records.{IsRecordOf, scheduled};
ghost use Rattle.std.specs.Prelude.{◌≡◌, ◌↔◌, ◌<◌, ◌≤◌, length, IfOk, IsErrOf};

use crate::fault::PlayFault;
use crate::live::{CloseFault, Live};
use crate::running::run_live;
use crate::{Gate, Session};
use ls_image::image::Image;
use ls_schedule::Record;
use std::alloc::{AllocError, Global};
use std::marker::Brand;
use std::sync::Wait;
use std::sync::ledger::Blank;
use std::thread::Threads;

/// How many cells the machine of a live run has, and how many steps it may record.
#[derive(Copy)]
struct Bounds {
    cells: usize,
    limit: usize,
}

impl Clone for Bounds {
    fn clone(&self) -> Result<Bounds, AllocError> {
        Ok(*self)
    }
}

fn played<L: Session + Send + Sync, G: Gate + Sync, R: Threads + Wait + Sync>(
    rt: &R,
    alloc: Global,
    blank: Blank,
    image: &Image,
    bounds: Bounds,
    gate: &G,
) -> Result<Record, PlayFault>
    requires name { blank.name ≡ L.name }
    requires parts { blank.parts ≡ L.parts }
    requires seats { (L.seats ≡ L.parts) × (L.seats ≡ length (code_of_image image.now).starts) }
    requires start { L.start ≡ loaded (code_of_image image.now) bounds.cells }
    requires limit { L.limit ≡ bounds.limit }
    ensures cells { IsErrOf result (PlayFault.Open BadCells) ↔ AreBadCells (code_of_image image.now).names
        bounds.cells }
    ensures limit { IsErrOf result (PlayFault.Open BadLimit) ↔
        (¬ AreBadCells (code_of_image image.now).names bounds.cells × (most_steps < bounds.limit)) }
    ensures record { IfOk result (λ r. IsRecordOf (code_of_image image.now) bounds.cells (scheduled r) r) }
    ensures there { IfOk result (AreThere (code_of_image image.now)) }
    ensures due { IfOk result (λ r. AreDue (loaded (code_of_image image.now) bounds.cells) (scheduled r)) }
    ensures within { IfOk result (λ r. length (scheduled r) ≤ bounds.limit) }
    ensures done { IfOk result (IsDone (code_of_image image.now) bounds.cells bounds.limit) }
{
    let Bounds { cells, limit } = bounds;
    let (live, seats) = match Live::<L>::open(alloc, blank, image, cells, limit) {
        Ok(opened) => opened,
        Err(fault) => return Err(PlayFault::Open(fault)),
    };
    let Ok((live, worked)) = run_live(rt, live, seats, gate) else {
        return Err(PlayFault::NoThread);
    };
    match live.close(worked) {
        Ok(record) => Ok(record),
        Err(CloseFault::Missing { live: _, seats: _ }) => unreachable!(),
        Err(CloseFault::Disagree { kept: _, seats: _ }) => Err(PlayFault::Disagree),
    }
}

/// The record of a live run of an image on `cells` cells, each thread in a thread of its own. It goes on until each
/// thread is over or `limit` steps are recorded. Each recorded step is of a thread that exists and is due then, so no
/// step is idle.
///
/// Refused with 35 if there are no cells, over 4,194,304, or fewer than setup names. Else refused with 51 if the limit
/// is over 1,000,000 steps. Else refused with 52 if a thread could not be started, or if memory runs out. Tests show
/// that 54 never comes.
pub fn play_live<G: Gate + Sync, R: Threads + Wait + Sync>(
    rt: &R,
    alloc: Global,
    image: &Image,
    cells: usize,
    limit: usize,
    gate: &G,
) -> Result<Record, PlayFault>
    ensures cells { IsErrOf result (PlayFault.Open BadCells) ↔ AreBadCells (code_of_image image.now).names cells }
    ensures limit { IsErrOf result (PlayFault.Open BadLimit) ↔ (¬ AreBadCells (code_of_image image.now).names cells ×
        (most_steps < limit)) }
    ensures record { IfOk result (λ r. IsRecordOf (code_of_image image.now) cells (scheduled r) r) }
    ensures there { IfOk result (AreThere (code_of_image image.now)) }
    ensures due { IfOk result (λ r. AreDue (loaded (code_of_image image.now) cells) (scheduled r)) }
    ensures within { IfOk result (λ r. length (scheduled r) ≤ limit) }
    ensures done { IfOk result (IsDone (code_of_image image.now) cells limit) }
{
    let blank = Blank::new(image.code().starts().len() as u64);
    let bounds = Bounds { cells, limit };
    played::<Brand, G, R>(rt, alloc, blank, image, bounds, gate)
}
