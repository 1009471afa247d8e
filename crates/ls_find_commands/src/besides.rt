// What is said beside `none`.

ghost use Rattle.std.specs.Prelude.{◌+◌, IfOk, length, string_bytes};
ghost use Rattle.ls_explore.specs.Watching.{GoesOn};
ghost use Rattle.ls_find_commands.specs.Besides.{AreBeside, IsSerialBeside};
ghost use Rattle.ls_find_races.specs.Quiet.{FirstAreFree};
ghost use Rattle.ls_find_serial.specs.Told.{AreToldOf};

use crate::racing::races_beside;
use crate::silent::silent_beside;
use ls_alone::Tellings;
use ls_explore::Watch;
use ls_family_search::{Numbers, Programs};
use ls_find_races::RaceExplorer;
use ls_find_serial::{serial_lines, tell_numbers};
use std::alloc::{AllocError, Global};
use std::thread::Threads;

/// What more is said beside `none`.
#[derive(Drop)]
pub(crate) struct Beside<'a> {
    /// Whether it is asked.
    pub(crate) asked: bool,
    pub(crate) races: &'a RaceExplorer<'a>,
    /// What is told already of calls that run one at a time, of numbers from this one on.
    pub(crate) from: u64,
    pub(crate) told: &'a [Tellings],
    /// So many of the first programs are known to have no data race.
    pub(crate) free: u64,
}

/// What is said of calls that run one at a time, where that is asked. What is told already of all numbers isn't asked
/// once more.
fn serial_beside(
    rt: &(impl Threads + Sync),
    alloc: Global,
    beside: &Beside<'_>,
    programs: &Programs<'_>,
) -> Result<String, AllocError>
    requires { AreToldOf beside.now.races.now.classes.now programs.now beside.now.from
        (beside.now.from + length beside.now.told.now) beside.now.told.now }
    ensures { IfOk result (λ text. IsSerialBeside beside.now.asked beside.now.races.now.classes.now programs.now
        (string_bytes text)) }
{
    if !beside.asked {
        return Ok(String::new(alloc));
    }
    let count = programs.family().count();
    if beside.from == 0 && beside.told.len() as u64 == count {
        return serial_lines(alloc, beside.told);
    }
    let numbers = Numbers { from: 0, to: count };
    let told = tell_numbers(rt, alloc, beside.races.classes, programs, numbers)?;
    serial_lines(alloc, told.as_slice())
}

/// What is said beside `none`, where that is asked: of a menu without a call that answers a value, of calls that run
/// one at a time, and then of data races.
pub(crate) fn said_beside<W: Watch>(
    rt: &(impl Threads + Sync),
    alloc: Global,
    beside: &Beside<'_>,
    programs: &Programs<'_>,
    watch: &mut W,
) -> Result<String, AllocError>
    requires told { AreToldOf beside.now.races.now.classes.now programs.now beside.now.from
        (beside.now.from + length beside.now.told.now) beside.now.told.now }
    requires free { FirstAreFree beside.now.races.now.classes.now programs.now beside.now.free }
    ensures beside { IfOk result (λ text. AreBeside beside.now.asked beside.now.races.now.states
        beside.now.races.now.classes.now programs.now (string_bytes text)) }
    ensures watched { GoesOn W.Since watch.old watch.new }
{
    let mut text = silent_beside(alloc, beside.asked, beside.races.classes, programs)?;
    let serial_lines = serial_beside(rt, alloc, beside, programs)?;
    text.push_str(serial_lines.as_str())?;
    let race_line = races_beside(rt, alloc, beside, programs, watch)?;
    text.push_str(race_line.as_str())?;
    Ok(text)
}
