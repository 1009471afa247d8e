// All that threads lead to from the machine after a setup.

ghost use Rattle.ls_code.specs.Limits.{most_instructions};
ghost use Rattle.std.specs.Prelude.{◌≡◌, ◌+◌, All, Contains, IfOk, IsSorted, IsTrue, IsErrOf, ◌↔◌, ◌≤◌, false, length};
ghost use Rattle.std.specs.Prelude.{true};
ghost use Rattle.ls_preservation.specs.Translations.{most_silent};
ghost use Rattle.ls_machine.specs.Room.{AreBadCells};
ghost use Rattle.ls_explore.specs.declared.rows.Ending.TheVariants.{NotSeen};
ghost use Rattle.ls_explore.specs.declared.searching.Seen.{Seen as SeenValue};
ghost use Rattle.ls_explore.specs.Rows.{AreApart, NoneEnds, StandAlone, TellsActs, TellsAll, TellsEnds, TellsFits};
ghost use Rattle.ls_explore.specs.Rows.{TellsFull, TellsNarrow, TellsOver, TellsStates, TellsTruth, TellsWhole};
ghost use Rattle.ls_explore.specs.Rows.{row_order};
ghost use Rattle.ls_explore.specs.Watching.{GoesOn};

use crate::rows::Row;
use crate::searching::{Seen, search_with};
use crate::table::tell;
use crate::walking::Ground;
use ls_code::code::Code;
use ls_events::schedule::Schedule;
use ls_machine::{LoadFault, Machine};
use ls_source_rows::Watch;
use std::alloc::{AllocError, Global};

/// Histories with paths that lead to them, whether they are all, whether no machine ran out of cells, and how many
/// states were kept.
#[derive(Drop)]
pub struct Exploration {
    pub rows: Vec<Row>,
    pub complete: bool,
    pub roomy: bool,
    pub states: usize,
}

/// The most silent steps of a thread in a row, and one more.
fn most_steps(code: &Code) -> u64
    requires { length code.now.instructions ≤ most_instructions }
    ensures { result ≡ most_silent code.now + 1 }
{
    64 * (code.instructions().len() as u64) + 1
}

/// Whether no thread was seen to stop a machine for want of cells.
fn are_roomy(seen: &[Seen]) -> bool
    ensures all { IsTrue result → All (λ s. s.stops ≡ false) seen.now }
    ensures some { result ≡ false → (s : SeenValue) × Contains seen.now s × (s.stops ≡ true) }
{
    for at in 0..seen.len() {
        if seen[at].stops {
            return false;
        }
    }
    true
}

/// How many threads there are, the setup with them, and how many states are kept at the most.
#[derive(Copy)]
pub struct Extent {
    pub threads: u8,
    pub limit: usize,
}

impl Clone for Extent {
    fn clone(&self) -> Result<Extent, AllocError> {
        Ok(*self)
    }
}

/// Explores all that so many threads lead to from the machine after the setup's steps, on so many cells. At most so
/// many states are kept, and while it goes on it tells how many there are. Each row's history is that of a schedule of
/// source steps: the steps of the setup, and then one step of each thread of the row's path. The schedule fits the
/// cells. After the schedule of a row that is over, no thread of the source acts. After that of a row that is out of
/// cells some thread does, and no thread for whose next step there is room.
///
/// If the rows are complete, take a schedule of source steps that fits the cells, of any length. Its history is the
/// beginning of a row's. If no thread acts after the schedule, its history is that of a row that ends. This is so for
/// each text that the code runs as. If also no machine ran out of cells, this is so of each schedule, whether it fits
/// or not. If one did, some schedule doesn't fit.
///
/// If the rows are cut, as many states were kept as may be. Each state has a path of its own, whose steps act after the
/// setup's, and its history is the beginning of a row's. So there is a row.
///
/// No history stands twice, and that of a row that doesn't end begins no other. The row of the shortest path comes
/// first, and of those of one length the row of the least.
pub fn explore<W: Watch>(
    alloc: Global,
    code: &Code,
    cells: usize,
    setup: &Schedule,
    extent: Extent,
    watch: &mut W,
) -> Result<Exploration, LoadFault>
    requires { length code.now.instructions ≤ most_instructions }
    ensures bad { IsErrOf result LoadFault.BadCells ↔ AreBadCells code.now.names cells }
    ensures told { IfOk result (λ e. TellsTruth code.now cells setup.now e.rows.items) }
    ensures acts { IfOk result (λ e. TellsActs code.now cells setup.now e.rows.items) }
    ensures found { IfOk result (λ e. TellsStates code.now cells setup.now e.rows.items e.states) }
    ensures few { IfOk result (λ e. 1 ≤ extent.limit → e.states ≤ extent.limit) }
    ensures cut { IfOk result (λ e. e.complete ≡ false → extent.limit ≤ e.states) }
    ensures fits { IfOk result (λ e. TellsFits code.now cells setup.now e.rows.items) }
    ensures full { IfOk result (λ e. TellsFull code.now cells setup.now extent.threads e.rows.items) }
    ensures narrow { IfOk result (λ e. e.roomy ≡ false → TellsNarrow code.now cells setup.now) }
    ensures seen { IfOk result (λ e. IsTrue e.complete → NoneEnds NotSeen e.rows.items) }
    ensures over { IfOk result (λ e. TellsOver code.now cells setup.now extent.threads e.rows.items) }
    ensures tells { IfOk result (λ e. IsTrue e.complete →
        TellsAll code.now cells setup.now extent.threads e.rows.items) }
    ensures ends { IfOk result (λ e. IsTrue e.complete →
        TellsEnds code.now cells setup.now extent.threads e.rows.items) }
    ensures whole { IfOk result (λ e. IsTrue e.complete → IsTrue e.roomy →
        TellsWhole code.now cells setup.now extent.threads e.rows.items) }
    ensures alone { IfOk result (λ e. StandAlone e.rows.items) }
    ensures apart { IfOk result (λ e. AreApart e.rows.items) }
    ensures order { IfOk result (λ e. IsSorted row_order e.rows.items) }
    ensures watched { GoesOn W.Since watch.old watch.new }
{
    let mut walker = Machine::load(alloc, code, cells)?;
    let ground = Ground {
        alloc,
        setup,
        most: most_steps(code),
        threads: extent.threads,
        limit: extent.limit,
    };
    let found = search_with(&mut walker, code, cells, &ground, watch)?;
    let rows = tell(&mut walker, &ground, &found)?;
    Ok(Exploration {
        rows,
        complete: found.complete,
        roomy: are_roomy(found.seen.as_slice()),
        states: found.paths.len(),
    })
}
