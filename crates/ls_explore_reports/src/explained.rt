// Which rows are explained.

ghost use Rattle.std.specs.Prelude.{Decides, IfOk};
ghost use Rattle.ls_serial.specs.Serial.{IsExplainedBy};
ghost use Rattle.ls_explore_reports.specs.Rows.{AreRunsOfRows, TellExplained};

use ls_events::event::Event;
use ls_explore::Row;
use ls_serial::SerialRuns;
use std::alloc::{AllocError, Global};

/// The serial runs of these rows. The only refusal is that memory ran out.
pub(crate) fn serial_runs(alloc: Global, rows: &[Row]) -> Result<SerialRuns, AllocError>
    ensures { IfOk result (AreRunsOfRows rows.now) }
{
    let mut runs = SerialRuns::new(alloc);
    for at in 0..rows.len() {
        runs.add(alloc, rows[at].history())?;
    }
    Ok(runs)
}

/// Whether one of the runs explains a history.
pub(crate) fn explain(runs: &SerialRuns, history: &[Event]) -> bool
    ensures { Decides result (IsExplainedBy runs.now history.now) }
{
    runs.explaining(history).is_some()
}

/// For each row, whether one of the rows begins with a serial history that explains it. The only refusal is that memory
/// ran out.
pub fn explained_rows(alloc: Global, rows: &[Row]) -> Result<Vec<bool>, AllocError>
    ensures { IfOk result (λ flags. TellExplained rows.now flags.items) }
{
    let runs = serial_runs(alloc, rows)?;
    let mut flags = Vec::with_capacity(alloc, rows.len())?;
    for at in 0..rows.len() {
        flags.push(explain(&runs, rows[at].history()))?;
    }
    Ok(flags)
}
