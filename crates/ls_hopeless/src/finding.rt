// The first event with which a history ceases to be linearizable.

ghost use Rattle.std.specs.Prelude.{◌<◌, IfOk, IfSome, length};
ghost use Rattle.ls_checked.specs.CheckedTree.{File as FileValue};
ghost use Rattle.ls_checked.specs.CheckedProgram.{Program as ProgramValue};
ghost use Rattle.ls_hopeless.specs.Hopeless.{IsHopelessAt};
ghost use Rattle.ls_linearity.specs.Tabled.{IsTableOf};
ghost use Rattle.ls_linearizable.specs.Linearizable.{IsLinearizable};
ghost use Rattle.ls_linearizable.specs.Once.{AreOnce};
ghost use Rattle.ls_serial_search.specs.Told.{usual};
ghost use Rattle.ls_specification.specs.Specification.{spec_file, spec_program};

use ls_events::event::Event;
use ls_linearity::following::lost_at;
use ls_linearity::table::{MOST_STATES, SerialTable, serial_table};
use ls_specification::Specification;
use std::alloc::{AllocError, Global};

/// The place of the first event with which a history ceases to be linearizable, by a table. None if a call goes on. The
/// only refusal is that memory ran out.
fn place_by(
    alloc: Global,
    table: &SerialTable,
    history: &[Event],
) -> Result<Option<usize>, AllocError>
    ensures within { IfOk result (λ some. IfSome some (λ at. at < length history.now)) }
    ensures first { IfOk result (λ some. (file : FileValue) (program : ProgramValue) →
        IsTableOf file program usual table.now → AreOnce history.now → ¬ IsLinearizable file program history.now →
        IsHopelessAt file program history.now some) }
{
    if table.goes_on {
        return Ok(None);
    }
    let place = lost_at(alloc, table.rows.as_slice(), history)?;
    Ok(place)
}

/// The place of the first event with which a history ceases to be linearizable to a specification. None if a call goes
/// on, or if the specification has too many states. The only refusal is that memory ran out.
pub(crate) fn hopeless_at(
    alloc: Global,
    specification: Specification<'_>,
    history: &[Event],
) -> Result<Option<usize>, AllocError>
    ensures within { IfOk result (λ some. IfSome some (λ at. at < length history.now)) }
    ensures first { IfOk result (λ some. AreOnce history.now →
        ¬ IsLinearizable (spec_file specification.entry) (spec_program specification.entry) history.now →
        IsHopelessAt (spec_file specification.entry) (spec_program specification.entry) history.now some) }
{
    match serial_table(alloc, specification, MOST_STATES)? {
        Some(table) => place_by(alloc, &table, history),
        None => Ok(None),
    }
}
