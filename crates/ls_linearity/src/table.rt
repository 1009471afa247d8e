// The states of a specification between its calls, as a table.

ghost use Rattle.std.specs.Prelude.{◌≡◌, true, IfNone, IfOk, IfSome};
ghost use Rattle.ls_automaton.specs.Tables.{AreOutcomes};
ghost use Rattle.ls_serial_search.specs.Open.{HasLongCall, HasManyOrders};
ghost use Rattle.ls_serial_search.specs.Told.{usual};
ghost use Rattle.ls_specification.specs.Specification.{spec_file, spec_program};
ghost use Rattle.ls_linearity.specs.Tabled.{IsTableOf};

use ls_automaton::merging::merge;
use ls_automaton::outcome::Outcome;
use ls_automaton::table::{Table, table_of};
use ls_serial_search::telling::Bounds;
use ls_specification::Specification;
use std::alloc::{AllocError, Global};

/// The states of a specification between calls that run one at a time, by number, with what each call does there.
#[derive(Drop)]
pub struct SerialTable {
    pub rows: Vec<Vec<Outcome>>,
    /// Whether a call alone doesn't end within the bound.
    pub goes_on: bool,
}

/// A table has at most so many states where histories are judged one by one.
pub const MOST_STATES: usize = 32_000;

/// A table in which states that do the same are one, as far as they are found. The only refusal is that memory ran out.
fn merged_table(
    alloc: Global,
    specification: Specification<'_>,
    bounds: &Bounds,
    table: Table,
) -> Result<SerialTable, AllocError>
    requires outcomes { AreOutcomes (spec_file specification) (spec_program specification) bounds.now.steps
        table.goes_on table.rows.items }
    requires long { table.goes_on ≡ true →
        HasLongCall (spec_file specification) (spec_program specification) bounds.now.steps }
    ensures { IfOk result
        (IsTableOf (spec_file specification.entry) (spec_program specification.entry) bounds.now) }
{
    let goes_on = table.goes_on;
    let rows = merge(alloc, table.rows)?;
    Ok(SerialTable { rows, goes_on })
}

/// The table of a specification, in which each call is followed for at most 10,000 steps. None if it would have more
/// states than so many: then there are more serial histories than so many, too. The only refusal is that memory ran
/// out.
pub fn serial_table(
    alloc: Global,
    specification: Specification<'_>,
    most_states: usize,
) -> Result<Option<SerialTable>, AllocError>
    ensures table { IfOk result (λ some. IfSome some
        (IsTableOf (spec_file specification.entry) (spec_program specification.entry) usual)) }
    ensures many { IfOk result (λ some. IfNone some
        (HasManyOrders (spec_file specification.entry) (spec_program specification.entry) most_states)) }
{
    let Specification { file, program } = specification;
    let bounds = Bounds::usual();
    match table_of(alloc, file, program, bounds.steps, most_states)? {
        Some(table) => {
            let merged = merged_table(alloc, specification, &bounds, table)?;
            Ok(Some(merged))
        }
        None => Ok(None),
    }
}
