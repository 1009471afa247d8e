// The texts by number of a graph and of a table of states between calls.

ghost use Rattle.std.specs.Prelude.{◌≡◌, IfOk};
ghost use Rattle.ls_labels.specs.Names.{names_of};
ghost use Rattle.ls_choices.specs.Seen.{graph_of};
ghost use Rattle.ls_page.specs.ChoicesData.{AreTables, IsSerialTable, reference_of, rows_of, serial_file};
ghost use Rattle.ls_page.specs.ChoicesData.{serial_program};
ghost use Rattle.ls_specification.specs.Specification.{spec_file, spec_program};
ghost use Rattle.ls_page.specs.Tabled.{tables_of};

use crate::Reference;
use crate::numbers::{numbers_of_outcomes, numbers_of_states, states_after};
use crate::table::Table;
use ls_automaton::outcome::Outcome;
use ls_choices::graph::Choices;
use ls_labels::names::Names;
use ls_linearity::table::{MOST_STATES, SerialTable, serial_table};
use ls_specification::Specification;
use std::alloc::{AllocError, Global};

/// Texts by number, the numbers of the words of each row, and of each state between calls the numbers of the lines of
/// the ends of its calls, with the states after them.
#[derive(Drop)]
pub(crate) struct Tables {
    pub(crate) table: Table,
    pub(crate) lines: Vec<Vec<usize>>,
    pub(crate) ends: Vec<Vec<usize>>,
    pub(crate) next: Vec<Vec<usize>>,
    /// The table of states, if there aren't too many.
    pub(crate) serial: Option<SerialTable>,
}

/// What says how calls are right: the reference, or else the program's own calls.
fn specification_in<'a>(reference: Option<Reference<'a>>, names: Names<'a>) -> Specification<'a>
    ensures file { spec_file result ≡ serial_file (reference_of reference.entry) (names_of names.entry) }
    ensures program { spec_program result ≡ serial_program (reference_of reference.entry) (names_of names.entry) }
{
    match reference {
        Some(reference) => reference.specification,
        None => Specification::own(names.file, names.program),
    }
}

/// The table of the reference, or else of the program. None if there are too many states. The only refusal is that
/// memory ran out.
pub(crate) fn serial_of(
    alloc: Global,
    reference: Option<Reference<'_>>,
    names: Names,
) -> Result<Option<SerialTable>, AllocError>
    ensures { IfOk result (IsSerialTable (serial_file (reference_of reference.entry) (names_of names.entry))
        (serial_program (reference_of reference.entry) (names_of names.entry))) }
{
    let specification = specification_in(reference, names);
    let found = serial_table(alloc, specification, MOST_STATES)?;
    Ok(found)
}

/// The outcomes of each state of a table. There are none if there is no table.
fn rows_of(serial: &Option<SerialTable>) -> &[Vec<Outcome>]
    ensures { result.now ≡ rows_of serial.now }
{
    match serial {
        Some(table) => table.rows.as_slice(),
        None => &[],
    }
}

/// The tables of a graph and of states between calls. The only refusal is that memory ran out.
pub(crate) fn tables_of(
    alloc: Global,
    names: Names,
    choices: &Choices,
    serial: Option<SerialTable>,
) -> Result<Tables, AllocError>
    ensures tables { IfOk result (λ t. AreTables (names_of names.entry) (graph_of choices.now) (tables_of t)) }
    ensures serial { IfOk result (λ t. t.serial ≡ serial) }
{
    let mut table = Table::new(alloc);
    let lines = numbers_of_states(alloc, &mut table, &choices.rows)?;
    let rows = rows_of(&serial);
    let ends = numbers_of_outcomes(alloc, &mut table, names.program, rows)?;
    let next = states_after(alloc, rows)?;
    Ok(Tables {
        table,
        lines,
        ends,
        next,
        serial,
    })
}
