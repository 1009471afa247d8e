// An order of whole calls that explains a history.

ghost use Rattle.std.specs.Prelude.{◌≡◌, false, IfNone, IfOk, IfSome, map, string_bytes};
ghost use Rattle.ls_checked.specs.Plain.{plain_file};
ghost use Rattle.ls_checked.specs.PlainProgram.{plain_program};
ghost use Rattle.ls_linearizable.specs.Linearizable.{IsLinearizable};
ghost use Rattle.ls_serial_search.specs.Told.{usual};
ghost use Rattle.ls_automaton.specs.Programs.{IsExplainedWithin};
ghost use Rattle.ls_serial_orders.specs.Known.{file_of, program_of, IsKnown, IsKnownOf, IsTableOf};
ghost use Rattle.ls_serial_orders.specs.Orders.{IsOrderOf, IsOutcome};

use crate::calls::calls_of;
use crate::layers::serial_run;
use ls_automaton::table::{Table, table_of};
use ls_checked::program::Program;
use ls_checked::tree::File;
use ls_events::event::Event;
use ls_serial_search::telling::Bounds;
use std::alloc::{AllocError, Global};

/// Whether an order of whole calls explains a history, and from which event on none does.
#[derive(Drop)]
pub enum SerialAnswer {
    /// The calls of methods of such an order, by their texts.
    Ordered(Vec<String>),
    /// The place, from 0, of the event from which on none does, and an order of the events before it.
    Hopeless { at: usize, order: Vec<String> },
    /// No order does whose calls end alone within the bound. A call alone doesn't end.
    LongCall,
    /// It isn't known whether one does, since calls that run one at a time lead to too many states.
    ManyStates,
}

/// A program of a file, and its states between calls that run one at a time, as a table.
#[derive(Drop)]
pub struct Known<'a> {
    file: &'a File,
    pub(crate) program: &'a Program,
    /// None if there are too many states.
    table: Option<Table>,
}

/// A table has at most so many states.
const MOST_STATES: usize = 32_000;

/// A program of a file, and its states between calls. The only refusal is that memory ran out.
pub fn known_of<'a>(
    alloc: Global,
    file: &'a File,
    program: &'a Program,
) -> Result<Known<'a>, AllocError>
    ensures { IfOk result (IsKnownOf (plain_file file.now) (plain_program program.now)) }
{
    let bounds = Bounds::usual();
    let table = table_of(alloc, file, program, bounds.steps, MOST_STATES)?;
    Ok(Known {
        file,
        program,
        table,
    })
}

/// An order that explains a history. None if none does.
fn order_of(
    alloc: Global,
    known: &Known<'_>,
    table: &Table,
    history: &[Event],
) -> Result<Option<Vec<String>>, AllocError>
    requires { IsTableOf (file_of known.now) (program_of known.now) table.now }
    ensures some { IfOk result (λ found. IfSome found (λ order.
        IsOrderOf (file_of known.now) (program_of known.now) history.now (map string_bytes order.items))) }
    ensures none { IfOk result (λ found. IfNone found (table.now.goes_on ≡ false →
        IsLinearizable (file_of known.now) (program_of known.now) history.now → ⊥)) }
    ensures within { IfOk result (λ found. IfNone found
        (IsExplainedWithin (file_of known.now) (program_of known.now) usual.steps history.now → ⊥)) }
{
    let rows = table.rows.as_slice();
    let found = serial_run(alloc, rows, history)?;
    match found {
        Some(run) => {
            let events = run.as_slice();
            let order = calls_of(alloc, known.program, events)?;
            Ok(Some(order))
        }
        None => Ok(None),
    }
}

/// The event from which on no order explains a history, and an order of the events before it. The place is found by
/// bisect.
fn find_hopeless(
    alloc: Global,
    known: &Known<'_>,
    table: &Table,
    history: &[Event],
) -> Result<SerialAnswer, AllocError>
    requires known { IsTableOf (file_of known.now) (program_of known.now) table.now }
    requires complete { table.now.goes_on ≡ false }
    requires none { IsLinearizable (file_of known.now) (program_of known.now) history.now → ⊥ }
    ensures { IfOk result (IsOutcome (file_of known.now) (program_of known.now) history.now) }
{
    let mut at = 0;
    let mut order = Vec::new(alloc);
    let mut hopeless = history.len();
    'bisect: while hopeless - at > 1 {
        let middle = at + (hopeless - at) / 2;
        match order_of(alloc, known, table, &history[..middle])? {
            Some(found) => {
                at = middle;
                order = found;
            }
            None => hopeless = middle,
        }
    }
    Ok(SerialAnswer::Hopeless { at, order })
}

/// What the states say of a history that no order explains whose calls end alone within the bound.
fn unexplained(
    alloc: Global,
    known: &Known<'_>,
    table: &Table,
    history: &[Event],
) -> Result<SerialAnswer, AllocError>
    requires known { IsTableOf (file_of known.now) (program_of known.now) table.now }
    requires none { table.now.goes_on ≡ false →
        IsLinearizable (file_of known.now) (program_of known.now) history.now → ⊥ }
    requires within { IsExplainedWithin (file_of known.now) (program_of known.now) usual.steps history.now → ⊥ }
    ensures { IfOk result (IsOutcome (file_of known.now) (program_of known.now) history.now) }
{
    if table.goes_on {
        return Ok(SerialAnswer::LongCall);
    }
    find_hopeless(alloc, known, table, history)
}

/// What the states say of a history: an order of whole calls that explains it, or else the event from which on none
/// does. The only refusal is that memory ran out.
fn find_by(
    alloc: Global,
    known: &Known<'_>,
    table: &Table,
    history: &[Event],
) -> Result<SerialAnswer, AllocError>
    requires { IsTableOf (file_of known.now) (program_of known.now) table.now }
    ensures { IfOk result (IsOutcome (file_of known.now) (program_of known.now) history.now) }
{
    match order_of(alloc, known, table, history)? {
        Some(order) => Ok(SerialAnswer::Ordered(order)),
        None => unexplained(alloc, known, table, history),
    }
}

/// The same, unless there are too many states. The only refusal is that memory ran out.
pub fn find(alloc: Global, known: &Known<'_>, history: &[Event]) -> Result<SerialAnswer, AllocError>
    requires { IsKnown known.now }
    ensures { IfOk result (IsOutcome (file_of known.now) (program_of known.now) history.now) }
{
    match &known.table {
        Some(table) => find_by(alloc, known, table, history),
        None => Ok(SerialAnswer::ManyStates),
    }
}
