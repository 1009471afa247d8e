// Whether a history is linearizable to a specification.

ghost use Rattle.std.specs.Prelude.{◌≡◌, IfOk, false, true};
ghost use Rattle.ls_checked.specs.CheckedTree.{File as FileValue};
ghost use Rattle.ls_checked.specs.CheckedProgram.{Program as ProgramValue};
ghost use Rattle.ls_checked.specs.Plain.{plain_file};
ghost use Rattle.ls_checked.specs.PlainProgram.{plain_program};
ghost use Rattle.ls_linearizable.specs.Once.{AreOnce};
ghost use Rattle.ls_serial_search.specs.Told.{usual};
ghost use Rattle.ls_specification.specs.Specification.{spec_file, spec_program};
ghost use Rattle.ls_linearity.specs.Judges.{Judges};
ghost use Rattle.ls_linearity.specs.Meant.{IsMeant};
ghost use Rattle.ls_linearity.specs.Tabled.{IsTableOf};

use crate::table::{MOST_STATES, SerialTable, serial_table};
use ls_checked::program::Program;
use ls_checked::tree::File;
use ls_events::event::Event;
use ls_serial_orders::layers::serial_run;
use ls_specification::Specification;
use std::alloc::{AllocError, Global};

/// Whether a history is linearizable.
#[derive(Copy, PartialEq, Eq)]
pub enum Linearity {
    /// A serial history of the specification explains it.
    Linearizable,
    /// No serial history of the specification explains it.
    NotLinearizable,
    /// It isn't known: no serial history explains it, each call of which ends within the bound, and a call doesn't.
    LongCall,
    /// It isn't known, since calls that run one at a time lead to too many states.
    ManyStates,
}

impl Clone for Linearity {
    fn clone(&self) -> Result<Linearity, AllocError> {
        Ok(*self)
    }
}

/// What judges histories by a specification: its states as a table, unless these are too many.
#[derive(Drop)]
pub enum SerialJudge {
    Table(SerialTable),
    ManyStates,
}

/// What judges histories by a specification. It is made once for all of them. The only refusal is that memory ran out.
pub fn judge_for(alloc: Global, specification: Specification<'_>) -> Result<SerialJudge, AllocError>
    ensures { IfOk result (Judges (spec_file specification.entry) (spec_program specification.entry)) }
{
    match serial_table(alloc, specification, MOST_STATES)? {
        Some(table) => Ok(SerialJudge::Table(table)),
        None => Ok(SerialJudge::ManyStates),
    }
}

/// What judges histories by the calls of a program itself. The only refusal is that memory ran out.
pub fn own_judge(alloc: Global, file: &File, program: &Program) -> Result<SerialJudge, AllocError>
    ensures { IfOk result (Judges (plain_file file.now) (plain_program program.now)) }
{
    let judge = judge_for(alloc, Specification::own(file, program))?;
    Ok(judge)
}

/// What is said of a history that no serial run of a table explains.
fn unexplained(goes_on: bool) -> Linearity
    ensures long { goes_on ≡ true → result ≡ Linearity.LongCall }
    ensures known { goes_on ≡ false → result ≡ Linearity.NotLinearizable }
{
    if goes_on {
        return Linearity::LongCall;
    }
    Linearity::NotLinearizable
}

/// Whether a history is linearizable, by a table. Its answers are known, so a serial run is sought call by call, and no
/// pairs are kept with each answer that a call may have had. The only refusal is that memory ran out.
fn by_table(alloc: Global, table: &SerialTable, history: &[Event]) -> Result<Linearity, AllocError>
    ensures { IfOk result (λ l. (file : FileValue) (program : ProgramValue) →
        IsTableOf file program usual table.now → AreOnce history.now → IsMeant file program history.now l) }
{
    let rows = table.rows.as_slice();
    if serial_run(alloc, rows, history)?.is_none() {
        return Ok(unexplained(table.goes_on));
    }
    Ok(Linearity::Linearizable)
}

/// Whether a history, in which no event stands twice, is linearizable. If it is not known, there is the reason. The
/// only refusal is that memory ran out.
pub fn linearity_by(
    alloc: Global,
    judge: &SerialJudge,
    history: &[Event],
) -> Result<Linearity, AllocError>
    ensures { IfOk result (λ l. (file : FileValue) (program : ProgramValue) →
        Judges file program judge.now → AreOnce history.now → IsMeant file program history.now l) }
{
    match judge {
        SerialJudge::Table(table) => by_table(alloc, table, history),
        SerialJudge::ManyStates => Ok(Linearity::ManyStates),
    }
}
