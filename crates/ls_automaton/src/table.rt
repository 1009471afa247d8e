// What calls do that run one at a time, in states by number.

ghost use Rattle.std.specs.Prelude.{◌≡◌, true, IfNone, IfOk, IfSome};
ghost use Rattle.ls_checked.specs.Plain.{plain_file};
ghost use Rattle.ls_checked.specs.PlainProgram.{plain_program};
ghost use Rattle.ls_serial_search.specs.Open.{HasLongCall, HasManyOrders};
ghost use Rattle.ls_automaton.specs.Tables.{AreOutcomes};

use crate::outcome::Outcome;
use crate::states::{States, states_of};
use ls_checked::program::Program;
use ls_checked::tree::File;
use std::alloc::{AllocError, Global};

/// What calls do in each state, by its number. The first state is that in which nothing has run.
#[derive(Drop)]
pub struct Table {
    pub rows: Vec<Vec<Outcome>>,
    /// Whether a call alone doesn't end within the bound.
    pub goes_on: bool,
}

/// What calls do in each state to which calls lead that run one at a time, each for at most so many steps. None if
/// there are more states than so many: then there are more serial histories than so many, too. The source alone is run,
/// with no cells. The only refusal is that memory ran out.
pub fn table_of(
    alloc: Global,
    file: &File,
    program: &Program,
    most_steps: usize,
    most_states: usize,
) -> Result<Option<Table>, AllocError>
    ensures outcomes { IfOk result (λ some. IfSome some (λ t.
        AreOutcomes (plain_file file.now) (plain_program program.now) most_steps t.goes_on t.rows.items)) }
    ensures long { IfOk result (λ some. IfSome some (λ t. t.goes_on ≡ true →
        HasLongCall (plain_file file.now) (plain_program program.now) most_steps)) }
    ensures many { IfOk result (λ some. IfNone some
        (HasManyOrders (plain_file file.now) (plain_program program.now) most_states)) }
{
    let States {
        spots: _,
        fates: _,
        rows,
        goes_on,
        many,
    } = states_of(alloc, file, program, most_steps, most_states)?;
    if many {
        return Ok(None);
    }
    Ok(Some(Table { rows, goes_on }))
}
