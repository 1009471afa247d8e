// What stands below a row: what the command `order` tells of its history, if that is asked for.

ghost use Rattle.std.specs.Prelude.{Bool, IfOk, string_bytes};
ghost use Rattle.ls_checked.specs.CheckedTree.{File as FileValue};
ghost use Rattle.ls_checked.specs.CheckedProgram.{Program as ProgramValue};
ghost use Rattle.ls_checked.specs.Plain.{plain_file};
ghost use Rattle.ls_checked.specs.PlainProgram.{plain_program};
ghost use Rattle.ls_explore_reports.specs.Below.{HasNames, IsBelow, IsFor};

use ls_checked::program::Program;
use ls_checked::tree::File;
use ls_events::event::Event;
use ls_serial_orders::{Known, known_of, tell_known};
use std::alloc::{AllocError, Global};

/// A program of a file with its states between calls, if orders are asked for.
pub(crate) fn known_if<'a>(
    alloc: Global,
    file: &'a File,
    program: &'a Program,
    orders: bool,
) -> Result<Option<Known<'a>>, AllocError>
    ensures { IfOk result (IsFor orders (plain_file file.now) (plain_program program.now)) }
{
    if !orders {
        return Ok(None);
    }
    let known = known_of(alloc, file, program)?;
    Ok(Some(known))
}

/// What stands below a row of a history.
pub(crate) fn below(
    alloc: Global,
    known: &Option<Known<'_>>,
    history: &[Event],
) -> Result<String, AllocError>
    requires { (orders : Bool) × (file : FileValue) × (program : ProgramValue) × IsFor orders file program known.now }
    ensures { IfOk result (λ text. (orders : Bool) (file : FileValue) (program : ProgramValue) →
        IsFor orders file program known.now → HasNames program history.now →
        IsBelow orders file program history.now (string_bytes text)) }
{
    let Some(known) = known else {
        return Ok(String::new(alloc));
    };
    let text = tell_known(alloc, known, history)?;
    Ok(text)
}
