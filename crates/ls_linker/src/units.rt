// Units, one after another.

ghost use Rattle.ls_code.specs.Limits.{most_instructions};
ghost use Rattle.std.specs.Prelude.{◌≡◌, ◌++◌, ◌+◌, ◌*◌, ◌^◌, ◌≤◌, ◌∷◌, [], All, OnOk, length, map};
ghost use Rattle.ls_emit.specs.Units.{moved, moved_row};
ghost use Rattle.ls_linker.specs.Landing.{Lands, RowLands, UnitLands};
ghost use Rattle.ls_linker.specs.Added.{AddsUnits};

use ls_code::code::{HandlerRow, Method, Parts};
use ls_code::instruction::Instruction;
use ls_emit::code_unit::CodeUnit;
use std::alloc::AllocError;

/// An instruction of a unit that begins at `start`.
fn moved(start: u32, instruction: Instruction) -> Instruction
    requires room { start ≤ 2 ^ 26 }
    requires lands { Lands most_instructions instruction }
    ensures { result ≡ moved start instruction }
{
    match instruction {
        Instruction::Jump(place) => Instruction::Jump(start + place),
        Instruction::JumpIfFalse(place) => Instruction::JumpIfFalse(start + place),
        Instruction::JumpIfTrue(place) => Instruction::JumpIfTrue(start + place),
        Instruction::Turn(place) => Instruction::Turn(start + place),
        other => other,
    }
}

fn moved_row(start: usize, row: HandlerRow) -> HandlerRow
    requires room { start ≤ 2 ^ 26 }
    requires lands { RowLands most_instructions row }
    ensures { result ≡ moved_row start row }
{
    HandlerRow {
        from: start + row.from,
        to: start + row.to,
        handler: start + row.handler,
        depth: row.depth,
    }
}

fn add_instructions(
    code: &mut Vec<Instruction>,
    start: u32,
    instructions: &[Instruction],
) -> Result<(), AllocError>
    requires room { start ≤ 2 ^ 26 }
    requires lands { All (Lands most_instructions) instructions.now }
    ensures { OnOk result (code.new.items ≡ code.old.items ++ map (moved start) instructions.now) }
{
    for instruction in instructions {
        code.push(moved(start, *instruction))?;
    }
    Ok(())
}

fn add_rows(
    handlers: &mut Vec<HandlerRow>,
    start: usize,
    rows: &[HandlerRow],
) -> Result<(), AllocError>
    requires room { start ≤ 2 ^ 26 }
    requires lands { All (RowLands most_instructions) rows.now }
    ensures { OnOk result (handlers.new.items ≡ handlers.old.items ++ map (moved_row start) rows.now) }
{
    for row in rows {
        handlers.push(moved_row(start, *row))?;
    }
    Ok(())
}

fn add_unit(parts: &mut Parts, unit: &CodeUnit) -> Result<(), AllocError>
    requires room { length parts.old.instructions ≤ 2 ^ 26 }
    requires lands { UnitLands unit.now }
    ensures { OnOk result (AddsUnits parts.old (unit.now ∷ []) parts.new) }
{
    let start = parts.instructions.len();
    let place = start as u32;
    parts.methods.push(Method {
        start,
        arguments: unit.arguments,
        more: unit.more,
        need: unit.need,
    })?;
    add_rows(&mut parts.handlers, start, &unit.handlers)?;
    add_instructions(&mut parts.instructions, place, &unit.instructions)?;
    Ok(())
}

/// Puts units after the code that is there. A unit has at most 65,536 instructions, so each place is an operand. The
/// only refusal is that memory ran out.
#[tactic(auto, using(crate::proofs::Rooms::first_of_all, crate::proofs::Rooms::others_of_all, crate::proofs::Rooms::unit_room))]
pub fn add_units(parts: &mut Parts, units: &[CodeUnit]) -> Result<(), AllocError>
    requires room { length parts.old.instructions + most_instructions * length units.now ≤ 2 ^ 26 }
    requires lands { All UnitLands units.now }
    ensures { OnOk result (AddsUnits parts.old units.now parts.new) }
{
    match units {
        [] => Ok(()),
        [first, others @ ..] => {
            add_unit(parts, first)?;
            add_units(parts, others)?;
            Ok(())
        }
    }
}
