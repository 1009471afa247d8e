// The units of a file.

ghost use Rattle.ls_code.specs.Limits.{most_instructions};
ghost use Rattle.std.specs.Prelude.{◌≡◌, ◌≤◌, ◌↔◌, All, IfOk, OnOk, map};
ghost use Rattle.ls_lowered.specs.Plain.{plain_method, plain_file};
ghost use Rattle.ls_emit.specs.Emittable.{IsEmittableFile};
ghost use Rattle.ls_emit.specs.Units.{method_size, unit_of, units_of};
ghost use Rattle.ls_emit.specs.Small.{IsSmallStatement};
ghost use Rattle.ls_emit.specs.Short.{AllShort};

use crate::ahead::list_ahead;
use crate::code_unit::CodeUnit;
use crate::emission::{Emission, Stretch};
use crate::expressions::put;
use crate::fault::EmitFault;
use crate::needs::{larger, statement_need};
use crate::sizes::are_short;
use crate::statements::emit_statement;
use crate::targets::Around;
use ls_code::instruction::Instruction;
use ls_lowered::tree::{File, Method};
use std::alloc::{AllocError, Global};

// The unit of a method whose code isn't too long.
fn emit_unit(alloc: Global, method: &Method) -> Result<CodeUnit, AllocError>
    requires short { method_size (plain_method method.now) ≤ most_instructions }
    requires small { IsSmallStatement (plain_method method.now).body }
    ensures { IfOk result (λ u. u ≡ unit_of (plain_method method.now)) }
{
    let sizes = list_ahead(alloc, &method.body)?;
    let size = sizes[0];
    let mut out = Emission {
        alloc,
        sizes: &sizes[1..],
        instructions: Vec::with_capacity(alloc, size + 2)?,
        rows: Vec::new(alloc),
    };
    let at = Stretch::new(0, size);
    emit_statement(&mut out, &Around::Nothing, at, &method.body)?;
    put(&mut out.instructions, Instruction::Push(0))?;
    put(&mut out.instructions, Instruction::LeaveWith)?;
    Ok(CodeUnit {
        instructions: out.instructions,
        handlers: out.rows,
        arguments: method.arguments,
        more: method.locals,
        need: larger(1, statement_need(&method.body)),
    })
}

fn emit_units(alloc: Global, methods: &[Method]) -> Result<Vec<CodeUnit>, AllocError>
    requires short { All (λ m. method_size (plain_method m) ≤ most_instructions) methods.now }
    requires small { All (λ m. IsSmallStatement (plain_method m).body) methods.now }
    ensures { IfOk result (λ us. us.items ≡ units_of (map plain_method methods.now)) }
{
    let mut units = Vec::new(alloc);
    for method in methods {
        units.push(emit_unit(alloc, method)?)?;
    }
    Ok(units)
}

/// The units of a file's methods, by their numbers. Refused with `CodeTooLong` exactly if a method's code has over
/// 65,536 instructions. Else the only refusal is that memory ran out.
pub fn emit(alloc: Global, tree: &File) -> Result<Vec<CodeUnit>, EmitFault>
    requires { IsEmittableFile (plain_file tree.now) }
    ensures units { IfOk result (λ us. us.items ≡ units_of (plain_file tree.now)) }
    ensures short { OnOk result (AllShort (plain_file tree.now)) }
    ensures long { (result ≡ Err EmitFault.CodeTooLong) ↔ ¬ AllShort (plain_file tree.now) }
{
    if !are_short(&tree.methods) {
        return Err(EmitFault::CodeTooLong);
    }
    let units = emit_units(alloc, &tree.methods)?;
    Ok(units)
}
