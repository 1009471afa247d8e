// The code of statements.

ghost use Rattle.ls_code.specs.Limits.{most_instructions};
ghost use Rattle.std.specs.Prelude.{◌≡◌, ◌+◌, ◌≤◌, ◌++◌, [], ◌∷◌, IfOk, OnOk, drop, length, map, take};
ghost use Rattle.ls_code.specs.declared.instruction.Instruction.TheVariants as op;
ghost use Rattle.ls_lowered.specs.LoweredTree.{If, While, Guarded, Leavable};
ghost use Rattle.ls_lowered.specs.Plain.{plain, plain_statement, statements_of};
ghost use Rattle.ls_emit.specs.Expressions.{size, code};
ghost use Rattle.ls_emit.specs.Statements.{places, statement_size, statements_size, exits_size, statement_code};
ghost use Rattle.ls_emit.specs.Statements.{statements_code, exits_code, statement_rows, statements_rows, exits_rows};
ghost use Rattle.ls_emit.specs.Ahead.{exit_count, exit_sizes, AreAhead, AreAheadOfBlock, AreAheadOfExits, left_by};
ghost use Rattle.ls_emit.specs.Ahead.{left_by_block, left_by_exits};
ghost use Rattle.ls_emit.specs.Alone.{IsAlone};
ghost use Rattle.ls_emit.specs.Targets.{targets_of};
ghost use Rattle.ls_emit.specs.Small.{IsSmall, IsSmallStatement, AreSmallStatements};

use crate::emission::{Emission, Stretch};
use crate::expressions::{emit_expression, emit_on, emit_on_three, emit_on_two, put};
use crate::layout::{Layout, lay_out};
use crate::targets::{Around, find_target};
use ls_code::code::HandlerRow;
use ls_code::instruction::Instruction;
use ls_lowered::tree::{Expression, Statement};
use std::alloc::AllocError;

/// Puts the code of a statement, which is at `at`, after the code that is there, and its handler rows after those that
/// are there. The only refusal is that memory ran out.
#[cycle(statements)]
#[tactic(auto, using(crate::proofs::Blocks::block_read))]
pub fn emit_statement(
    out: &mut Emission<'_>,
    around: &Around,
    at: Stretch,
    s: &Statement,
) -> Result<(), AllocError>
    requires ends { at.end ≡ at.place + statement_size (plain_statement s.now) }
    requires room { at.end ≤ most_instructions }
    requires small { IsSmallStatement (plain_statement s.now) }
    requires sized { AreAhead (plain_statement s.now) out.old.sizes.now }
    ensures code { OnOk result (out.new.instructions.items ≡ out.old.instructions.items ++
        statement_code (targets_of around.now) at.place (plain_statement s.now)) }
    ensures rows { OnOk result (out.new.rows.items ≡ out.old.rows.items ++ statement_rows at.place
        (plain_statement s.now)) }
    ensures left { OnOk result (out.new.sizes.now ≡ left_by (plain_statement s.now) out.old.sizes.now) }
{
    match s {
        Statement::Block(statements) => emit_block(out, &*around, at.place, statements),
        Statement::If(condition, first, second) => {
            emit_if(out, &*around, at, condition, first, second)
        }
        Statement::While(condition, body) => emit_while(out, &*around, at, condition, body),
        Statement::Guarded(body, number, handler) => {
            emit_guarded(out, &*around, at, body, *number as u32, handler)
        }
        Statement::Leavable(body, exits) => emit_leavable(out, &*around, at, body, exits),
        Statement::SetLocal(_, _)
        | Statement::SetField(_, _, _)
        | Statement::AddField(_, _, _)
        | Statement::SetItem(_, _, _)
        | Statement::Evaluate(_)
        | Statement::Return(_)
        | Statement::Try(_, _)
        | Statement::Throw(_)
        | Statement::Leave(_) => emit_alone(&mut out.instructions, around, at.place, s),
    }
}

// What is added to a field. While the field is read, its object is on the operands twice.
fn emit_addition(
    out: &mut Vec<Instruction>,
    place: usize,
    object: &Expression,
    field: u32,
    value: &Expression,
) -> Result<(), AllocError>
    requires room { place + size (plain object.now) + size (plain value.now) + 4 ≤ most_instructions }
    requires small { IsSmall (plain object.now) × IsSmall (plain value.now) }
    ensures { OnOk result (out.new.items ≡ out.old.items ++ (code place (plain object.now) ++ op.Dup ∷ op.GetField field
        ∷ code (place + size (plain object.now) + 2) (plain value.now) ++ op.Add ∷ op.PutField field ∷ [])) }
{
    let next = emit_expression(out, place, object)?;
    put(out, Instruction::Dup)?;
    put(out, Instruction::GetField(field))?;
    emit_expression(out, next + 2, value)?;
    put(out, Instruction::Add)?;
    put(out, Instruction::PutField(field))
}

// A statement without others in it. It is a function of its own, so that the frames of the recursion stay small.
#[tactic(auto, using(crate::proofs::Blocks::block_read))]
fn emit_alone(
    out: &mut Vec<Instruction>,
    around: &Around,
    place: usize,
    s: &Statement,
) -> Result<(), AllocError>
    requires alone { IsAlone (plain_statement s.now) }
    requires room { place + statement_size (plain_statement s.now) ≤ most_instructions }
    requires small { IsSmallStatement (plain_statement s.now) }
    ensures { OnOk result (out.new.items ≡ out.old.items ++ statement_code (targets_of around.now) place
        (plain_statement s.now)) }
{
    match s {
        Statement::SetLocal(number, e) => {
            emit_value(out, place, e, Instruction::Store(*number as u32))
        }
        Statement::SetField(object, field, value) => {
            emit_on_two(
                out,
                place,
                object,
                value,
                Instruction::PutField((*field + 1) as u32),
            )?;
            Ok(())
        }
        Statement::AddField(object, field, value) => {
            emit_addition(out, place, object, (*field + 1) as u32, value)
        }
        Statement::SetItem(array, index, value) => {
            emit_on_three(out, place, array, index, value, Instruction::PutItem)?;
            Ok(())
        }
        Statement::Evaluate(e) => emit_value(out, place, e, Instruction::Pop),
        Statement::Return(e) => emit_value(out, place, e, Instruction::LeaveWith),
        Statement::Throw(number) => emit_throw(out, *number as u32),
        Statement::Leave(number) => put(out, Instruction::Jump(find_target(around, *number))),
        Statement::Try(_, _) => Ok(()),
        Statement::Block(_)
        | Statement::If(_, _, _)
        | Statement::While(_, _)
        | Statement::Guarded(_, _, _)
        | Statement::Leavable(_, _) => Ok(()),
    }
}

// An expression and an instruction on its word.
fn emit_value(
    out: &mut Vec<Instruction>,
    place: usize,
    e: &Expression,
    instruction: Instruction,
) -> Result<(), AllocError>
    requires room { place + size (plain e.now) + 1 ≤ most_instructions }
    requires small { IsSmall (plain e.now) }
    ensures { OnOk result (out.new.items ≡ out.old.items ++ (code place (plain e.now) ++ instruction ∷ [])) }
{
    emit_on(out, place, e, instruction)?;
    Ok(())
}

fn emit_throw(out: &mut Vec<Instruction>, number: u32) -> Result<(), AllocError>
    ensures { OnOk result (out.new.items ≡ out.old.items ++ op.Load number ∷ op.Throw ∷ []) }
{
    put(out, Instruction::Load(number))?;
    put(out, Instruction::Throw)
}

#[cycle(statements)]
fn emit_block(
    out: &mut Emission<'_>,
    around: &Around,
    place: usize,
    statements: &[Statement],
) -> Result<(), AllocError>
    requires room { place + statements_size (statements_of statements.now) ≤ most_instructions }
    requires small { AreSmallStatements (statements_of statements.now) }
    requires sized { AreAheadOfBlock (statements_of statements.now) out.old.sizes.now }
    ensures code { OnOk result (out.new.instructions.items ≡ out.old.instructions.items ++
        statements_code (targets_of around.now) place (statements_of statements.now)) }
    ensures rows { OnOk result (out.new.rows.items ≡ out.old.rows.items ++
        statements_rows place (statements_of statements.now)) }
    ensures left { OnOk result (out.new.sizes.now ≡ left_by_block (statements_of statements.now) out.old.sizes.now) }
{
    let mut next = place;
    for s in statements {
        let end = next + out.take_size();
        emit_statement(out, &*around, Stretch::new(next, end), s)?;
        next = end;
    }
    Ok(())
}

#[cycle(statements)]
fn emit_if(
    out: &mut Emission<'_>,
    around: &Around,
    at: Stretch,
    condition: &Expression,
    first: &Statement,
    second: &Statement,
) -> Result<(), AllocError>
    requires ends { at.end ≡ at.place + (size (plain condition.now) + statement_size (plain_statement first.now) +
        statement_size (plain_statement second.now) + 2) }
    requires room { at.end ≤ most_instructions }
    requires small { IsSmall (plain condition.now) × IsSmallStatement (plain_statement first.now) ×
        IsSmallStatement (plain_statement second.now) }
    requires sized { AreAhead (If (plain condition.now) (plain_statement first.now) (plain_statement second.now))
        out.old.sizes.now }
    ensures code { OnOk result (out.new.instructions.items ≡ out.old.instructions.items ++
        statement_code (targets_of around.now) at.place (If (plain condition.now) (plain_statement first.now)
        (plain_statement second.now))) }
    ensures rows { OnOk result (out.new.rows.items ≡ out.old.rows.items ++ statement_rows at.place
        (If (plain condition.now) (plain_statement first.now) (plain_statement second.now))) }
    ensures left { OnOk result (out.new.sizes.now ≡ left_by (If (plain condition.now) (plain_statement first.now)
        (plain_statement second.now)) out.old.sizes.now) }
{
    let other = at.end - out.take_size();
    let next = emit_expression(&mut out.instructions, at.place, condition)?;
    put(
        &mut out.instructions,
        Instruction::JumpIfFalse(other as u32),
    )?;
    emit_statement(out, &*around, Stretch::new(next + 1, other - 1), first)?;
    put(&mut out.instructions, Instruction::Jump(at.end as u32))?;
    emit_statement(out, &*around, Stretch::new(other, at.end), second)
}

#[cycle(statements)]
fn emit_while(
    out: &mut Emission<'_>,
    around: &Around,
    at: Stretch,
    condition: &Expression,
    body: &Statement,
) -> Result<(), AllocError>
    requires ends { at.end ≡ at.place + (size (plain condition.now) + statement_size (plain_statement body.now) + 2) }
    requires room { at.end ≤ most_instructions }
    requires small { IsSmall (plain condition.now) × IsSmallStatement (plain_statement body.now) }
    requires sized { AreAhead (plain_statement body.now) out.old.sizes.now }
    ensures code { OnOk result (out.new.instructions.items ≡ out.old.instructions.items ++
        statement_code (targets_of around.now) at.place (While (plain condition.now) (plain_statement body.now))) }
    ensures rows { OnOk result (out.new.rows.items ≡ out.old.rows.items ++ statement_rows at.place
        (While (plain condition.now) (plain_statement body.now))) }
    ensures left { OnOk result (out.new.sizes.now ≡ left_by (plain_statement body.now) out.old.sizes.now) }
{
    let next = emit_expression(&mut out.instructions, at.place, condition)?;
    put(
        &mut out.instructions,
        Instruction::JumpIfFalse(at.end as u32),
    )?;
    emit_statement(out, &*around, Stretch::new(next + 1, at.end - 1), body)?;
    put(&mut out.instructions, Instruction::Turn(at.place as u32))
}

// A throw from the body goes on after the jump over the handler.
#[cycle(statements)]
fn emit_guarded(
    out: &mut Emission<'_>,
    around: &Around,
    at: Stretch,
    body: &Statement,
    number: u32,
    handler: &Statement,
) -> Result<(), AllocError>
    requires ends { at.end ≡ at.place + (statement_size (plain_statement body.now) + statement_size
        (plain_statement handler.now) + 2) }
    requires room { at.end ≤ most_instructions }
    requires small { IsSmallStatement (plain_statement body.now) × IsSmallStatement (plain_statement handler.now) }
    requires sized { AreAhead (Guarded (plain_statement body.now) number (plain_statement handler.now))
        out.old.sizes.now }
    ensures code { OnOk result (out.new.instructions.items ≡ out.old.instructions.items ++
        statement_code (targets_of around.now) at.place (Guarded (plain_statement body.now) number
        (plain_statement handler.now))) }
    ensures rows { OnOk result (out.new.rows.items ≡ out.old.rows.items ++ statement_rows at.place
        (Guarded (plain_statement body.now) number (plain_statement handler.now))) }
    ensures left { OnOk result (out.new.sizes.now ≡
        left_by (Guarded (plain_statement body.now) number (plain_statement handler.now)) out.old.sizes.now) }
{
    let after = at.end - out.take_size();
    emit_statement(out, &*around, Stretch::new(at.place, after - 2), body)?;
    put(&mut out.instructions, Instruction::Jump(at.end as u32))?;
    out.rows.push(HandlerRow {
        from: at.place,
        to: after - 2,
        handler: after - 1,
        depth: 0,
    })?;
    put(&mut out.instructions, Instruction::Store(number))?;
    emit_statement(out, &*around, Stretch::new(after, at.end), handler)
}

// Where the exits of a leavable statement are that ends at `end`, and how many instructions each has.
#[tactic(auto, using(crate::proofs::ExitPlaces::room_is, crate::proofs::ExitPlaces::places_are, crate::proofs::ExitPlaces::sizes_are, crate::proofs::ExitPlaces::count_is))]
fn place_exits<'a>(
    out: &mut Emission<'a>,
    end: usize,
    exits: &[Statement],
) -> Result<(Layout, &'a [usize]), AllocError>
    requires room { exits_size (statements_of exits.now) ≤ end }
    requires few { end ≤ most_instructions }
    requires count { exit_count (statements_of exits.now) ≤ length out.old.sizes.now }
    requires sized { take (exit_count (statements_of exits.now)) out.old.sizes.now ≡
        exit_sizes (statements_of exits.now) }
    ensures place { IfOk result (λ p. p.0.place + exits_size (statements_of exits.now) ≡ end) }
    ensures begins { IfOk result (λ p. p.0.begins.items ++ end ∷ [] ≡ places p.0.place (statements_of exits.now)) }
    ensures sizes { IfOk result (λ p. p.1.now ≡ map (λ s. statement_size (plain_statement s)) exits.now) }
    ensures left { out.new.sizes.now ≡ drop (exit_count (statements_of exits.now)) out.old.sizes.now }
    ensures code { out.new.instructions ≡ out.old.instructions }
    ensures rows { out.new.rows ≡ out.old.rows }
{
    let sizes = out.take_sizes(exits.len());
    let layout = lay_out(out.alloc, end, sizes)?;
    Ok((layout, sizes))
}

// The exits come after the body.
#[cycle(statements)]
fn emit_leavable(
    out: &mut Emission<'_>,
    around: &Around,
    at: Stretch,
    body: &Statement,
    exits: &[Statement],
) -> Result<(), AllocError>
    requires ends { at.end ≡ at.place + (statement_size (plain_statement body.now) + exits_size
        (statements_of exits.now)) }
    requires room { at.end ≤ most_instructions }
    requires small { IsSmallStatement (plain_statement body.now) × AreSmallStatements (statements_of exits.now) }
    requires sized { AreAhead (Leavable (plain_statement body.now) (statements_of exits.now)) out.old.sizes.now }
    ensures code { OnOk result (out.new.instructions.items ≡ out.old.instructions.items ++
        statement_code (targets_of around.now) at.place (Leavable (plain_statement body.now)
        (statements_of exits.now))) }
    ensures rows { OnOk result (out.new.rows.items ≡ out.old.rows.items ++ statement_rows at.place
        (Leavable (plain_statement body.now) (statements_of exits.now))) }
    ensures left { OnOk result (out.new.sizes.now ≡
        left_by (Leavable (plain_statement body.now) (statements_of exits.now)) out.old.sizes.now) }
{
    let (layout, sizes) = place_exits(out, at.end, exits)?;
    let inner = Around::Leavable(&layout.begins, at.end as u32, &*around);
    emit_statement(out, &inner, Stretch::new(at.place, layout.place), body)?;
    emit_exits(
        out,
        &*around,
        Stretch::new(layout.place, at.end),
        exits,
        sizes,
    )
}

// Each exit comes after a jump. That jump leads past all exits.
#[cycle(statements)]
fn emit_exits(
    out: &mut Emission<'_>,
    around: &Around,
    at: Stretch,
    exits: &[Statement],
    sizes: &[usize],
) -> Result<(), AllocError>
    requires ends { at.end ≡ at.place + exits_size (statements_of exits.now) }
    requires room { at.end ≤ most_instructions }
    requires sizes { sizes.now ≡ map (λ s. statement_size (plain_statement s)) exits.now }
    requires small { AreSmallStatements (statements_of exits.now) }
    requires sized { AreAheadOfExits (statements_of exits.now) out.old.sizes.now }
    ensures code { OnOk result (out.new.instructions.items ≡ out.old.instructions.items ++
        exits_code (targets_of around.now) at.end at.place (statements_of exits.now)) }
    ensures rows { OnOk result (out.new.rows.items ≡ out.old.rows.items ++
        exits_rows at.place (statements_of exits.now)) }
    ensures left { OnOk result (out.new.sizes.now ≡ left_by_exits (statements_of exits.now) out.old.sizes.now) }
{
    let mut next = at.place;
    let mut number = 0;
    for x in exits {
        put(&mut out.instructions, Instruction::Jump(at.end as u32))?;
        let stop = next + 1 + sizes[number];
        emit_statement(out, &*around, Stretch::new(next + 1, stop), x)?;
        next = stop;
        number += 1;
    }
    Ok(())
}
