// The code of one operation on a lock.

ghost use Rattle.std.specs.Prelude.{◌≡◌, ◌<◌, ◌≤◌, ◌^◌, ◌++◌, OnOk};
ghost use Rattle.ls_emit.specs.LockCode.{leaving_code, lock_code, lock_size as size_of_lock, waiting_code};

use ls_code::instruction::Instruction;
use ls_lowered::tree::LockOperation;
use std::alloc::AllocError;

/// How many instructions the code of an operation of a lock has.
pub fn lock_size(operation: LockOperation) -> usize
    ensures size { result ≡ size_of_lock operation }
    ensures few { result ≤ 5 }
{
    match operation {
        LockOperation::Lock => 5,
        LockOperation::Unlock => 3,
        LockOperation::TryLock => 4,
        LockOperation::IsHeld => 1,
        LockOperation::LockMonitor => 5,
        LockOperation::UnlockMonitor => 3,
    }
}

// Puts the code of an operation that waits until it has the lock after the code that is there.
fn push_waiting(code: &mut Vec<Instruction>, place: usize, which: u32) -> Result<(), AllocError>
    requires { place < 2 ^ 32 }
    ensures { OnOk result (code.new.items ≡ code.old.items ++ waiting_code place which) }
{
    code.push(Instruction::See(which))?;
    code.push(Instruction::Take(which))?;
    code.push(Instruction::JumpIfFalse(place as u32))?;
    code.push(Instruction::Pop)?;
    code.push(Instruction::Push(0))?;
    Ok(())
}

// Puts the code of an unlock after the code that is there.
fn push_leaving(code: &mut Vec<Instruction>, seen: u32, dropped: u32) -> Result<(), AllocError>
    ensures { OnOk result (code.new.items ≡ code.old.items ++ leaving_code seen dropped) }
{
    code.push(Instruction::See(seen))?;
    code.push(Instruction::DropLock(dropped))?;
    code.push(Instruction::Push(0))?;
    Ok(())
}

/// Puts the code of an operation after the code that is there. `place` is the place of its first instruction. The only
/// refusal is that memory ran out.
pub fn lower_lock(
    code: &mut Vec<Instruction>,
    place: usize,
    operation: LockOperation,
) -> Result<(), AllocError>
    requires { place < 2 ^ 32 }
    ensures { OnOk result (code.new.items ≡ code.old.items ++ lock_code place operation) }
{
    match operation {
        LockOperation::Lock => push_waiting(code, place, 1)?,
        LockOperation::Unlock => push_leaving(code, 3, 0)?,
        LockOperation::TryLock => {
            code.push(Instruction::See(2))?;
            code.push(Instruction::Take(2))?;
            code.push(Instruction::Pack)?;
            code.push(Instruction::MarkOf)?;
        }
        LockOperation::IsHeld => code.push(Instruction::IsHeld)?,
        LockOperation::LockMonitor => push_waiting(code, place, 4)?,
        LockOperation::UnlockMonitor => push_leaving(code, 5, 1)?,
    }
    Ok(())
}
