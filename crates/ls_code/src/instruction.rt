// The machine's instructions, and their words.

ghost use Rattle.std.specs.Prelude.{◌≡◌, ◌<◌, ◌^◌, Some};
ghost use Rattle.ls_code.specs.Instructions.{table as table_of, decoded, encoded, opcode_of, operand_of};

use std::alloc::AllocError;

/// One instruction with its operand. A jump's operand is a place in the code, counted from 0.
#[derive(Copy)]
pub enum Instruction {
    Halt,
    Push(u32),
    Load(u32),
    Store(u32),
    Pop,
    Dup,
    Add,
    Sub,
    Mul,
    Div,
    Remainder,
    Neg,
    Lt,
    Le,
    Gt,
    Ge,
    Eq,
    Ne,
    Not,
    Jump(u32),
    JumpIfFalse(u32),
    JumpIfTrue(u32),
    Turn(u32),
    GetField(u32),
    PutField(u32),
    GetItem,
    PutItem,
    GetName(u32),
    PutName(u32),
    NewObject(u32),
    NewLock,
    NewMarkable,
    NewArray,
    Lock,
    Unlock,
    TryLock,
    IsHeld,
    See(u32),
    Take(u32),
    DropLock(u32),
    ReadPair,
    ReferenceOf,
    MarkOf,
    Pack,
    SetPair,
    SwapPair,
    AttemptMark,
    Enter(u32),
    Leave,
    LeaveWith,
    Throw,
    Call(u32),
    Result(u32),
    Trap,
}

impl Clone for Instruction {
    fn clone(&self) -> Result<Instruction, AllocError> {
        Ok(*self)
    }
}

impl Instruction {
    /// The code word: the opcode in bits 0 to 7, the operand in bits 8 to 39, the rest 0.
    pub fn word(self) -> u64
        ensures word { result ≡ encoded self }
        ensures decodes { decoded result ≡ Some self }
    {
        self.opcode() as u64 + 0x100 * self.operand() as u64
    }

    fn opcode(self) -> u8
        ensures { result ≡ opcode_of self }
    {
        match self {
            Instruction::Halt => 0,
            Instruction::Push(_) => 1,
            Instruction::Load(_) => 2,
            Instruction::Store(_) => 3,
            Instruction::Pop => 4,
            Instruction::Dup => 5,
            Instruction::Add => 6,
            Instruction::Sub => 7,
            Instruction::Mul => 8,
            Instruction::Div => 9,
            Instruction::Remainder => 10,
            Instruction::Neg => 11,
            Instruction::Lt => 12,
            Instruction::Le => 13,
            Instruction::Gt => 14,
            Instruction::Ge => 15,
            Instruction::Eq => 16,
            Instruction::Ne => 17,
            Instruction::Not => 18,
            Instruction::Jump(_) => 19,
            Instruction::JumpIfFalse(_) => 20,
            Instruction::JumpIfTrue(_) => 21,
            Instruction::Turn(_) => 22,
            Instruction::GetField(_) => 23,
            Instruction::PutField(_) => 24,
            Instruction::GetItem => 25,
            Instruction::PutItem => 26,
            Instruction::GetName(_) => 27,
            Instruction::PutName(_) => 28,
            Instruction::NewObject(_) => 29,
            Instruction::NewLock => 30,
            Instruction::NewMarkable => 31,
            Instruction::NewArray => 32,
            Instruction::Lock => 33,
            Instruction::Unlock => 34,
            Instruction::TryLock => 35,
            Instruction::IsHeld => 36,
            Instruction::See(_) => 37,
            Instruction::Take(_) => 38,
            Instruction::DropLock(_) => 39,
            Instruction::ReadPair => 40,
            Instruction::ReferenceOf => 41,
            Instruction::MarkOf => 42,
            Instruction::Pack => 43,
            Instruction::SetPair => 44,
            Instruction::SwapPair => 45,
            Instruction::AttemptMark => 46,
            Instruction::Enter(_) => 47,
            Instruction::Leave => 48,
            Instruction::LeaveWith => 49,
            Instruction::Throw => 50,
            Instruction::Call(_) => 51,
            Instruction::Result(_) => 52,
            Instruction::Trap => 53,
        }
    }

    fn operand(self) -> u32
        ensures operand { result ≡ operand_of self }
        ensures small { result < 2 ^ 32 }
    {
        match self {
            Instruction::Push(x) => x,
            Instruction::Load(x) => x,
            Instruction::Store(x) => x,
            Instruction::Jump(x) => x,
            Instruction::JumpIfFalse(x) => x,
            Instruction::JumpIfTrue(x) => x,
            Instruction::Turn(x) => x,
            Instruction::GetField(x) => x,
            Instruction::PutField(x) => x,
            Instruction::GetName(x) => x,
            Instruction::PutName(x) => x,
            Instruction::NewObject(x) => x,
            Instruction::See(x) => x,
            Instruction::Take(x) => x,
            Instruction::DropLock(x) => x,
            Instruction::Enter(x) => x,
            Instruction::Call(x) => x,
            Instruction::Result(x) => x,
            Instruction::Halt
            | Instruction::Pop
            | Instruction::Dup
            | Instruction::Add
            | Instruction::Sub
            | Instruction::Mul
            | Instruction::Div
            | Instruction::Remainder
            | Instruction::Neg
            | Instruction::Lt
            | Instruction::Le
            | Instruction::Gt
            | Instruction::Ge
            | Instruction::Eq
            | Instruction::Ne
            | Instruction::Not
            | Instruction::GetItem
            | Instruction::PutItem
            | Instruction::NewLock
            | Instruction::NewMarkable
            | Instruction::NewArray
            | Instruction::Lock
            | Instruction::Unlock
            | Instruction::TryLock
            | Instruction::IsHeld
            | Instruction::ReadPair
            | Instruction::ReferenceOf
            | Instruction::MarkOf
            | Instruction::Pack
            | Instruction::SetPair
            | Instruction::SwapPair
            | Instruction::AttemptMark
            | Instruction::Leave
            | Instruction::LeaveWith
            | Instruction::Throw
            | Instruction::Trap => 0,
        }
    }
}

/// The instructions that concern more than one frame, or a lock's word.
#[derive(Copy)]
pub enum ThreadInstruction {
    Halt,
    Enter(u32),
    Leave,
    LeaveWith,
    Throw,
    Call(u32),
    Result(u32),
    Trap,
    See(u32),
    Take(u32),
    DropLock(u32),
}

impl Clone for ThreadInstruction {
    fn clone(&self) -> Result<ThreadInstruction, AllocError> {
        Ok(*self)
    }
}

/// How a frame goes on with an answer. It pushes the answer, puts it in place of some operands, drops some operands,
/// or goes to another place.
#[derive(Copy)]
pub enum Resume {
    Push,
    Settle(usize),
    Discard(usize),
    Lead(usize),
}

impl Clone for Resume {
    fn clone(&self) -> Result<Resume, AllocError> {
        Ok(*self)
    }
}

/// The instructions with one operand, by their opcodes.
#[tactic(auto, unfolding(crate::specs::Instructions::table))]
fn table(x: u32) -> [Instruction; 54]
    ensures { result ≡ table_of x }
{
    [
        Instruction::Halt,
        Instruction::Push(x),
        Instruction::Load(x),
        Instruction::Store(x),
        Instruction::Pop,
        Instruction::Dup,
        Instruction::Add,
        Instruction::Sub,
        Instruction::Mul,
        Instruction::Div,
        Instruction::Remainder,
        Instruction::Neg,
        Instruction::Lt,
        Instruction::Le,
        Instruction::Gt,
        Instruction::Ge,
        Instruction::Eq,
        Instruction::Ne,
        Instruction::Not,
        Instruction::Jump(x),
        Instruction::JumpIfFalse(x),
        Instruction::JumpIfTrue(x),
        Instruction::Turn(x),
        Instruction::GetField(x),
        Instruction::PutField(x),
        Instruction::GetItem,
        Instruction::PutItem,
        Instruction::GetName(x),
        Instruction::PutName(x),
        Instruction::NewObject(x),
        Instruction::NewLock,
        Instruction::NewMarkable,
        Instruction::NewArray,
        Instruction::Lock,
        Instruction::Unlock,
        Instruction::TryLock,
        Instruction::IsHeld,
        Instruction::See(x),
        Instruction::Take(x),
        Instruction::DropLock(x),
        Instruction::ReadPair,
        Instruction::ReferenceOf,
        Instruction::MarkOf,
        Instruction::Pack,
        Instruction::SetPair,
        Instruction::SwapPair,
        Instruction::AttemptMark,
        Instruction::Enter(x),
        Instruction::Leave,
        Instruction::LeaveWith,
        Instruction::Throw,
        Instruction::Call(x),
        Instruction::Result(x),
        Instruction::Trap,
    ]
}

/// The instruction of a code word. Its opcode is in bits 0 to 7, its operand in bits 8 to 39, and the rest is 0. None
/// if the rest is not 0, or if no instruction has this opcode. If an instruction takes no operand, those bits may be
/// anything.
pub fn decode(word: u64) -> Option<Instruction>
    ensures { result ≡ decoded word }
{
    if word / 0x100_0000_0000 != 0 {
        return None;
    }
    let operand = (word / 0x100 % 0x1_0000_0000) as u32;
    table(operand).get((word % 0x100) as usize).copied()
}
