// The other instructions of one frame: what they ask for, and how the frame goes on with the answer.

ghost use Rattle.std.specs.Prelude.{◌≡◌, ℕ, ◌+◌, ◌<◌, ◌^◌, false};
ghost use Rattle.ls_code.specs.Moves.{frame_move, resumed};
ghost use Rattle.ls_machine_moves.specs.Flows.{IsFlow, IsReady, CanResume, is_silent};
ghost use Rattle.ls_machine_moves.specs.Frames.{keeping};

use crate::flow::Flow;
use crate::frame::Frame;
use crate::words;
use ls_code::instruction::{Instruction, Resume, ThreadInstruction};
use ls_events::action::Action;
use ls_events::kind::Kind;

macro_rules! at_one {
    ($frame:ident, $a:ident => $action:expr, $resume:expr) => {
        match $frame.one() {
            None => Flow::Stuck,
            Some($a) => {
                if $a == 0 {
                    Flow::Throws(Kind::NullPointer)
                } else {
                    Flow::Asks($action, $resume)
                }
            }
        }
    };
}

macro_rules! at_two {
    ($frame:ident, $a:ident, $b:ident => $action:expr, $resume:expr) => {
        match $frame.two() {
            None => Flow::Stuck,
            Some(($a, $b)) => {
                if $a == 0 {
                    Flow::Throws(Kind::NullPointer)
                } else {
                    Flow::Asks($action, $resume)
                }
            }
        }
    };
}

macro_rules! at_three {
    ($frame:ident, $a:ident, $b:ident, $c:ident => $action:expr, $resume:expr) => {
        match $frame.three() {
            None => Flow::Stuck,
            Some(($a, $b, $c)) => {
                if $a == 0 {
                    Flow::Throws(Kind::NullPointer)
                } else {
                    Flow::Asks($action, $resume)
                }
            }
        }
    };
}

macro_rules! with_room {
    ($frame:ident => $flow:expr) => {
        if $frame.has_room() { $flow } else { Flow::Stuck }
    };
}

/// What an instruction that isn't silent asks for.
#[inline]
pub fn advance(frame: &Frame, instruction: Instruction) -> Flow
    requires { is_silent instruction ≡ false }
    ensures flow { IsFlow result (frame_move instruction frame.now.frame) }
    ensures ready { IsReady result frame.now.frame }
{
    match instruction {
        Instruction::Turn(x) => Flow::Asks(Action::Turn, Resume::Lead(x as usize)),
        Instruction::GetField(x) =>
            at_one!(frame, a => Action::ReadField { object: a, field: x as usize }, Resume::Settle(1)),
        Instruction::PutField(x) =>
            at_two!(frame, a, v => Action::WriteField { object: a, field: x as usize, value: v }, Resume::Discard(2)),
        Instruction::GetItem =>
            at_two!(frame, a, i => Action::ReadItem { array: a, index: words::int_of(i) }, Resume::Settle(2)),
        Instruction::PutItem =>
            at_three!(frame, a, i, v => Action::WriteItem { array: a, index: words::int_of(i), value: v },
            Resume::Discard(3)),
        Instruction::GetName(x) =>
            with_room!(frame => Flow::Asks(Action::ReadName(x as usize), Resume::Push)),
        Instruction::PutName(x) => match frame.one() {
            None => Flow::Stuck,
            Some(v) => Flow::Asks(Action::WriteName(x as usize, v), Resume::Discard(1)),
        },
        Instruction::NewObject(x) =>
            with_room!(frame => Flow::Asks(Action::New(x as usize), Resume::Push)),
        Instruction::NewLock => with_room!(frame => Flow::Asks(Action::NewLock, Resume::Push)),
        Instruction::NewMarkable => match frame.one() {
            None => Flow::Stuck,
            Some(w) => Flow::Asks(Action::NewMarkable(w), Resume::Settle(1)),
        },
        Instruction::NewArray => new_array(frame),
        Instruction::Lock => at_one!(frame, a => Action::Lock(a), Resume::Discard(1)),
        Instruction::Unlock => at_one!(frame, a => Action::Unlock(a), Resume::Discard(1)),
        Instruction::TryLock => at_one!(frame, a => Action::TryLock(a), Resume::Settle(1)),
        Instruction::IsHeld => at_one!(frame, a => Action::IsHeld(a), Resume::Settle(1)),
        Instruction::ReadPair => at_one!(frame, a => Action::ReadPair(a), Resume::Settle(1)),
        Instruction::SetPair => at_two!(frame, a, w => Action::SetPair(a, w), Resume::Discard(2)),
        Instruction::SwapPair =>
            at_three!(frame, a, e, n => Action::SwapPair { markable: a, expected: e, new: n }, Resume::Settle(3)),
        Instruction::AttemptMark =>
            at_three!(frame, a, r, m => Action::AttemptMark { markable: a, reference: r, mark: words::bool_of(m) },
            Resume::Settle(3)),
        Instruction::Halt => Flow::Beyond(ThreadInstruction::Halt),
        Instruction::See(p) => Flow::Beyond(ThreadInstruction::See(p)),
        Instruction::Take(p) => Flow::Beyond(ThreadInstruction::Take(p)),
        Instruction::DropLock(x) => Flow::Beyond(ThreadInstruction::DropLock(x)),
        Instruction::Enter(x) => Flow::Beyond(ThreadInstruction::Enter(x)),
        Instruction::Leave => Flow::Beyond(ThreadInstruction::Leave),
        Instruction::LeaveWith => Flow::Beyond(ThreadInstruction::LeaveWith),
        Instruction::Throw => Flow::Beyond(ThreadInstruction::Throw),
        Instruction::Call(x) => Flow::Beyond(ThreadInstruction::Call(x)),
        Instruction::Result(x) => Flow::Beyond(ThreadInstruction::Result(x)),
        Instruction::Trap => Flow::Beyond(ThreadInstruction::Trap),
        Instruction::Push(_)
        | Instruction::Load(_)
        | Instruction::Store(_)
        | Instruction::Pop
        | Instruction::Dup
        | Instruction::Add
        | Instruction::Sub
        | Instruction::Mul
        | Instruction::Div
        | Instruction::Remainder
        | Instruction::Neg
        | Instruction::Lt
        | Instruction::Le
        | Instruction::Gt
        | Instruction::Ge
        | Instruction::Eq
        | Instruction::Ne
        | Instruction::Not
        | Instruction::Jump(_)
        | Instruction::JumpIfFalse(_)
        | Instruction::JumpIfTrue(_)
        | Instruction::ReferenceOf
        | Instruction::MarkOf
        | Instruction::Pack => unreachable!(),
    }
}

/// What the making of an array asks for.
fn new_array(frame: &Frame) -> Flow
    ensures flow { IsFlow result (frame_move Instruction.NewArray frame.now.frame) }
    ensures ready { IsReady result frame.now.frame }
{
    match frame.one() {
        None => Flow::Stuck,
        Some(word) => {
            let count = words::int_of(word);
            if count < 0 {
                Flow::Throws(Kind::NegativeArraySize)
            } else {
                Flow::Asks(Action::NewArray(count), Resume::Settle(1))
            }
        }
    }
}

/// Goes on with what the cells answered.
#[inline(always)]
pub fn resume(frame: &mut Frame, how: Resume, word: u64)
    requires place { frame.old.frame.counter + 1 < 2 ^ 64 }
    requires ready { CanResume how frame.old.frame }
    ensures { frame.new ≡ keeping frame.old (resumed how frame.old.frame word) }
{
    match how {
        Resume::Push => frame.push(word),
        Resume::Settle(n) => frame.settle(n, word),
        Resume::Discard(n) => frame.discard(n),
        Resume::Lead(x) => frame.lead(0, x),
    }
}
