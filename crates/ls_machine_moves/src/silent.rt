// The silent instructions of one frame. Their answer fits into two bytes: a larger one would cost half of the speed.

ghost use Rattle.std.specs.Prelude.{◌≡◌, ℕ, ◌+◌, ◌<◌, ◌≤◌, ◌^◌, ◌/◌, ◌%◌, slice_get, IfSome, Some};
ghost use Rattle.ls_code.specs.Words.{sum_word, difference_word, product_word, quotient_word, remainder_word};
ghost use Rattle.ls_code.specs.Words.{negative_word, less_word, at_most_word, same_word, not_word, other_word};
ghost use Rattle.ls_code.specs.Words.{pair_word};
ghost use Rattle.ls_code.specs.Moves.{frame_move, load_move, store_move, jump_move};
ghost use Rattle.ls_machine_moves.specs.Flows.{IsQuick, LeavesOthers};
ghost use Rattle.ls_machine_moves.specs.Frames.{keeping};
ghost use Rattle.ls_machine_moves.specs.Gliding.{glided};

use crate::flow::Quick;
use crate::frame::Frame;
use crate::words;
use ls_code::instruction::Instruction;
use ls_events::kind::Kind;

#[inline(always)]
fn load(frame: &mut Frame, number: u32) -> Quick
    requires { frame.old.frame.counter + 1 < 2 ^ 64 }
    ensures quick { IsQuick result (load_move number frame.old.frame) frame.old frame.new }
    ensures decided { (i : Instruction) → LeavesOthers i result }
{
    if !frame.has_room() {
        return Quick::Stuck;
    }
    match frame.local(number as usize) {
        None => Quick::Stuck,
        Some(word) => {
            frame.push(word);
            Quick::Next
        }
    }
}

#[inline(always)]
fn store(frame: &mut Frame, number: u32) -> Quick
    requires { frame.old.frame.counter + 1 < 2 ^ 64 }
    ensures quick { IsQuick result (store_move number frame.old.frame) frame.old frame.new }
    ensures decided { (i : Instruction) → LeavesOthers i result }
{
    match frame.one() {
        None => Quick::Stuck,
        Some(word) => {
            if frame.store(number as usize, word) {
                Quick::Next
            } else {
                Quick::Stuck
            }
        }
    }
}

#[inline(always)]
fn jump(frame: &mut Frame, at: u64, place: u32) -> Quick
    requires { frame.old.frame.counter + 1 < 2 ^ 64 }
    ensures quick { IsQuick result (jump_move at place frame.old.frame) frame.old frame.new }
    ensures decided { (i : Instruction) → LeavesOthers i result }
{
    match frame.one() {
        None => Quick::Stuck,
        Some(word) => {
            if word == at {
                frame.lead(1, place as usize);
            } else {
                frame.discard(1);
            }
            Quick::Next
        }
    }
}

macro_rules! unary {
    ($frame:ident, $a:ident => $value:expr) => {
        match $frame.one() {
            None => Quick::Stuck,
            Some($a) => {
                $frame.settle(1, $value);
                Quick::Next
            }
        }
    };
}

macro_rules! binary {
    ($frame:ident, $a:ident, $b:ident => $value:expr) => {
        match $frame.two() {
            None => Quick::Stuck,
            Some(($a, $b)) => {
                $frame.settle(2, $value);
                Quick::Next
            }
        }
    };
}

macro_rules! dividing {
    ($frame:ident, $a:ident, $b:ident => $value:expr) => {
        match $frame.two() {
            None => Quick::Stuck,
            Some(($a, $b)) => {
                if $b % 0x1_0000_0000 == 0 {
                    Quick::Throws(Kind::Arithmetic)
                } else {
                    $frame.settle(2, $value);
                    Quick::Next
                }
            }
        }
    };
}

#[inline(always)]
fn push(frame: &mut Frame, number: u32) -> Quick
    requires { frame.old.frame.counter + 1 < 2 ^ 64 }
    ensures quick { IsQuick result (frame_move (Instruction.Push number) frame.old.frame) frame.old frame.new }
    ensures decided { (i : Instruction) → LeavesOthers i result }
{
    if !frame.has_room() {
        return Quick::Stuck;
    }
    frame.push(number as u64);
    Quick::Next
}

#[inline(always)]
fn duplicate(frame: &mut Frame) -> Quick
    requires { frame.old.frame.counter + 1 < 2 ^ 64 }
    ensures quick { IsQuick result (frame_move Instruction.Dup frame.old.frame) frame.old frame.new }
    ensures decided { (i : Instruction) → LeavesOthers i result }
{
    if !frame.has_room() {
        return Quick::Stuck;
    }
    match frame.one() {
        None => Quick::Stuck,
        Some(a) => {
            frame.push(a);
            Quick::Next
        }
    }
}

/// What a silent instruction does to its frame; the others it leaves for `acting`.
#[inline(always)]
pub fn quick(frame: &mut Frame, instruction: Instruction) -> Quick
    requires { frame.old.frame.counter + 1 < 2 ^ 64 }
    ensures quick { IsQuick result (frame_move instruction frame.old.frame) frame.old frame.new }
    ensures others { LeavesOthers instruction result }
{
    match instruction {
        Instruction::Push(x) => push(frame, x),
        Instruction::Load(x) => load(frame, x),
        Instruction::Store(x) => store(frame, x),
        Instruction::Pop => match frame.one() {
            None => Quick::Stuck,
            Some(_) => {
                frame.discard(1);
                Quick::Next
            }
        },
        Instruction::Dup => duplicate(frame),
        Instruction::Add => binary!(frame, a, b => words::sum(a, b)),
        Instruction::Sub => binary!(frame, a, b => words::difference(a, b)),
        Instruction::Mul => binary!(frame, a, b => words::product(a, b)),
        Instruction::Div => dividing!(frame, a, b => words::quotient(a, b)),
        Instruction::Remainder => dividing!(frame, a, b => words::remainder(a, b)),
        Instruction::Neg => unary!(frame, a => words::negative(a)),
        Instruction::Lt => binary!(frame, a, b => words::less(a, b)),
        Instruction::Le => binary!(frame, a, b => words::at_most(a, b)),
        Instruction::Gt => binary!(frame, a, b => words::less(b, a)),
        Instruction::Ge => binary!(frame, a, b => words::at_most(b, a)),
        Instruction::Eq => binary!(frame, a, b => words::same(a, b)),
        Instruction::Ne => binary!(frame, a, b => words::other(a, b)),
        Instruction::Not => unary!(frame, a => words::negation(a)),
        Instruction::Jump(x) => {
            frame.lead(0, x as usize);
            Quick::Next
        }
        Instruction::JumpIfFalse(x) => jump(frame, 0, x),
        Instruction::JumpIfTrue(x) => jump(frame, 1, x),
        Instruction::ReferenceOf => unary!(frame, a => a / 2),
        Instruction::MarkOf => unary!(frame, a => a % 2),
        Instruction::Pack => binary!(frame, a, b => words::pair(a, b)),
        Instruction::Halt
        | Instruction::Turn(_)
        | Instruction::GetField(_)
        | Instruction::PutField(_)
        | Instruction::GetItem
        | Instruction::PutItem
        | Instruction::GetName(_)
        | Instruction::PutName(_)
        | Instruction::NewObject(_)
        | Instruction::NewLock
        | Instruction::NewMarkable
        | Instruction::NewArray
        | Instruction::Lock
        | Instruction::Unlock
        | Instruction::TryLock
        | Instruction::IsHeld
        | Instruction::See(_)
        | Instruction::Take(_)
        | Instruction::DropLock(_)
        | Instruction::ReadPair
        | Instruction::SetPair
        | Instruction::SwapPair
        | Instruction::AttemptMark
        | Instruction::Enter(_)
        | Instruction::Leave
        | Instruction::LeaveWith
        | Instruction::Throw
        | Instruction::Call(_)
        | Instruction::Result(_)
        | Instruction::Trap => Quick::Other,
    }
}

/// Does silent instructions, so many at most, up to the first that isn't silent, throws or is stuck. Answers how many.
pub fn glide(frame: &mut Frame, instructions: &[Instruction], most: usize) -> usize
    ensures few { result ≤ most }
    ensures glided { glided instructions.now result frame.old.frame ≡ Some frame.new.frame }
    ensures memory { frame.new ≡ keeping frame.old frame.new.frame }
{
    for done in 0..most {
        let Some(instruction) = fetch(instructions, frame.counter()) else {
            return done;
        };
        match quick(frame, instruction) {
            Quick::Next => {}
            _ => return done,
        }
    }
    most
}

/// The instruction at a place.
#[inline(always)]
pub fn fetch(instructions: &[Instruction], place: usize) -> Option<Instruction>
    ensures value { result ≡ slice_get instructions.now place }
    ensures within { IfSome result (λ _. place + 1 < 2 ^ 64) }
{
    instructions.get(place).copied()
}
