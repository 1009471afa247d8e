// One step of one thread.

ghost use Rattle.std.specs.Prelude.{◌≡◌, ℕ, ◌+◌, ◌*◌, ◌<◌, ◌≤◌, ◌^◌, length, slice_get, IfSome, IsTrue, Some, true};
ghost use Rattle.std.specs.Prelude.{false};
ghost use Rattle.ls_code.specs.Cells.{effect};
ghost use Rattle.ls_code.specs.Moves.{frame_move};
ghost use Rattle.ls_code.specs.Steps.{answered, settled, performed, thread_move, wide_move, enters_move, throw_move};
ghost use Rattle.ls_code.specs.Steps.{leaves_with_move, throws_move, begin_move, gives_move, result_move, trap_move};
ghost use Rattle.ls_code.specs.Steps.{of_frame};
ghost use Rattle.ls_machine_moves.specs.Flows.{CanResume, IsQuiet, is_silent};
ghost use Rattle.ls_machine_threads.specs.Memory.{MethodsFit, events_left};
ghost use Rattle.ls_machine.specs.Outcomes.{Came, IsSilentMove};
ghost use Rattle.ls_machine.specs.Takes.{IsUnseen, TakesEvents};
ghost use Rattle.ls_machine_threads.specs.Threads.{instruction_of};

use crate::exchanges::{drop_lock, see, take};
use ls_code::code::{CallResult, Code, Method};
use ls_code::instruction::{Instruction, Resume, ThreadInstruction};
use ls_code::step::Did;
use ls_events::action::{Action, Answer};
use ls_events::kind::Kind;
use ls_machine_moves::cells::Cells;
use ls_machine_moves::flow::{Flow, Quick, Reply};
use ls_machine_moves::words;
use ls_machine_threads::flow::{Acting, Entered};
use ls_machine_threads::thread::Thread;

/// The innermost frame asks the cells, and goes on with their answer.
#[inline]
fn ask(
    code: &Code,
    cells: &mut Cells,
    number: usize,
    thread: &mut Thread,
    action: Action<u64>,
    how: Resume,
) -> Did
    requires number { number ≤ 64 }
    requires place { thread.old.thread.top.counter + 1 < 2 ^ 64 }
    requires ready { CanResume how thread.old.thread.top }
    requires quiet { IsQuiet action }
    ensures came { Came (settled cells.old thread.old.thread action (answered code.now thread.old.thread how)
        (effect cells.old number action)) thread.old thread.new cells.new result }
    ensures events { TakesEvents code.now number result thread.old.thread thread.new.thread }
{
    match cells.perform(number, action) {
        Reply::Waits => Did::Waits,
        Reply::Stops => Did::Stopped,
        Reply::Unfit => Did::Silent,
        Reply::Answered(answer) => match answer {
            Answer::Done => {
                thread.resume(how, 0);
                Did::Acted(action, answer)
            }
            Answer::Gives(word) => {
                thread.resume(how, word);
                Did::Acted(action, answer)
            }
            Answer::Fails(kind) => {
                if thread.throw(code.handlers(), kind) {
                    Did::Acted(action, answer)
                } else {
                    Did::Silent
                }
            }
        },
    }
}

/// The thread throws, and drops frames up to the one that catches it.
#[inline(never)]
fn throw(code: &Code, cells: &mut Cells, number: usize, thread: &mut Thread, kind: Kind) -> Did
    ensures came { Came (performed cells.old number thread.old.thread (throw_move code.now thread.old.thread kind))
        thread.old thread.new cells.new result }
    ensures events { TakesEvents code.now number result thread.old.thread thread.new.thread }
    ensures unseen { IsUnseen result }
{
    let _ = thread.throw(code.handlers(), kind);
    Did::Silent
}

/// The method of a number.
#[inline(always)]
fn find_method(code: &Code, number: usize) -> Option<Method>
    ensures { result ≡ slice_get code.now.methods number }
{
    code.methods().get(number).copied()
}

/// The thread enters a method.
#[inline(always)]
fn enter(code: &Code, cells: &mut Cells, number: usize, thread: &mut Thread, method: u32) -> Did
    requires place { thread.old.thread.top.counter + 1 < 2 ^ 64 }
    requires fit { MethodsFit code.now.methods thread.old.locals_room thread.old.operands_room }
    ensures came { Came (performed cells.old number thread.old.thread (enters_move code.now thread.old.thread method))
        thread.old thread.new cells.new result }
    ensures events { TakesEvents code.now number result thread.old.thread thread.new.thread }
    ensures unseen { IsUnseen result }
{
    match find_method(code, method as usize) {
        None => Did::Silent,
        Some(called) => match thread.enter(&called) {
            Entered::Entered => Did::Acted(Action::Enter(method as usize), Answer::Done),
            Entered::Throws(kind) => throw(code, cells, number, thread, kind),
            Entered::Stuck => Did::Silent,
        },
    }
}

/// The thread leaves its frame with a value.
#[inline(always)]
fn leave_with(code: &Code, cells: &mut Cells, number: usize, thread: &mut Thread) -> Did
    ensures came { Came (performed cells.old number thread.old.thread (leaves_with_move thread.old.thread)) thread.old
        thread.new cells.new result }
    ensures events { TakesEvents code.now number result thread.old.thread thread.new.thread }
    ensures unseen { IsUnseen result }
{
    match thread.one() {
        None => Did::Silent,
        Some(word) => {
            let _ = thread.leave_with(word);
            Did::Silent
        }
    }
}

/// The thread throws a kind that it pops.
fn throw_popped(code: &Code, cells: &mut Cells, number: usize, thread: &mut Thread) -> Did
    ensures came { Came (performed cells.old number thread.old.thread (throws_move code.now thread.old.thread))
        thread.old thread.new cells.new result }
    ensures events { TakesEvents code.now number result thread.old.thread thread.new.thread }
{
    match thread.one() {
        None => Did::Silent,
        Some(word) => match words::kind_of(word) {
            None => Did::Silent,
            Some(kind) => throw(code, cells, number, thread, kind),
        },
    }
}

/// The call that is due begins.
fn begin(code: &Code, cells: &mut Cells, number: usize, thread: &mut Thread, call: u32) -> Did
    requires { thread.old.thread.top.counter + 1 < 2 ^ 64 }
    ensures came { Came (performed cells.old number thread.old.thread (begin_move thread.old.thread call)) thread.old
        thread.new cells.new result }
    ensures events { TakesEvents code.now number result thread.old.thread thread.new.thread }
{
    if !thread.is_due(call as usize) {
        return Did::Silent;
    }
    thread.begin_call();
    Did::Acted(Action::Call(call as usize), Answer::Done)
}

/// The pending call ends with a value.
fn give(code: &Code, cells: &mut Cells, number: usize, thread: &mut Thread, call: u32) -> Did
    requires place { thread.old.thread.top.counter + 1 < 2 ^ 64 }
    requires pending { thread.old.thread.pending ≡ true }
    requires some { thread.old.thread.ended < length thread.old.thread.calls }
    ensures came { Came (performed cells.old number thread.old.thread (gives_move thread.old.thread call)) thread.old
        thread.new cells.new result }
    ensures events { TakesEvents code.now number result thread.old.thread thread.new.thread }
{
    match thread.one() {
        None => Did::Silent,
        Some(word) => {
            thread.end_call(1);
            Did::Acted(Action::Return(call as usize, Some(word)), Answer::Done)
        }
    }
}

/// The pending call ends.
fn end(code: &Code, cells: &mut Cells, number: usize, thread: &mut Thread, call: u32) -> Did
    requires { thread.old.thread.top.counter + 1 < 2 ^ 64 }
    ensures came { Came (performed cells.old number thread.old.thread (result_move thread.old.thread call)) thread.old
        thread.new cells.new result }
    ensures events { TakesEvents code.now number result thread.old.thread thread.new.thread }
{
    if !thread.is_pending(call as usize) {
        return Did::Silent;
    }
    match thread.result() {
        None => Did::Silent,
        Some(CallResult::Int) => give(code, cells, number, thread, call),
        Some(CallResult::Boolean) => give(code, cells, number, thread, call),
        Some(CallResult::Nothing) => {
            thread.end_call(0);
            Did::Acted(Action::Return(call as usize, None), Answer::Done)
        }
    }
}

/// The pending call traps.
fn trap(code: &Code, cells: &mut Cells, number: usize, thread: &mut Thread) -> Did
    ensures came { Came (performed cells.old number thread.old.thread (trap_move thread.old.thread)) thread.old
        thread.new cells.new result }
    ensures events { TakesEvents code.now number result thread.old.thread thread.new.thread }
{
    if !thread.has_pending() {
        return Did::Silent;
    }
    match thread.one() {
        None => Did::Silent,
        Some(word) => match words::kind_of(word) {
            None => Did::Silent,
            Some(kind) => {
                let call = thread.call();
                thread.trap();
                Did::Acted(Action::Trap(call, kind), Answer::Done)
            }
        },
    }
}

/// An instruction that is about more than one frame and the cells.
fn beyond(
    code: &Code,
    cells: &mut Cells,
    number: usize,
    thread: &mut Thread,
    instruction: ThreadInstruction,
) -> Did
    requires number { number ≤ 64 }
    requires place { thread.old.thread.top.counter + 1 < 2 ^ 64 }
    requires fit { MethodsFit code.now.methods thread.old.locals_room thread.old.operands_room }
    ensures came { Came (performed cells.old number thread.old.thread (wide_move code.now thread.old.thread
        instruction)) thread.old thread.new cells.new result }
    ensures events { TakesEvents code.now number result thread.old.thread thread.new.thread }
{
    match instruction {
        ThreadInstruction::Halt => {
            thread.halt();
            Did::Silent
        }
        ThreadInstruction::Enter(x) => enter(code, cells, number, thread, x),
        ThreadInstruction::Leave => {
            let _ = thread.leave();
            Did::Silent
        }
        ThreadInstruction::LeaveWith => leave_with(code, cells, number, thread),
        ThreadInstruction::Throw => throw_popped(code, cells, number, thread),
        ThreadInstruction::Call(x) => begin(code, cells, number, thread, x),
        ThreadInstruction::Result(x) => end(code, cells, number, thread, x),
        ThreadInstruction::Trap => trap(code, cells, number, thread),
        ThreadInstruction::See(x) => see(code, cells, number, thread, x),
        ThreadInstruction::Take(x) => take(code, cells, number, thread, x),
        ThreadInstruction::DropLock(x) => drop_lock(code, cells, number, thread, x),
    }
}

/// The instruction at a place.
#[inline(always)]
fn fetch(code: &Code, place: usize) -> Option<Instruction>
    ensures value { result ≡ slice_get code.now.instructions place }
    ensures within { IfSome result (λ _. place + 1 < 2 ^ 64) }
{
    code.instructions().get(place).copied()
}

/// The thread reads a field of the object on top.
#[inline(always)]
fn read_field(code: &Code, cells: &mut Cells, number: usize, thread: &mut Thread, field: u32) -> Did
    requires place { thread.old.thread.top.counter + 1 < 2 ^ 64 }
    ensures came { Came (performed cells.old number thread.old.thread (of_frame code.now thread.old.thread
        (frame_move (Instruction.GetField field) thread.old.thread.top))) thread.old thread.new cells.new result }
    ensures events { TakesEvents code.now number result thread.old.thread thread.new.thread }
    ensures unseen { IsUnseen result }
{
    match thread.one() {
        None => Did::Silent,
        Some(object) => {
            if object == 0 {
                return throw(code, cells, number, thread, Kind::NullPointer);
            }
            match cells.get(object, field as usize) {
                None => Did::Silent,
                Some(word) => {
                    thread.resume(Resume::Settle(1), word);
                    Did::Acted(
                        Action::ReadField {
                            object,
                            field: field as usize,
                        },
                        Answer::Gives(word),
                    )
                }
            }
        }
    }
}

/// The thread writes a field of the object below the top.
#[inline(always)]
fn write_field(
    code: &Code,
    cells: &mut Cells,
    number: usize,
    thread: &mut Thread,
    field: u32,
) -> Did
    requires place { thread.old.thread.top.counter + 1 < 2 ^ 64 }
    ensures came { Came (performed cells.old number thread.old.thread (of_frame code.now thread.old.thread
        (frame_move (Instruction.PutField field) thread.old.thread.top))) thread.old thread.new cells.new result }
    ensures events { TakesEvents code.now number result thread.old.thread thread.new.thread }
    ensures unseen { IsUnseen result }
{
    match thread.two() {
        None => Did::Silent,
        Some((object, value)) => {
            if object == 0 {
                return throw(code, cells, number, thread, Kind::NullPointer);
            }
            match cells.write(object, field as usize, value, Answer::Done) {
                Reply::Answered(_) => {
                    thread.resume(Resume::Discard(2), 0);
                    Did::Acted(
                        Action::WriteField {
                            object,
                            field: field as usize,
                            value,
                        },
                        Answer::Done,
                    )
                }
                _ => Did::Silent,
            }
        }
    }
}

/// Does a silent instruction, or nothing where the thread is stuck; the others are left.
#[inline(always)]
pub fn move_silently(code: &Code, thread: &mut Thread) -> bool
    ensures silent { IsTrue result → IsSilentMove code.now thread.old thread.new }
    ensures events { events_left thread.new.thread ≤ events_left thread.old.thread }
    ensures left { result ≡ false → thread.new ≡ thread.old }
{
    match fetch(code, thread.counter()) {
        None => true,
        Some(Instruction::Leave) => {
            let _ = thread.leave();
            true
        }
        Some(instruction) => match thread.quick(instruction) {
            Quick::Next => true,
            Quick::Stuck => true,
            Quick::Throws(_) => false,
            Quick::Other => false,
        },
    }
}

/// What `act` is to do, where the thread stands at such an instruction.
#[inline(always)]
pub fn find_acting(code: &Code, thread: &Thread) -> Option<Acting>
    ensures here { IfSome result (λ acting. slice_get code.now.instructions thread.now.thread.top.counter ≡
        Some (instruction_of acting)) }
    ensures within { IfSome result (λ _. thread.now.thread.top.counter + 1 < 2 ^ 64) }
{
    match fetch(code, thread.counter())? {
        Instruction::Turn(x) => Some(Acting::Turn(x)),
        Instruction::GetField(x) => Some(Acting::GetField(x)),
        Instruction::PutField(x) => Some(Acting::PutField(x)),
        Instruction::Enter(x) => Some(Acting::Enter(x)),
        Instruction::Leave => Some(Acting::Leave),
        Instruction::LeaveWith => Some(Acting::LeaveWith),
        Instruction::See(x) => Some(Acting::See(x)),
        Instruction::Take(x) => Some(Acting::Take(x)),
        Instruction::DropLock(x) => Some(Acting::DropLock(x)),
        _ => None,
    }
}

/// Does an instruction that neither stops the machine nor is an event, and that most code has. What it did is answered
/// as it is, since an `Option` of it would be moved once more.
#[inline(always)]
pub fn act(
    code: &Code,
    cells: &mut Cells,
    number: usize,
    thread: &mut Thread,
    acting: Acting,
) -> Did
    requires number { number ≤ 64 }
    requires place { thread.old.thread.top.counter + 1 < 2 ^ 64 }
    requires fit { MethodsFit code.now.methods thread.old.locals_room thread.old.operands_room }
    ensures came { Came (performed cells.old number thread.old.thread (of_frame code.now thread.old.thread
        (frame_move (instruction_of acting) thread.old.thread.top))) thread.old thread.new cells.new result }
    ensures events { TakesEvents code.now number result thread.old.thread thread.new.thread }
    ensures unseen { IsUnseen result }
{
    match acting {
        Acting::Turn(x) => {
            thread.resume(Resume::Lead(x as usize), 0);
            Did::Acted(Action::Turn, Answer::Done)
        }
        Acting::GetField(x) => read_field(code, cells, number, thread, x),
        Acting::PutField(x) => write_field(code, cells, number, thread, x),
        Acting::Enter(x) => enter(code, cells, number, thread, x),
        Acting::Leave => {
            let _ = thread.leave();
            Did::Silent
        }
        Acting::LeaveWith => leave_with(code, cells, number, thread),
        Acting::See(x) => see(code, cells, number, thread, x),
        Acting::Take(x) => take(code, cells, number, thread, x),
        Acting::DropLock(x) => drop_lock(code, cells, number, thread, x),
    }
}

/// An instruction that isn't silent.
fn run_other(
    code: &Code,
    cells: &mut Cells,
    number: usize,
    thread: &mut Thread,
    instruction: Instruction,
) -> Did
    requires number { number ≤ 64 }
    requires other { is_silent instruction ≡ false }
    requires place { thread.old.thread.top.counter + 1 < 2 ^ 64 }
    requires fit { MethodsFit code.now.methods thread.old.locals_room thread.old.operands_room }
    ensures came { Came (performed cells.old number thread.old.thread (of_frame code.now thread.old.thread
        (frame_move instruction thread.old.thread.top))) thread.old thread.new cells.new result }
    ensures events { TakesEvents code.now number result thread.old.thread thread.new.thread }
{
    match thread.advance(instruction) {
        Flow::Stuck => Did::Silent,
        Flow::Throws(kind) => throw(code, cells, number, thread, kind),
        Flow::Asks(action, how) => ask(code, cells, number, thread, action, how),
        Flow::Beyond(wide) => beyond(code, cells, number, thread, wide),
    }
}

/// One step of a thread.
#[inline]
pub fn run(code: &Code, cells: &mut Cells, number: usize, thread: &mut Thread) -> Did
    requires number { number ≤ 64 }
    requires fit { MethodsFit code.now.methods thread.old.locals_room thread.old.operands_room }
    ensures came { Came (performed cells.old number thread.old.thread (thread_move code.now thread.old.thread))
        thread.old thread.new cells.new result }
    ensures events { TakesEvents code.now number result thread.old.thread thread.new.thread }
{
    match fetch(code, thread.counter()) {
        None => Did::Silent,
        Some(instruction) => match thread.quick(instruction) {
            Quick::Next => Did::Silent,
            Quick::Stuck => Did::Silent,
            Quick::Throws(kind) => throw(code, cells, number, thread, kind),
            Quick::Other => run_other(code, cells, number, thread, instruction),
        },
    }
}
