// Whether the constants in what is left to do name no object.

ghost use Rattle.std.specs.Prelude.{IsTrue, map};
ghost use Rattle.ls_checked.specs.Plain.{plain_file, plain_method};
ghost use Rattle.ls_checked.specs.PlainProgram.{plain_call};
ghost use Rattle.ls_meaning.specs.Constants.{CallHasConstants, CallsHaveConstants, FileHasConstants, UsesConstants};
ghost use Rattle.ls_source.specs.SeenThread.{phase_of, thread_of};
ghost use Rattle.ls_source_pending.specs.Seen.{control_of, ending_of, frame_of, frames_of, operand_of, waiting_of};
ghost use Rattle.ls_source_pending.specs.SeenPending.{state_of};
ghost use Rattle.ls_works.specs.Frames.{ControlHasConstants, EndingHasConstants, FrameHasConstants};
ghost use Rattle.ls_works.specs.Frames.{FramesHaveConstants, OperandHasConstants, PhaseHasConstants};
ghost use Rattle.ls_renaming.specs.Constants.{MethodsHaveConstants};
ghost use Rattle.ls_works.specs.Frames.{ThreadHasConstants, WaitingHasConstants};

use crate::trees::{are_constant, has_constants, have_constants, use_constants, uses_constants};
use ls_checked::program::ProgramCall;
use ls_checked::tree::{File, Method};
use ls_source::thread::{Phase, Thread};
use ls_source_pending::pending::Pending;
use ls_source_pending::work::{Control, Ending, Frame, Operand, Waiting};

// Whether those of a method name no object.
fn method_has_constants(method: &Method) -> bool
    ensures { IsTrue result → UsesConstants (plain_method method.now).body }
{
    uses_constants(&method.body)
}

fn methods_have_constants(methods: &[Method]) -> bool
    ensures { IsTrue result → MethodsHaveConstants (map plain_method methods.now) }
{
    for method in methods {
        if !method_has_constants(method) {
            return false;
        }
    }
    true
}

/// Whether the constants of a file name no object.
#[tactic(auto, using(crate::proofs::Lists::file_constants))]
pub fn file_has_constants(file: &File) -> bool
    ensures { IsTrue result → FileHasConstants (plain_file file.now) }
{
    methods_have_constants(&file.methods)
}

fn call_has_constants(call: &ProgramCall) -> bool
    ensures { IsTrue result → CallHasConstants (plain_call call.now) }
{
    match call {
        ProgramCall::Making { values, .. } => are_constant(values),
        ProgramCall::Calling { values, .. } => are_constant(values),
    }
}

fn calls_have_constants(calls: &[ProgramCall]) -> bool
    ensures { IsTrue result → CallsHaveConstants (map plain_call calls.now) }
{
    for call in calls {
        if !call_has_constants(call) {
            return false;
        }
    }
    true
}

fn operand_has_constants<'a>(operand: &Operand<'a>) -> bool
    ensures { IsTrue result → OperandHasConstants (operand_of operand.now) }
{
    match operand {
        Operand::Item(e) | Operand::Left(_, e) | Operand::And(e) | Operand::Or(e) => has_constants(
            *e,
        ),
        Operand::Target(_, es) | Operand::Made(_, es) => have_constants(*es),
        _ => true,
    }
}

fn waiting_has_constants<'a>(waiting: &Waiting<'a>) -> bool
    ensures { IsTrue result → WaitingHasConstants (waiting_of waiting.now) }
{
    match waiting {
        Waiting::Target(_, e) | Waiting::Counter(_, e) => has_constants(*e),
        Waiting::Addend(_, _, e) | Waiting::Index(_, e) => has_constants(*e),
        Waiting::Array(a, b) => has_constants(*a) && has_constants(*b),
        Waiting::If(a, b) => uses_constants(*a) && uses_constants(*b),
        Waiting::Test(e, s) => has_constants(*e) && uses_constants(*s),
        _ => true,
    }
}

fn ending_has_constants<'a>(ending: &Ending<'a>) -> bool
    ensures { IsTrue result → EndingHasConstants (ending_of ending.now) }
{
    match ending {
        Ending::Sequence(ss) => use_constants(*ss),
        Ending::Body(e, s) => has_constants(*e) && uses_constants(*s),
        Ending::Try(s) => uses_constants(*s),
        Ending::Finally(_) => true,
    }
}

fn frame_has_constants<'a>(frame: &Frame<'a>) -> bool
    ensures { IsTrue result → FrameHasConstants (frame_of frame.now) }
{
    match frame {
        Frame::Operand(operand) => operand_has_constants(operand),
        Frame::Argument(_, _, es) => have_constants(*es),
        Frame::Waiting(waiting) => waiting_has_constants(waiting),
        Frame::Ending(ending) => ending_has_constants(ending),
        Frame::Body(_, _, _) => true,
    }
}

fn frames_have_constants<'a>(frames: &[Frame<'a>]) -> bool
    ensures { IsTrue result → FramesHaveConstants (map frame_of frames.now) }
{
    for frame in frames {
        if !frame_has_constants(frame) {
            return false;
        }
    }
    true
}

fn control_has_constants<'a>(control: &Control<'a>) -> bool
    ensures { IsTrue result → ControlHasConstants (control_of control.now) }
{
    match control {
        Control::Evaluates(e) => has_constants(*e),
        Control::Argues(_, _, es) => have_constants(*es),
        Control::Executes(s) => uses_constants(*s),
        Control::Loops(e, s) | Control::Turns(e, s) => has_constants(*e) && uses_constants(*s),
        _ => true,
    }
}

#[tactic(auto, using(crate::proofs::Lists::frames_constants))]
fn phase_has_constants<'a>(phase: &Phase<'a>, work: &Pending<'a>) -> bool
    ensures { IsTrue result → PhaseHasConstants (phase_of phase.now (state_of work.now)) }
{
    match phase {
        Phase::Announces(call) => call_has_constants(*call),
        Phase::Works(_) => {
            control_has_constants(&work.control) && frames_have_constants(&work.frames)
        }
        _ => true,
    }
}

/// Whether those in what a thread still has to do name no object.
#[tactic(auto, using(crate::proofs::Lists::calls_dropped))]
pub fn thread_has_constants<'a>(thread: &Thread<'a>) -> bool
    ensures { IsTrue result → ThreadHasConstants (thread_of thread.now) }
{
    calls_have_constants(thread.calls) && phase_has_constants(&thread.phase, &thread.work)
}
