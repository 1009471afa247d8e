// Pending work with other numbers.

ghost use Rattle.std.specs.Prelude.{◌≡◌, IfOk, map};
ghost use Rattle.ls_meaning.specs.Renamings.{renamed_action};
ghost use Rattle.ls_source_pending.specs.Seen.{control_of, ending_of, frame_of, frames_of, operand_of, purpose_of};
ghost use Rattle.ls_source_pending.specs.Seen.{waiting_of};
ghost use Rattle.ls_source_pending.specs.SeenPending.{state_of};
ghost use Rattle.ls_works.specs.Frames.{renamed_completion, renamed_control, renamed_ending, renamed_frame};
ghost use Rattle.ls_works.specs.Frames.{renamed_operand, renamed_purpose, renamed_waiting, renamed_work};
ghost use Rattle.ls_renaming.specs.Seen.{names_of};

use crate::actions::rename_action;
use crate::names::Names;
use ls_events::value::Value;
use ls_meaning::completion::Completion;
use ls_source_pending::pending::Pending;
use ls_source_pending::work::{Control, Ending, Frame, Operand, Purpose, Waiting};
use std::alloc::{AllocError, Global};

fn rename_completion(names: &Names, c: Completion<Value>) -> Result<Completion<Value>, AllocError>
    ensures { IfOk result (λ r. r ≡ renamed_completion (names_of names.now) c) }
{
    match c {
        Completion::Normal => Ok(Completion::Normal),
        Completion::Broke(n) => Ok(Completion::Broke(n)),
        Completion::Continued(n) => Ok(Completion::Continued(n)),
        Completion::Returned(v) => Ok(Completion::Returned(names.result(v)?)),
        Completion::Threw(kind) => Ok(Completion::Threw(kind)),
    }
}

fn rename_purpose(names: &Names, purpose: Purpose) -> Result<Purpose, AllocError>
    ensures { IfOk result (λ r. purpose_of r ≡ renamed_purpose (names_of names.now) (purpose_of purpose)) }
{
    match purpose {
        Purpose::Call(m, o) => Ok(Purpose::Call(m, names.value(o)?)),
        Purpose::Make(c, o) => Ok(Purpose::Make(c, names.value(o)?)),
        Purpose::Mark(c) => Ok(Purpose::Mark(c)),
    }
}

fn rename_operand<'a>(names: &Names, operand: &Operand<'a>) -> Result<Operand<'a>, AllocError>
    ensures { IfOk result (λ r. operand_of r ≡ renamed_operand (names_of names.now) (operand_of operand.now)) }
{
    match operand {
        Operand::Index(v) => Ok(Operand::Index(names.value(*v)?)),
        Operand::Right(op, v) => Ok(Operand::Right(*op, names.value(*v)?)),
        Operand::Constructor(v) => Ok(Operand::Constructor(names.value(*v)?)),
        Operand::Both(a) => Ok(Operand::Both(names.number(*a)?)),
        Operand::Written(v) => Ok(Operand::Written(names.value(*v)?)),
        Operand::Field(_, _)
        | Operand::Item(_)
        | Operand::Negate
        | Operand::Not
        | Operand::Length
        | Operand::Left(_, _)
        | Operand::And(_)
        | Operand::Or(_)
        | Operand::Target(_, _)
        | Operand::Made(_, _)
        | Operand::Reference
        | Operand::Mark => Ok(*operand),
    }
}

fn rename_waiting<'a>(names: &Names, waiting: &Waiting<'a>) -> Result<Waiting<'a>, AllocError>
    ensures { IfOk result (λ r. waiting_of r ≡ renamed_waiting (names_of names.now) (waiting_of waiting.now)) }
{
    match waiting {
        Waiting::Field(o, f) => Ok(Waiting::Field(names.value(*o)?, *f)),
        Waiting::Addend(o, f, e) => Ok(Waiting::Addend(names.value(*o)?, *f, *e)),
        Waiting::Sum(o, f, x) => Ok(Waiting::Sum(names.value(*o)?, *f, names.value(*x)?)),
        Waiting::Index(o, e) => Ok(Waiting::Index(names.value(*o)?, *e)),
        Waiting::Item(o, x) => Ok(Waiting::Item(names.value(*o)?, names.value(*x)?)),
        Waiting::Slot(_)
        | Waiting::Target(_, _)
        | Waiting::Counter(_, _)
        | Waiting::Array(_, _)
        | Waiting::Nothing
        | Waiting::If(_, _)
        | Waiting::Test(_, _)
        | Waiting::Return => Ok(*waiting),
    }
}

fn rename_ending<'a>(names: &Names, ending: &Ending<'a>) -> Result<Ending<'a>, AllocError>
    ensures { IfOk result (λ r. ending_of r ≡ renamed_ending (names_of names.now) (ending_of ending.now)) }
{
    match ending {
        Ending::Finally(c) => Ok(Ending::Finally(rename_completion(names, *c)?)),
        Ending::Sequence(ss) => Ok(Ending::Sequence(*ss)),
        Ending::Body(e, s) => Ok(Ending::Body(*e, *s)),
        Ending::Try(s) => Ok(Ending::Try(*s)),
    }
}

fn rename_frame<'a>(
    alloc: Global,
    names: &Names,
    frame: &Frame<'a>,
) -> Result<Frame<'a>, AllocError>
    ensures { IfOk result (λ r. frame_of r ≡ renamed_frame (names_of names.now) (frame_of frame.now)) }
{
    match frame {
        Frame::Operand(operand) => Ok(Frame::Operand(rename_operand(names, operand)?)),
        Frame::Argument(purpose, before, es) => {
            let purpose = rename_purpose(names, *purpose)?;
            let before = names.values(alloc, before)?;
            Ok(Frame::Argument(purpose, before, *es))
        }
        Frame::Waiting(waiting) => Ok(Frame::Waiting(rename_waiting(names, waiting)?)),
        Frame::Ending(ending) => Ok(Frame::Ending(rename_ending(names, ending)?)),
        Frame::Body(answered, saved, depth) => {
            let saved = names.values(alloc, saved)?;
            Ok(Frame::Body(*answered, saved, *depth))
        }
    }
}

fn rename_frames<'a>(
    alloc: Global,
    names: &Names,
    frames: &[Frame<'a>],
) -> Result<Vec<Frame<'a>>, AllocError>
    ensures { IfOk result (λ v. map frame_of v.items ≡ map (renamed_frame (names_of names.now))
        (map frame_of frames.now)) }
{
    let mut renamed = Vec::new(alloc);
    for frame in frames {
        renamed.push(rename_frame(alloc, names, frame)?)?;
    }
    Ok(renamed)
}

fn rename_control<'a>(
    alloc: Global,
    names: &Names,
    control: &Control<'a>,
) -> Result<Control<'a>, AllocError>
    ensures { IfOk result (λ c. control_of c ≡ renamed_control (names_of names.now) (control_of control.now)) }
{
    match control {
        Control::Argues(purpose, before, es) => {
            let purpose = rename_purpose(names, *purpose)?;
            let before = names.values(alloc, before)?;
            Ok(Control::Argues(purpose, before, *es))
        }
        Control::Invokes(m, o, vs) => {
            let o = names.value(*o)?;
            let vs = names.values(alloc, vs)?;
            Ok(Control::Invokes(*m, o, vs))
        }
        Control::Opens(m, o, vs) => {
            let o = names.value(*o)?;
            let vs = names.values(alloc, vs)?;
            Ok(Control::Opens(*m, o, vs))
        }
        Control::Enters(m, o, vs) => {
            let o = names.value(*o)?;
            let vs = names.values(alloc, vs)?;
            Ok(Control::Enters(*m, o, vs))
        }
        Control::Gives(v) => Ok(Control::Gives(names.value(*v)?)),
        Control::Ends(c) => Ok(Control::Ends(rename_completion(names, *c)?)),
        Control::Asks(action, sort) => Ok(Control::Asks(rename_action(names, *action)?, *sort)),
        Control::Evaluates(e) => Ok(Control::Evaluates(*e)),
        Control::Executes(s) => Ok(Control::Executes(*s)),
        Control::Loops(e, s) => Ok(Control::Loops(*e, *s)),
        Control::Turns(e, s) => Ok(Control::Turns(*e, *s)),
    }
}

/// Pending work with other numbers.
#[tactic(auto, using(crate::proofs::Lists::frames_renamed))]
pub fn rename_work<'a>(
    alloc: Global,
    names: &Names,
    work: &Pending<'a>,
) -> Result<Pending<'a>, AllocError>
    ensures { IfOk result (λ w. state_of w ≡ renamed_work (names_of names.now) (state_of work.now)) }
{
    let control = rename_control(alloc, names, &work.control)?;
    let frames = rename_frames(alloc, names, &work.frames)?;
    let locals = names.values(alloc, &work.locals)?;
    Ok(Pending {
        control,
        frames,
        locals,
        depth: work.depth,
    })
}
