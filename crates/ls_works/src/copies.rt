// Copies of values and of pending work.

ghost use Rattle.std.specs.Prelude.{◌≡◌, IfOk, map};
ghost use Rattle.ls_source_pending.specs.Seen.{frame_of, control_of};
ghost use Rattle.ls_source_pending.specs.SeenPending.{state_of};

use ls_events::value::Value;
use ls_source_pending::pending::Pending;
use ls_source_pending::work::{Control, Frame};
use std::alloc::{AllocError, Global};

/// The same values once more. The only refusal is that memory ran out.
pub fn copy_values(alloc: Global, values: &[Value]) -> Result<Vec<Value>, AllocError>
    ensures { IfOk result (λ v. v.items ≡ values.now) }
{
    let mut copies = Vec::new(alloc);
    copies.extend_from_slice(values)?;
    Ok(copies)
}

fn copy_control<'a>(alloc: Global, control: &Control<'a>) -> Result<Control<'a>, AllocError>
    ensures { IfOk result (λ c. control_of c ≡ control_of control.now) }
{
    match control {
        Control::Evaluates(e) => Ok(Control::Evaluates(*e)),
        Control::Argues(purpose, before, left) => {
            Ok(Control::Argues(*purpose, copy_values(alloc, before)?, *left))
        }
        Control::Invokes(m, o, values) => Ok(Control::Invokes(*m, *o, copy_values(alloc, values)?)),
        Control::Opens(m, o, values) => Ok(Control::Opens(*m, *o, copy_values(alloc, values)?)),
        Control::Executes(s) => Ok(Control::Executes(*s)),
        Control::Loops(e, s) => Ok(Control::Loops(*e, *s)),
        Control::Gives(v) => Ok(Control::Gives(*v)),
        Control::Ends(completion) => Ok(Control::Ends(*completion)),
        Control::Asks(action, sort) => Ok(Control::Asks(*action, *sort)),
        Control::Enters(m, o, values) => Ok(Control::Enters(*m, *o, copy_values(alloc, values)?)),
        Control::Turns(e, s) => Ok(Control::Turns(*e, *s)),
    }
}

fn copy_frame<'a>(alloc: Global, frame: &Frame<'a>) -> Result<Frame<'a>, AllocError>
    ensures { IfOk result (λ f. frame_of f ≡ frame_of frame.now) }
{
    match frame {
        Frame::Operand(operand) => Ok(Frame::Operand(*operand)),
        Frame::Argument(purpose, before, others) => {
            Ok(Frame::Argument(*purpose, copy_values(alloc, before)?, *others))
        }
        Frame::Waiting(waiting) => Ok(Frame::Waiting(*waiting)),
        Frame::Ending(ending) => Ok(Frame::Ending(*ending)),
        Frame::Body(answered, saved, depth) => {
            Ok(Frame::Body(*answered, copy_values(alloc, saved)?, *depth))
        }
    }
}

fn copy_frames<'a>(alloc: Global, frames: &[Frame<'a>]) -> Result<Vec<Frame<'a>>, AllocError>
    ensures { IfOk result (λ v. map frame_of v.items ≡ map frame_of frames.now) }
{
    let mut copies = Vec::new(alloc);
    for frame in frames {
        copies.push(copy_frame(alloc, frame)?)?;
    }
    Ok(copies)
}

/// The same pending work once more. The only refusal is that memory ran out.
#[tactic(auto, unfolding(ls_source_pending::specs::Seen::frames_of))]
pub fn copy_work<'a>(alloc: Global, work: &Pending<'a>) -> Result<Pending<'a>, AllocError>
    ensures { IfOk result (λ w. state_of w ≡ state_of work.now) }
{
    let control = copy_control(alloc, &work.control)?;
    let frames = copy_frames(alloc, &work.frames)?;
    let locals = copy_values(alloc, &work.locals)?;
    Ok(Pending {
        control,
        frames,
        locals,
        depth: work.depth,
    })
}
