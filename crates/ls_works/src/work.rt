// Whether pending work is the same.

ghost use Rattle.std.specs.Prelude.{◌≡◌, IsTrue, map};
ghost use Rattle.ls_source_pending.specs.Seen.{operand_of, waiting_of, ending_of, frame_of, control_of};
ghost use Rattle.ls_source_pending.specs.Seen.{purpose_of};
ghost use Rattle.ls_source_pending.specs.SeenPending.{state_of};

use crate::actions::is_same_action;
use crate::statements::{are_same_statements, is_same_statement};
use crate::trees::{are_same_expressions, is_same_called, is_same_expression, is_same_operator};
use crate::values::{are_same_values, is_same_answered, is_same_completion, is_same_sort};
use ls_events::same::is_same_value;
use ls_source_pending::pending::Pending;
use ls_source_pending::work::{Control, Ending, Frame, Operand, Purpose, Waiting};

// Whether arguments have the same use.
fn is_same_purpose(purpose: Purpose, other: Purpose) -> bool
    ensures { IsTrue result → purpose_of purpose ≡ purpose_of other }
{
    match (purpose, other) {
        (Purpose::Call(m, v), Purpose::Call(n, w)) => is_same_called(m, n) && is_same_value(v, w),
        (Purpose::Make(c, v), Purpose::Make(d, w)) => c == d && is_same_value(v, w),
        (Purpose::Mark(c), Purpose::Mark(d)) => c == d,
        _ => false,
    }
}

// Whether the rest of an expression is the other.
fn is_same_operand<'a>(operand: &Operand<'a>, other: &Operand<'a>) -> bool
    ensures { IsTrue result → operand_of operand.now ≡ operand_of other.now }
{
    match (operand, other) {
        (Operand::Field(c, f), Operand::Field(d, g)) => c == d && f == g,
        (Operand::Item(i), Operand::Item(j)) => is_same_expression(*i, *j),
        (Operand::Index(v), Operand::Index(w)) => is_same_value(*v, *w),
        (Operand::Negate, Operand::Negate) => true,
        (Operand::Not, Operand::Not) => true,
        (Operand::Length, Operand::Length) => true,
        (Operand::Left(op, e), Operand::Left(to, d)) => {
            is_same_operator(*op, *to) && is_same_expression(*e, *d)
        }
        (Operand::Right(op, v), Operand::Right(to, w)) => {
            is_same_operator(*op, *to) && is_same_value(*v, *w)
        }
        (Operand::And(e), Operand::And(d)) => is_same_expression(*e, *d),
        (Operand::Or(e), Operand::Or(d)) => is_same_expression(*e, *d),
        (Operand::Target(m, es), Operand::Target(n, ds)) => {
            is_same_called(*m, *n) && are_same_expressions(*es, *ds)
        }
        (Operand::Made(c, es), Operand::Made(d, ds)) => c == d && are_same_expressions(*es, *ds),
        (Operand::Constructor(v), Operand::Constructor(w)) => is_same_value(*v, *w),
        (Operand::Reference, Operand::Reference) => true,
        (Operand::Mark, Operand::Mark) => true,
        (Operand::Both(a), Operand::Both(b)) => a == b,
        (Operand::Written(v), Operand::Written(w)) => is_same_value(*v, *w),
        _ => false,
    }
}

// Whether the rest of a statement that waits for a value is the other.
fn is_same_waiting<'a>(waiting: &Waiting<'a>, other: &Waiting<'a>) -> bool
    ensures { IsTrue result → waiting_of waiting.now ≡ waiting_of other.now }
{
    match (waiting, other) {
        (Waiting::Slot(m), Waiting::Slot(n)) => m == n,
        (Waiting::Target(f, e), Waiting::Target(g, d)) => f == g && is_same_expression(*e, *d),
        (Waiting::Field(v, f), Waiting::Field(w, g)) => f == g && is_same_value(*v, *w),
        (Waiting::Counter(f, e), Waiting::Counter(g, d)) => f == g && is_same_expression(*e, *d),
        (Waiting::Addend(v, f, e), Waiting::Addend(w, g, d)) => {
            f == g && is_same_value(*v, *w) && is_same_expression(*e, *d)
        }
        (Waiting::Sum(v, f, x), Waiting::Sum(w, g, y)) => {
            f == g && is_same_value(*v, *w) && is_same_value(*x, *y)
        }
        (Waiting::Array(i, e), Waiting::Array(j, d)) => {
            is_same_expression(*i, *j) && is_same_expression(*e, *d)
        }
        (Waiting::Index(v, e), Waiting::Index(w, d)) => {
            is_same_value(*v, *w) && is_same_expression(*e, *d)
        }
        (Waiting::Item(v, x), Waiting::Item(w, y)) => is_same_value(*v, *w)
            && is_same_value(*x, *y),
        (Waiting::Nothing, Waiting::Nothing) => true,
        (Waiting::If(a, x), Waiting::If(b, y)) => {
            is_same_statement(*a, *b) && is_same_statement(*x, *y)
        }
        (Waiting::Test(e, a), Waiting::Test(d, b)) => {
            is_same_expression(*e, *d) && is_same_statement(*a, *b)
        }
        (Waiting::Return, Waiting::Return) => true,
        _ => false,
    }
}

// Whether the rest of a statement that waits for an end is the other.
fn is_same_ending<'a>(ending: &Ending<'a>, other: &Ending<'a>) -> bool
    ensures { IsTrue result → ending_of ending.now ≡ ending_of other.now }
{
    match (ending, other) {
        (Ending::Sequence(ss), Ending::Sequence(ts)) => are_same_statements(*ss, *ts),
        (Ending::Body(e, a), Ending::Body(d, b)) => {
            is_same_expression(*e, *d) && is_same_statement(*a, *b)
        }
        (Ending::Try(a), Ending::Try(b)) => is_same_statement(*a, *b),
        (Ending::Finally(a), Ending::Finally(b)) => is_same_completion(*a, *b),
        _ => false,
    }
}

// Whether a frame is the other.
fn is_same_frame<'a>(frame: &Frame<'a>, other: &Frame<'a>) -> bool
    ensures { IsTrue result → frame_of frame.now ≡ frame_of other.now }
{
    match frame {
        Frame::Operand(a) => match other {
            Frame::Operand(b) => is_same_operand(a, b),
            _ => false,
        },
        Frame::Argument(p, vs, es) => match other {
            Frame::Argument(q, ws, ds) => {
                is_same_purpose(*p, *q) && are_same_values(vs, ws) && are_same_expressions(*es, *ds)
            }
            _ => false,
        },
        Frame::Waiting(a) => match other {
            Frame::Waiting(b) => is_same_waiting(a, b),
            _ => false,
        },
        Frame::Ending(a) => match other {
            Frame::Ending(b) => is_same_ending(a, b),
            _ => false,
        },
        Frame::Body(t, vs, m) => match other {
            Frame::Body(u, ws, n) => m == n && is_same_answered(*t, *u) && are_same_values(vs, ws),
            _ => false,
        },
    }
}

// Whether frames are the same, one by one.
fn are_same_frames<'a>(frames: &[Frame<'a>], others: &[Frame<'a>]) -> bool
    ensures { IsTrue result → map frame_of frames.now ≡ map frame_of others.now }
{
    if frames.len() != others.len() {
        return false;
    }
    for (i, frame) in frames.iter().enumerate() {
        if !is_same_frame(frame, &others[i]) {
            return false;
        }
    }
    true
}

// Whether a call that is done now, or asked for, is the other.
fn is_same_calling<'a>(control: &Control<'a>, other: &Control<'a>) -> bool
    ensures { IsTrue result → control_of control.now ≡ control_of other.now }
{
    match control {
        Control::Argues(p, vs, es) => match other {
            Control::Argues(q, ws, ds) => {
                is_same_purpose(*p, *q) && are_same_values(vs, ws) && are_same_expressions(*es, *ds)
            }
            _ => false,
        },
        Control::Invokes(m, v, vs) => match other {
            Control::Invokes(n, w, ws) => m == n
                && is_same_value(*v, *w)
                && are_same_values(vs, ws),
            _ => false,
        },
        Control::Opens(m, v, vs) => match other {
            Control::Opens(n, w, ws) => m == n && is_same_value(*v, *w) && are_same_values(vs, ws),
            _ => false,
        },
        Control::Enters(m, v, vs) => match other {
            Control::Enters(n, w, ws) => m == n && is_same_value(*v, *w) && are_same_values(vs, ws),
            _ => false,
        },
        _ => false,
    }
}

// Whether a tree that is done now, or a loop's turn, is the other.
fn is_same_doing<'a>(control: &Control<'a>, other: &Control<'a>) -> bool
    ensures { IsTrue result → control_of control.now ≡ control_of other.now }
{
    match control {
        Control::Evaluates(e) => match other {
            Control::Evaluates(d) => is_same_expression(*e, *d),
            _ => false,
        },
        Control::Executes(a) => match other {
            Control::Executes(b) => is_same_statement(*a, *b),
            _ => false,
        },
        Control::Loops(e, a) => match other {
            Control::Loops(d, b) => is_same_expression(*e, *d) && is_same_statement(*a, *b),
            _ => false,
        },
        Control::Turns(e, a) => match other {
            Control::Turns(d, b) => is_same_expression(*e, *d) && is_same_statement(*a, *b),
            _ => false,
        },
        _ => false,
    }
}

// Whether what is given, ended with or asked for is the other.
fn is_same_outcome<'a>(control: &Control<'a>, other: &Control<'a>) -> bool
    ensures { IsTrue result → control_of control.now ≡ control_of other.now }
{
    match control {
        Control::Gives(v) => match other {
            Control::Gives(w) => is_same_value(*v, *w),
            _ => false,
        },
        Control::Ends(a) => match other {
            Control::Ends(b) => is_same_completion(*a, *b),
            _ => false,
        },
        Control::Asks(a, s) => match other {
            Control::Asks(b, t) => is_same_action(*a, *b) && is_same_sort(*s, *t),
            _ => false,
        },
        _ => false,
    }
}

// Whether what is done now is the other.
fn is_same_control<'a>(control: &Control<'a>, other: &Control<'a>) -> bool
    ensures { IsTrue result → control_of control.now ≡ control_of other.now }
{
    is_same_outcome(control, other)
        || is_same_calling(control, other)
        || is_same_doing(control, other)
}

/// Whether pending work is the other. True only where it is.
#[tactic(auto, unfolding(ls_source_pending::specs::Seen::frames_of))]
pub fn is_same_work<'a>(work: &Pending<'a>, other: &Pending<'a>) -> bool
    ensures { IsTrue result → state_of work.now ≡ state_of other.now }
{
    work.depth == other.depth
        && is_same_control(&work.control, &other.control)
        && are_same_frames(&work.frames, &other.frames)
        && are_same_values(&work.locals, &other.locals)
}
