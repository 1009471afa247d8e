// After which ends of a part a local is dead, by the frames around the part.

ghost use Rattle.std.specs.Prelude.{◌≡◌, map};
ghost use Rattle.ls_checked.specs.Plain.{plain, plain_statement};
ghost use Rattle.ls_source_pending.specs.Seen.{control_of, ending_of, frame_of, frames_of, operand_of, waiting_of};
ghost use Rattle.ls_dead_locals.specs.Around.{all_ways, control_dead, dead_after, ending_ways, frame_ways, frames_ways};
ghost use Rattle.ls_dead_locals.specs.Around.{left, looped, loop_dead, operand_spares, valued, waiting_dead};

use crate::expressions::{all_spare, spares};
use crate::statements::{Ways, are_dead, finished, in_body, is_dead};
use ls_checked::tree::{Expression, Statement};
use ls_events::value::Value;
use ls_meaning::completion::Completion;
use ls_source_pending::work::{Control, Ending, Frame, Operand, Waiting};

/// A local is dead after all ends.
fn all_ways() -> Ways
    ensures { result ≡ all_ways }
{
    Ways {
        value: true,
        normal: true,
        jumped: true,
        returned: true,
        threw: true,
    }
}

/// The ends of a part that has this value as its end.
fn valued(value: bool, ways: Ways) -> Ways
    ensures { result ≡ valued value ways }
{
    Ways { value, ..ways }
}

/// The ends of a body.
fn left(ways: Ways) -> Ways
    ensures { result ≡ left ways }
{
    Ways {
        value: ways.value,
        normal: true,
        jumped: true,
        returned: true,
        threw: true,
    }
}

/// Whether the rest of an expression doesn't read the local of a slot.
fn operand_spares<'a>(operand: &Operand<'a>, slot: usize) -> bool
    ensures { result ≡ operand_spares slot (operand_of operand.now) }
{
    match operand {
        Operand::Item(e) => spares(*e, slot),
        Operand::Left(_, e) => spares(*e, slot),
        Operand::And(e) => spares(*e, slot),
        Operand::Or(e) => spares(*e, slot),
        Operand::Target(_, es) => all_spare(*es, slot),
        Operand::Made(_, es) => all_spare(*es, slot),
        Operand::Field(_, _)
        | Operand::Index(_)
        | Operand::Negate
        | Operand::Not
        | Operand::Length
        | Operand::Right(_, _)
        | Operand::Constructor(_)
        | Operand::Reference
        | Operand::Mark
        | Operand::Both(_)
        | Operand::Written(_) => true,
    }
}

/// Whether the local of a slot is dead before a loop.
fn is_dead_before<'a>(e: &'a Expression, s: &'a Statement, slot: usize, ways: Ways) -> bool
    ensures { result ≡ loop_dead slot (plain e.now) (plain_statement s.now) ways }
{
    ((ways.normal && ways.threw) && spares(e, slot)) && is_dead(s, slot, in_body(ways))
}

/// Whether the local of a slot is dead once a statement has the value for which it waits.
fn waiting_dead<'a>(waiting: &Waiting<'a>, slot: usize, ways: Ways) -> bool
    ensures { result ≡ waiting_dead slot (waiting_of waiting.now) ways }
{
    let both = ways.normal && ways.threw;
    match waiting {
        Waiting::Slot(n) => *n == slot || ways.normal,
        Waiting::Target(_, e) => both && spares(*e, slot),
        Waiting::Counter(_, e) => both && spares(*e, slot),
        Waiting::Addend(_, _, e) => both && spares(*e, slot),
        Waiting::Index(_, e) => both && spares(*e, slot),
        Waiting::Array(i, e) => both && (spares(*i, slot) && spares(*e, slot)),
        Waiting::Field(_, _) | Waiting::Sum(_, _, _) | Waiting::Item(_, _) => both,
        Waiting::Nothing => ways.normal,
        Waiting::If(a, b) => is_dead(*a, slot, ways) && is_dead(*b, slot, ways),
        Waiting::Test(e, s) => is_dead_before(*e, *s, slot, ways),
        Waiting::Return => ways.returned,
    }
}

/// Whether a local is dead after this end of a statement.
fn dead_after(completion: &Completion<Value>, ways: Ways) -> bool
    ensures { result ≡ dead_after completion.now ways }
{
    match completion {
        Completion::Normal => ways.normal,
        Completion::Broke(_) | Completion::Continued(_) => ways.jumped,
        Completion::Returned(_) => ways.returned,
        Completion::Threw(_) => ways.threw,
    }
}

/// The ends of the body of a loop that is under way.
fn looped(again: bool, ways: Ways) -> Ways
    ensures { result ≡ looped again ways }
{
    Ways {
        normal: again,
        jumped: again && (ways.normal && ways.jumped),
        ..ways
    }
}

/// The ends of the part of a statement before this rest of it.
fn ending_ways<'a>(ending: &Ending<'a>, slot: usize, ways: Ways) -> Ways
    ensures { result ≡ ending_ways slot (ending_of ending.now) ways }
{
    match ending {
        Ending::Sequence(ss) => finished(are_dead(*ss, slot, ways), ways),
        Ending::Body(e, s) => looped(is_dead_before(*e, *s, slot, ways), ways),
        Ending::Try(f) => Ways {
            value: ways.value,
            normal: is_dead(*f, slot, ways),
            jumped: is_dead(*f, slot, finished(ways.jumped, ways)),
            returned: is_dead(*f, slot, finished(ways.returned, ways)),
            threw: is_dead(*f, slot, finished(ways.threw, ways)),
        },
        Ending::Finally(c) => finished(dead_after(c, ways), ways),
    }
}

/// After which ends of the part in a frame the local of a slot is dead, by those of what is around the frame.
fn frame_ways<'a>(frame: &Frame<'a>, slot: usize, ways: Ways) -> Ways
    ensures { result ≡ frame_ways slot (frame_of frame.now) ways }
{
    match frame {
        Frame::Operand(operand) => valued(
            (ways.value && ways.threw) && operand_spares(operand, slot),
            ways,
        ),
        Frame::Argument(_, _, es) => valued(
            (ways.value && ways.threw) && all_spare(*es, slot),
            ways,
        ),
        Frame::Waiting(waiting) => valued(waiting_dead(waiting, slot, ways), ways),
        Frame::Ending(ending) => ending_ways(ending, slot, ways),
        Frame::Body(_, _, _) => left(ways),
    }
}

/// After which ends of the part in all frames the local of a slot is dead.
#[tactic(auto, using(crate::proofs::Stacked::one_more), unfolding(ls_source_pending::specs::Seen::frames_of))]
pub fn frames_ways<'a>(frames: &[Frame<'a>], slot: usize) -> Ways
    ensures { result ≡ frames_ways slot (frames_of frames.now) }
{
    let mut ways = all_ways();
    for frame in frames {
        ways = frame_ways(frame, slot, ways);
    }
    ways
}

/// Whether the local of a slot is dead before the answer to a question. False where nothing is asked.
pub fn control_dead<'a>(control: &Control<'a>, slot: usize, ways: Ways) -> bool
    ensures { result ≡ control_dead slot (control_of control.now) ways }
{
    match control {
        Control::Asks(_, _) | Control::Enters(_, _, _) => ways.value && ways.threw,
        Control::Turns(e, s) => is_dead_before(*e, *s, slot, ways),
        Control::Evaluates(_)
        | Control::Argues(_, _, _)
        | Control::Invokes(_, _, _)
        | Control::Opens(_, _, _)
        | Control::Executes(_)
        | Control::Loops(_, _)
        | Control::Gives(_)
        | Control::Ends(_) => false,
    }
}
