// What a thread does now, and what is left around it.

ghost use Rattle.std.specs.Prelude.{◌≡◌};
ghost use Rattle.ls_source_pending.specs.Filled.{is_some};
ghost use Rattle.ls_source_pending.specs.Moves.{answered};
ghost use Rattle.ls_source_pending.specs.Seen.{control_of};

use crate::work::{Control, Frame};
use ls_events::action::Answer;
use ls_events::value::Value;
use ls_meaning::completion::Completion;
use std::mem;

/// What is done now, the frames around it (the innermost last), the locals, and how many more calls may be entered.
#[derive(Drop)]
pub struct Pending<'a> {
    pub control: Control<'a>,
    pub frames: Vec<Frame<'a>>,
    pub locals: Vec<Value>,
    pub depth: u64,
}

// Whether there are frames.
#[inline(always)]
fn has_some<'a>(frames: &[Frame<'a>]) -> bool
    ensures { result ≡ is_some frames.now }
{
    match frames {
        [] => false,
        [_, ..] => true,
    }
}

// What goes on after the answer to an action.
#[inline(always)]
fn answered<'a>(answer: Answer<Value>) -> Control<'a>
    ensures { control_of result ≡ answered answer }
{
    match answer {
        Answer::Done => Control::Gives(Value::Reference(0)),
        Answer::Gives(v) => Control::Gives(v),
        Answer::Fails(kind) => Control::Ends(Completion::Threw(kind)),
    }
}

impl<'a> Pending<'a> {
    ghost use Rattle.ls_source_pending.specs.Moves.{is_left, taken};
    ghost use Rattle.ls_source_pending.specs.SeenPending.{state_of};

    /// Whether a move is left.
    #[tactic(auto, using(crate::proofs::Stacks::gives_left, crate::proofs::Stacks::ends_left))]
    #[inline(always)]
    pub fn is_left(&self) -> bool
        ensures { result ≡ is_left (state_of self.now).control (state_of self.now).frames }
    {
        match &self.control {
            Control::Asks(_, _) | Control::Enters(_, _, _) | Control::Turns(_, _) => false,
            Control::Gives(_) => has_some(&self.frames),
            Control::Ends(_) => has_some(&self.frames),
            _ => true,
        }
    }

    // If a method was asked for, it may be entered. Anything else stays.
    fn enter(&mut self, answer: Answer<Value>)
        ensures { state_of self.new ≡ taken answer (state_of self.old) }
    {
        let control = mem::replace(&mut self.control, Control::Gives(Value::Reference(0)));
        self.control = match control {
            Control::Asks(_action, _sort) => answered(answer),
            Control::Enters(m, o, values) => Control::Opens(m, o, values),
            Control::Turns(e, s) => Control::Loops(e, s),
            control => control,
        };
    }

    /// The answer to what was asked for.
    pub fn take(&mut self, answer: Answer<Value>)
        ensures { state_of self.new ≡ taken answer (state_of self.old) }
    {
        match &self.control {
            Control::Asks(_, _) => self.control = answered(answer),
            Control::Turns(e, s) => {
                let turn = Control::Loops(*e, *s);
                self.control = turn;
            }
            _ => self.enter(answer),
        }
    }
}
