// On to what comes next.

ghost use Rattle.std.specs.Prelude.{◌≡◌, ◌<◌, ◌∷◌, vec_len, vec_capacity};
ghost use Rattle.ls_source_pending.specs.Pending.{Gives as PlainGives, Ends as PlainEnds, Asks as PlainAsks};
ghost use Rattle.ls_source_pending.specs.ExpressionMoves.{at, thrown_on_null};
ghost use Rattle.ls_source_pending.specs.Seen.{frame_of, frames_of, control_of};
ghost use Rattle.ls_source_pending.specs.SeenPending.{state_of};

use crate::pending::Pending;
use crate::stack::push;
use crate::work::{Control, Frame};
use ls_events::action::Action;
use ls_events::kind::Kind;
use ls_events::value::Value;
use ls_meaning::completion::Completion;
use ls_meaning::sort::Sort;

impl<'a> Pending<'a> {
    /// On to something else.
    #[inline(always)]
    pub fn go(&mut self, control: Control<'a>)
        ensures state { state_of self.new ≡ at (control_of control.entry) (frames_of self.old.frames.items)
            self.old.locals.items self.old.depth }
    {
        self.control = control;
    }

    /// On to something else, inside a frame.
    #[inline(always)]
    pub fn inside(&mut self, frame: Frame<'a>, control: Control<'a>)
        requires { vec_len self.old.frames < vec_capacity self.old.frames }
        ensures { state_of self.new ≡
            at (control_of control.entry) (frame_of frame.entry ∷ frames_of self.old.frames.items) self.old.locals.items
            self.old.depth }
    {
        push(&mut self.frames, frame);
        self.control = control;
    }

    /// On to a value.
    #[inline(always)]
    pub fn gives(&mut self, v: Value)
        ensures { state_of self.new ≡ at (PlainGives v) (frames_of self.old.frames.items) self.old.locals.items
            self.old.depth }
    {
        self.go(Control::Gives(v))
    }

    /// On to the end of a statement.
    #[inline(always)]
    pub fn completes(&mut self, completion: Completion<Value>)
        ensures { state_of self.new ≡ at (PlainEnds completion) (frames_of self.old.frames.items) self.old.locals.items
            self.old.depth }
    {
        self.go(Control::Ends(completion))
    }

    /// On to an action.
    #[inline(always)]
    pub fn asks(&mut self, action: Action<Value>, sort: Sort)
        ensures { state_of self.new ≡ at (PlainAsks action sort) (frames_of self.old.frames.items) self.old.locals.items
            self.old.depth }
    {
        self.go(Control::Asks(action, sort))
    }

    /// On to an action on an object. If the object is null, it throws.
    #[inline(always)]
    pub fn asks_of(&mut self, object: u64, action: Action<Value>, sort: Sort)
        ensures { state_of self.new ≡
            at (thrown_on_null object (PlainAsks action sort)) (frames_of self.old.frames.items) self.old.locals.items
            self.old.depth }
    {
        if object == 0 {
            self.completes(Completion::Threw(Kind::NullPointer))
        } else {
            self.asks(action, sort)
        }
    }
}
