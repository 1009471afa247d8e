// One move of the work of a call, or of another expression with arguments.

ghost use Rattle.std.specs.Prelude.{◌≡◌, ◌<◌, ◌∷◌, ◌++◌, [], OnOk, OnErr, vec_len, vec_capacity, map};
ghost use Rattle.ls_checked.specs.Plain.{plain, all_plain, plain_class};
ghost use Rattle.ls_meaning.specs.Values.{truth_of, reference_of, pair_of};
ghost use Rattle.ls_meaning.specs.Expressions.{argument, constructor_of};
ghost use Rattle.ls_source_pending.specs.Pending.{In, InConstructor, Argues as PlainArgues, Asks as PlainAsks};
ghost use Rattle.ls_source_pending.specs.ExpressionMoves.{at, started, arguing, invoking, calling, applying, ready};
ghost use Rattle.ls_source_pending.specs.Seen.{purpose_of, operand_of, frame_of, frames_of};
ghost use Rattle.ls_source_pending.specs.SeenPending.{state_of};

use crate::pending::Pending;
use crate::stack::push;
use crate::tables::known;
use crate::work::{Control, Frame, Operand, Purpose};
use ls_checked::tree::{Called, Class, Expression, Expressions};
use ls_events::action::Action;
use ls_events::kind::Kind;
use ls_events::value::{Value, ValueType};
use ls_meaning::completion::Completion;
use ls_meaning::sort::Sort;
use ls_source_store::lookups::constructor_of;
use ls_source_store::value::{pair_of, reference_of, truth_of, value_at};
use std::alloc::AllocError;

// compareAndSet(expectedReference, newReference, expectedMark, newMark)
fn swap(markable: u64, values: &[Value]) -> Action<Value>
    ensures { result ≡ Action.SwapPair markable (pair_of (argument values.now 0) (argument values.now 2))
        (pair_of (argument values.now 1) (argument values.now 3)) }
{
    Action::SwapPair {
        markable,
        expected: pair_of(value_at(values, 0), value_at(values, 2)),
        new: pair_of(value_at(values, 1), value_at(values, 3)),
    }
}

// attemptMark(expectedReference, newMark)
fn attempt(markable: u64, values: &[Value]) -> Action<Value>
    ensures { result ≡ Action.AttemptMark markable (reference_of (argument values.now 0))
        (truth_of (argument values.now 1)) }
{
    Action::AttemptMark {
        markable,
        reference: reference_of(value_at(values, 0)),
        mark: truth_of(value_at(values, 1)),
    }
}

impl<'a> Pending<'a> {
    // A pair is read, for the rest of an expression.
    fn read_pair(&mut self, rest: Operand<'a>, markable: u64, class: usize)
        requires { vec_len self.old.frames < vec_capacity self.old.frames }
        ensures { state_of self.new ≡
            at (PlainAsks (Action.ReadPair markable) (Sort.PairOf class)) (In (operand_of rest.entry) ∷
            frames_of self.old.frames.items) self.old.locals.items self.old.depth }
    {
        self.inside(
            Frame::Operand(rest),
            Control::Asks(Action::ReadPair(markable), Sort::PairOf(class)),
        )
    }

    // An argument with a known value. A refusal leaves what was to be done.
    fn put_known(
        &mut self,
        purpose: Purpose,
        before: Vec<Value>,
        v: Value,
        left: &'a Expressions,
        all: &'a Expressions,
    ) -> Result<(), AllocError>
        ensures ok { OnOk result
            (state_of self.new ≡ at (PlainArgues (purpose_of purpose) (before.items ++ v ∷ []) (all_plain left.now))
            (frames_of self.old.frames.items) self.old.locals.items self.old.depth) }
        ensures err { OnErr result
            (state_of self.new ≡ at (PlainArgues (purpose_of purpose) before.items (all_plain all.now))
            (frames_of self.old.frames.items) self.old.locals.items self.old.depth) }
    {
        let mut before = before;
        match before.push(v) {
            Ok(()) => {
                self.go(Control::Argues(purpose, before, left));
                Ok(())
            }
            Err(_) => {
                self.go(Control::Argues(purpose, before, all));
                Err(AllocError)
            }
        }
    }

    /// A method is to be entered, if the depth allows it.
    pub fn invoke(&mut self, method: usize, o: Value, values: Vec<Value>)
        ensures { state_of self.new ≡ invoking method (o ∷ values.items) (frames_of self.old.frames.items)
            self.old.locals.items self.old.depth }
    {
        if self.depth == 0 {
            self.completes(Completion::Threw(Kind::StackOverflow))
        } else {
            self.go(Control::Enters(method, o, values))
        }
    }

    // A call on an object that isn't null.
    fn call(&mut self, called: Called, o: Value, values: Vec<Value>)
        requires { vec_len self.old.frames < vec_capacity self.old.frames }
        ensures { state_of self.new ≡ calling called o values.items (frames_of self.old.frames.items)
            self.old.locals.items self.old.depth }
    {
        let n = reference_of(o);
        let boolean = Sort::ValueOf(ValueType::Boolean);
        match called {
            Called::Method(m) => self.invoke(m, o, values),
            Called::LockIt => self.asks(Action::Lock(n), Sort::NoValue),
            Called::UnlockIt => self.asks(Action::Unlock(n), Sort::NoValue),
            Called::TryIt => self.asks(Action::TryLock(n), boolean),
            Called::AskIt => self.asks(Action::IsHeld(n), boolean),
            Called::HoldMonitor(_) => self.asks(Action::LockMonitor(n), Sort::NoValue),
            Called::FreeMonitor(_) => self.asks(Action::UnlockMonitor(n), Sort::NoValue),
            Called::GetReference(c) => self.read_pair(Operand::Reference, n, c),
            Called::IsMarked(c) => self.read_pair(Operand::Mark, n, c),
            Called::GetBoth(c) => {
                let array = reference_of(value_at(&values, 0));
                self.read_pair(Operand::Both(array), n, c)
            }
            Called::SetBoth => {
                let pair = pair_of(value_at(&values, 0), value_at(&values, 1));
                self.asks(Action::SetPair(n, pair), Sort::NoValue)
            }
            Called::CompareAndSet => self.asks(swap(n, &values), boolean),
            Called::Attempt => self.asks(attempt(n, &values), boolean),
        }
    }

    // The constructor of a new object.
    fn construct(&mut self, classes: &[Class], class: usize, o: Value, values: Vec<Value>)
        requires { vec_len self.old.frames < vec_capacity self.old.frames }
        ensures { state_of self.new ≡ invoking (constructor_of (map plain_class classes.now) class) (o ∷ values.items)
            (In (InConstructor o) ∷ frames_of self.old.frames.items) self.old.locals.items self.old.depth }
    {
        push(&mut self.frames, Frame::Operand(Operand::Constructor(o)));
        self.invoke(constructor_of(classes, class), o, values)
    }

    /// The use of arguments.
    pub fn apply(&mut self, classes: &[Class], purpose: Purpose, values: Vec<Value>)
        requires { vec_len self.old.frames < vec_capacity self.old.frames }
        ensures { state_of self.new ≡ applying (map plain_class classes.now) (purpose_of purpose) values.items
            (frames_of self.old.frames.items) self.old.locals.items self.old.depth }
    {
        match purpose {
            Purpose::Call(called, o) => {
                if reference_of(o) == 0 {
                    self.completes(Completion::Threw(Kind::NullPointer))
                } else {
                    self.call(called, o, values)
                }
            }
            Purpose::Make(c, o) => self.construct(classes, c, o, values),
            Purpose::Mark(c) => {
                let pair = pair_of(value_at(&values, 0), value_at(&values, 1));
                self.asks(
                    Action::NewMarkable(pair),
                    Sort::NewOf(ValueType::Markable(c)),
                )
            }
        }
    }

    /// The use of arguments, if none is left. Else the next is to be evaluated.
    #[inline(always)]
    pub fn ready(
        &mut self,
        classes: &[Class],
        purpose: Purpose,
        values: Vec<Value>,
        left: &'a Expressions,
    )
        requires { vec_len self.old.frames < vec_capacity self.old.frames }
        ensures { state_of self.new ≡ ready (map plain_class classes.now) (purpose_of purpose) values.items
            (all_plain left.now) (frames_of self.old.frames.items) self.old.locals.items self.old.depth }
    {
        match left {
            Expressions::End => self.apply(classes, purpose, values),
            Expressions::More(_, _) => self.go(Control::Argues(purpose, values, left)),
        }
    }

    // An argument, before those after it.
    #[inline(always)]
    fn wait_for_argument(&mut self, classes: &[Class], rest: Frame<'a>, e: &'a Expression)
        requires { vec_len self.old.frames < vec_capacity self.old.frames }
        ensures { state_of self.new ≡
            started (map plain_class classes.now) (plain e.now) (frame_of rest.entry ∷ frames_of self.old.frames.items)
            self.old.locals.items self.old.depth }
    {
        push(&mut self.frames, rest);
        self.start(classes, e)
    }

    /// The next argument, with its value if that is known; or else the use of the arguments. A refusal leaves what was
    /// to be done.
    pub fn argue(
        &mut self,
        classes: &[Class],
        purpose: Purpose,
        values: Vec<Value>,
        left: &'a Expressions,
    ) -> Result<(), AllocError>
        requires { vec_len self.old.frames < vec_capacity self.old.frames }
        ensures ok { OnOk result
            (state_of self.new ≡ arguing (map plain_class classes.now) (purpose_of purpose) values.items
            (all_plain left.now) (frames_of self.old.frames.items) self.old.locals.items self.old.depth) }
        ensures err { OnErr result
            (state_of self.new ≡ at (PlainArgues (purpose_of purpose) values.items (all_plain left.now))
            (frames_of self.old.frames.items) self.old.locals.items self.old.depth) }
    {
        match left {
            Expressions::End => self.apply(classes, purpose, values),
            Expressions::More(e, es) => match known(&self.locals, e) {
                None => self.wait_for_argument(classes, Frame::Argument(purpose, values, es), e),
                Some(v) => return self.put_known(purpose, values, v, es, left),
            },
        }
        Ok(())
    }
}
