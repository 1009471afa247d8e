// One move of the work of an expression whose operand has its value.

ghost use Rattle.std.specs.Prelude.{◌≡◌, ◌<◌, ◌∷◌, ◌++◌, [], pos, int_lt, true, false, if◌then◌else◌, OnOk, OnErr};
ghost use Rattle.std.specs.Prelude.{vec_len, vec_capacity, map};
ghost use Rattle.ls_checked.specs.Plain.{plain, all_plain, plain_class};
ghost use Rattle.ls_meaning.specs.Values.{int_of, truth_of, reference_of, mark_of, operated, divides_by_zero};
ghost use Rattle.ls_meaning.specs.Expressions.{field_of};
ghost use Rattle.ls_source_pending.specs.Pending.{In, InIndex, InWritten, InArgument, ToCall, ToMake};
ghost use Rattle.ls_source_pending.specs.Pending.{Gives as PlainGives, Evaluates as PlainEvaluates};
ghost use Rattle.ls_source_pending.specs.Pending.{Argues as PlainArgues, Asks as PlainAsks, Ends as PlainEnds};
ghost use Rattle.ls_source_pending.specs.ExpressionMoves.{at, known, started, on_right, ready, thrown_on_null, filling};
ghost use Rattle.ls_source_pending.specs.Seen.{purpose_of, operand_of, frames_of};
ghost use Rattle.ls_source_pending.specs.SeenPending.{state_of};

use crate::pending::Pending;
use crate::stack::push;
use crate::tables::known;
use crate::work::{Control, Frame, Operand, Purpose};
use ls_checked::tree::{Called, Class, Expression, Expressions, Operator};
use ls_events::action::Action;
use ls_events::kind::Kind;
use ls_events::value::{Value, ValueType};
use ls_meaning::completion::Completion;
use ls_meaning::sort::Sort;
use ls_source_store::lookups::field_of;
use ls_source_store::value::{
    divides_by_zero, int_of, mark_of, negated, operated, reference_of, truth_of,
};
use std::alloc::{AllocError, Global};

impl<'a> Pending<'a> {
    /// The read of a field.
    pub fn read_field(&mut self, classes: &[Class], class: usize, field: usize, v: Value)
        ensures { state_of self.new ≡
            at (thrown_on_null (reference_of v)
            (PlainAsks (Action.ReadField (reference_of v) field) (field_of (map plain_class classes.now) class field)))
            (frames_of self.old.frames.items) self.old.locals.items self.old.depth }
    {
        let object = reference_of(v);
        let sort = field_of(classes, class, field);
        self.asks_of(object, Action::ReadField { object, field }, sort)
    }

    // The index of an item.
    #[inline(always)]
    fn index(&mut self, classes: &[Class], array: Value, e: &'a Expression)
        requires { vec_len self.old.frames < vec_capacity self.old.frames }
        ensures { state_of self.new ≡
            started (map plain_class classes.now) (plain e.now) (In (InIndex array) ∷ frames_of self.old.frames.items)
            self.old.locals.items self.old.depth }
    {
        self.operand(classes, Operand::Index(array), e)
    }

    // The read of an item.
    fn read_item(&mut self, o: Value, n: Value)
        ensures { state_of self.new ≡
            at (thrown_on_null (reference_of o)
            (PlainAsks (Action.ReadItem (reference_of o) (int_of n)) (Sort.ValueOf ValueType.Boolean)))
            (frames_of self.old.frames.items) self.old.locals.items self.old.depth }
    {
        let array = reference_of(o);
        let index = int_of(n);
        let sort = Sort::ValueOf(ValueType::Boolean);
        self.asks_of(array, Action::ReadItem { array, index }, sort)
    }

    // The making of an array of a length.
    fn make_array(&mut self, length: Value)
        ensures { state_of self.new ≡
            at (if int_lt (int_of length) (pos 0) then PlainEnds (Completion.Threw Kind.NegativeArraySize)
            else PlainAsks (Action.NewArray (int_of length)) (Sort.NewOf ValueType.BooleanArray))
            (frames_of self.old.frames.items) self.old.locals.items self.old.depth }
    {
        let n = int_of(length);
        if n < 0 {
            self.completes(Completion::Threw(Kind::NegativeArraySize))
        } else {
            self.asks(Action::NewArray(n), Sort::NewOf(ValueType::BooleanArray))
        }
    }

    /// An operator whose left operand has its value, with the right operand if that is known.
    #[inline(always)]
    pub fn right(&mut self, classes: &[Class], op: Operator, left: Value, e: &'a Expression)
        requires { vec_len self.old.frames < vec_capacity self.old.frames }
        ensures { state_of self.new ≡ on_right (map plain_class classes.now) (known (plain e.now) self.old.locals.items)
            op left (plain e.now) (frames_of self.old.frames.items) self.old.locals.items self.old.depth }
    {
        match known(&self.locals, e) {
            None => self.operand(classes, Operand::Right(op, left), e),
            Some(v) => self.compute(op, left, v),
        }
    }

    // What an operator computes, or the exception of a division by 0.
    #[inline(always)]
    fn compute(&mut self, op: Operator, x: Value, y: Value)
        ensures { state_of self.new ≡
            at (if divides_by_zero op y then PlainEnds (Completion.Threw Kind.Arithmetic)
            else PlainGives (operated op x y)) (frames_of self.old.frames.items) self.old.locals.items self.old.depth }
    {
        if divides_by_zero(op, y) {
            self.completes(Completion::Threw(Kind::Arithmetic))
        } else {
            self.gives(operated(op, x, y))
        }
    }

    // `&&` after its left operand.
    #[inline(always)]
    fn right_of_and(&mut self, left: Value, right: &'a Expression)
        ensures { state_of self.new ≡
            at (if truth_of left then PlainEvaluates (plain right.now) else PlainGives (Value.Boolean false))
            (frames_of self.old.frames.items) self.old.locals.items self.old.depth }
    {
        if truth_of(left) {
            self.go(Control::Evaluates(right))
        } else {
            self.gives(Value::Boolean(false))
        }
    }

    // `||` after its left operand.
    #[inline(always)]
    fn right_of_or(&mut self, left: Value, right: &'a Expression)
        ensures { state_of self.new ≡
            at (if truth_of left then PlainGives (Value.Boolean true) else PlainEvaluates (plain right.now))
            (frames_of self.old.frames.items) self.old.locals.items self.old.depth }
    {
        if truth_of(left) {
            self.gives(Value::Boolean(true))
        } else {
            self.go(Control::Evaluates(right))
        }
    }

    /// The arguments of a call.
    pub fn begin_call(
        &mut self,
        alloc: Global,
        classes: &[Class],
        called: Called,
        o: Value,
        all: &'a Expressions,
    )
        requires { vec_len self.old.frames < vec_capacity self.old.frames }
        ensures { state_of self.new ≡ ready (map plain_class classes.now) (ToCall called o) [] (all_plain all.now)
            (frames_of self.old.frames.items) self.old.locals.items self.old.depth }
    {
        self.ready(classes, Purpose::Call(called, o), Vec::new(alloc), all)
    }

    // The arguments of a constructor.
    fn begin_make(
        &mut self,
        alloc: Global,
        classes: &[Class],
        class: usize,
        o: Value,
        all: &'a Expressions,
    )
        requires { vec_len self.old.frames < vec_capacity self.old.frames }
        ensures { state_of self.new ≡ ready (map plain_class classes.now) (ToMake class o) [] (all_plain all.now)
            (frames_of self.old.frames.items) self.old.locals.items self.old.depth }
    {
        self.ready(classes, Purpose::Make(class, o), Vec::new(alloc), all)
    }

    // The write of a pair's mark to element 0.
    fn write_mark(&mut self, array: u64, pair: Value)
        requires { vec_len self.old.frames < vec_capacity self.old.frames }
        ensures { state_of self.new ≡
            at (thrown_on_null array
            (PlainAsks (Action.WriteItem array (pos 0) (Value.Boolean (mark_of pair))) Sort.NoValue))
            (In (InWritten pair) ∷ frames_of self.old.frames.items) self.old.locals.items self.old.depth }
    {
        let action = Action::WriteItem {
            array,
            index: 0,
            value: Value::Boolean(mark_of(pair)),
        };
        push(&mut self.frames, Frame::Operand(Operand::Written(pair)));
        self.asks_of(array, action, Sort::NoValue)
    }

    /// The value of an argument. A refusal puts the frame back.
    pub fn put(
        &mut self,
        purpose: Purpose,
        before: Vec<Value>,
        left: &'a Expressions,
        v: Value,
    ) -> Result<(), AllocError>
        requires { vec_len self.old.frames < vec_capacity self.old.frames }
        ensures ok { OnOk result
            (state_of self.new ≡ at (PlainArgues (purpose_of purpose) (before.items ++ v ∷ []) (all_plain left.now))
            (frames_of self.old.frames.items) self.old.locals.items self.old.depth) }
        ensures err { OnErr result
            (state_of self.new ≡
            at (PlainGives v) (In (InArgument (purpose_of purpose) before.items (all_plain left.now)) ∷
            frames_of self.old.frames.items) self.old.locals.items self.old.depth) }
    {
        let mut before = before;
        match before.push(v) {
            Ok(()) => {
                self.go(Control::Argues(purpose, before, left));
                Ok(())
            }
            Err(_) => {
                self.inside(Frame::Argument(purpose, before, left), Control::Gives(v));
                Err(AllocError)
            }
        }
    }

    /// The value of an operand.
    pub fn fill(&mut self, alloc: Global, classes: &[Class], f: Operand<'a>, v: Value)
        requires { vec_len self.old.frames < vec_capacity self.old.frames }
        ensures { state_of self.new ≡
            filling (map plain_class classes.now) (operand_of f.entry) v (frames_of self.old.frames.items)
            self.old.locals.items self.old.depth }
    {
        match f {
            Operand::Field(class, field) => self.read_field(classes, class, field, v),
            Operand::Item(i) => self.index(classes, v, i),
            Operand::Index(o) => self.read_item(o, v),
            Operand::Negate => self.gives(negated(v)),
            Operand::Not => self.gives(Value::Boolean(!truth_of(v))),
            Operand::Length => self.make_array(v),
            Operand::Left(op, b) => self.right(classes, op, v, b),
            Operand::Right(op, x) => self.compute(op, x, v),
            Operand::And(b) => self.right_of_and(v, b),
            Operand::Or(b) => self.right_of_or(v, b),
            Operand::Target(m, es) => self.begin_call(alloc, classes, m, v, es),
            Operand::Made(c, es) => self.begin_make(alloc, classes, c, v, es),
            Operand::Constructor(o) => self.gives(o),
            Operand::Reference => self.gives(Value::Reference(reference_of(v))),
            Operand::Mark => self.gives(Value::Boolean(mark_of(v))),
            Operand::Both(array) => self.write_mark(array, v),
            Operand::Written(pair) => self.gives(Value::Reference(reference_of(pair))),
        }
    }
}
