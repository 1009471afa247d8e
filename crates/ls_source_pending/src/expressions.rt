// One move of the work of an expression that begins.

ghost use Rattle.std.specs.Prelude.{◌≡◌, ◌<◌, ◌∷◌, [], vec_len, vec_capacity, map};
ghost use Rattle.ls_checked.specs.Plain.{plain, all_plain, plain_class};
ghost use Rattle.ls_source_pending.specs.Pending.{In, InItem, InAnd, InOr, InMade, ToMark, Asks as PlainAsks};
ghost use Rattle.ls_source_pending.specs.ExpressionMoves.{at, known, started, on_left, on_target, on_called, ready};
ghost use Rattle.ls_source_pending.specs.ExpressionMoves.{evaluating};
ghost use Rattle.ls_source_pending.specs.Seen.{operand_of, frames_of};
ghost use Rattle.ls_source_pending.specs.SeenPending.{state_of};

use crate::pending::Pending;
use crate::stack::push;
use crate::tables::{at_hand, known};
use crate::work::{Control, Frame, Operand, Purpose};
use ls_checked::tree::{Called, Class, Expression, Expressions, Operator};
use ls_events::action::Action;
use ls_events::value::ValueType;
use ls_meaning::sort::Sort;
use ls_source_store::value::value_at;
use std::alloc::Global;

// A function of Rattle clears the room of its locals when it begins. So the parts that hold frames are functions of
// their own, and a move clears no more than it needs.
impl<'a> Pending<'a> {
    /// An operand begins. The read of a field of an object at hand is asked for at once.
    pub fn start(&mut self, classes: &[Class], e: &'a Expression)
        ensures { state_of self.new ≡
            started (map plain_class classes.now) (plain e.now) (frames_of self.old.frames.items) self.old.locals.items
            self.old.depth }
    {
        match e {
            Expression::Field {
                target,
                class,
                field,
            } => match at_hand(&self.locals, target) {
                None => self.go(Control::Evaluates(e)),
                Some(v) => self.read_field(classes, *class, *field, v),
            },
            _ => self.go(Control::Evaluates(e)),
        }
    }

    /// An operand, before the rest of its expression.
    #[inline(always)]
    pub fn operand(&mut self, classes: &[Class], rest: Operand<'a>, e: &'a Expression)
        requires { vec_len self.old.frames < vec_capacity self.old.frames }
        ensures { state_of self.new ≡
            started (map plain_class classes.now) (plain e.now) (In (operand_of rest.entry) ∷
            frames_of self.old.frames.items) self.old.locals.items self.old.depth }
    {
        push(&mut self.frames, Frame::Operand(rest));
        self.start(classes, e)
    }

    // The read of a field, with its object if that is known.
    #[inline(always)]
    fn target(&mut self, classes: &[Class], class: usize, field: usize, e: &'a Expression)
        requires { vec_len self.old.frames < vec_capacity self.old.frames }
        ensures { state_of self.new ≡
            on_target (map plain_class classes.now) (known (plain e.now) self.old.locals.items) (plain e.now) class
            field (frames_of self.old.frames.items) self.old.locals.items self.old.depth }
    {
        match known(&self.locals, e) {
            None => self.operand(classes, Operand::Field(class, field), e),
            Some(v) => self.read_field(classes, class, field, v),
        }
    }

    // The array of an item.
    #[inline(always)]
    fn array(&mut self, classes: &[Class], e: &'a Expression, index: &'a Expression)
        requires { vec_len self.old.frames < vec_capacity self.old.frames }
        ensures { state_of self.new ≡
            started (map plain_class classes.now) (plain e.now) (In (InItem (plain index.now)) ∷
            frames_of self.old.frames.items) self.old.locals.items self.old.depth }
    {
        self.operand(classes, Operand::Item(index), e)
    }

    // An operator, with its left operand if that is known.
    #[inline(always)]
    fn left(&mut self, classes: &[Class], op: Operator, e: &'a Expression, right: &'a Expression)
        requires { vec_len self.old.frames < vec_capacity self.old.frames }
        ensures { state_of self.new ≡ on_left (map plain_class classes.now) (known (plain e.now) self.old.locals.items)
            op (plain e.now) (plain right.now) (frames_of self.old.frames.items) self.old.locals.items self.old.depth }
    {
        match known(&self.locals, e) {
            None => self.operand(classes, Operand::Left(op, right), e),
            Some(x) => self.right(classes, op, x, right),
        }
    }

    // The left operand of `&&`.
    #[inline(always)]
    fn left_of_and(&mut self, classes: &[Class], e: &'a Expression, right: &'a Expression)
        requires { vec_len self.old.frames < vec_capacity self.old.frames }
        ensures { state_of self.new ≡
            started (map plain_class classes.now) (plain e.now) (In (InAnd (plain right.now)) ∷
            frames_of self.old.frames.items) self.old.locals.items self.old.depth }
    {
        self.operand(classes, Operand::And(right), e)
    }

    // The left operand of `||`.
    #[inline(always)]
    fn left_of_or(&mut self, classes: &[Class], e: &'a Expression, right: &'a Expression)
        requires { vec_len self.old.frames < vec_capacity self.old.frames }
        ensures { state_of self.new ≡
            started (map plain_class classes.now) (plain e.now) (In (InOr (plain right.now)) ∷
            frames_of self.old.frames.items) self.old.locals.items self.old.depth }
    {
        self.operand(classes, Operand::Or(right), e)
    }

    // A call, with its object if that is known.
    #[inline(always)]
    fn object(
        &mut self,
        alloc: Global,
        classes: &[Class],
        e: &'a Expression,
        called: Called,
        all: &'a Expressions,
    )
        requires { vec_len self.old.frames < vec_capacity self.old.frames }
        ensures { state_of self.new ≡
            on_called (map plain_class classes.now) (known (plain e.now) self.old.locals.items) (plain e.now) called
            (all_plain all.now) (frames_of self.old.frames.items) self.old.locals.items self.old.depth }
    {
        match known(&self.locals, e) {
            None => self.operand(classes, Operand::Target(called, all), e),
            Some(o) => self.begin_call(alloc, classes, called, o, all),
        }
    }

    // The making of an object, before the arguments.
    #[inline(always)]
    fn make_object(&mut self, class: usize, all: &'a Expressions)
        requires { vec_len self.old.frames < vec_capacity self.old.frames }
        ensures { state_of self.new ≡ at (PlainAsks (Action.New class) (Sort.NewOf (ValueType.Class class)))
            (In (InMade class (all_plain all.now)) ∷ frames_of self.old.frames.items) self.old.locals.items
            self.old.depth }
    {
        self.inside(
            Frame::Operand(Operand::Made(class, all)),
            Control::Asks(Action::New(class), Sort::NewOf(ValueType::Class(class))),
        )
    }

    // The arguments of a markable.
    fn make_markable(
        &mut self,
        alloc: Global,
        classes: &[Class],
        class: usize,
        all: &'a Expressions,
    )
        requires { vec_len self.old.frames < vec_capacity self.old.frames }
        ensures { state_of self.new ≡ ready (map plain_class classes.now) (ToMark class) [] (all_plain all.now)
            (frames_of self.old.frames.items) self.old.locals.items self.old.depth }
    {
        self.ready(classes, Purpose::Mark(class), Vec::new(alloc), all)
    }

    /// An expression begins.
    pub fn evaluate(&mut self, alloc: Global, classes: &[Class], e: &'a Expression)
        requires { vec_len self.old.frames < vec_capacity self.old.frames }
        ensures { state_of self.new ≡
            evaluating (map plain_class classes.now) (plain e.now) (frames_of self.old.frames.items)
            self.old.locals.items self.old.depth }
    {
        match e {
            Expression::Literal(v) => self.gives(*v),
            Expression::Slot(n) => {
                let v = value_at(&self.locals, *n);
                self.gives(v)
            }
            Expression::Field {
                target,
                class,
                field,
            } => self.target(classes, *class, *field, target),
            Expression::Item(a, i) => self.array(classes, a, i),
            Expression::Negate(e) => self.operand(classes, Operand::Negate, e),
            Expression::Not(e) => self.operand(classes, Operand::Not, e),
            Expression::Binary(op, a, b) => self.left(classes, *op, a, b),
            Expression::And(a, b) => self.left_of_and(classes, a, b),
            Expression::Or(a, b) => self.left_of_or(classes, a, b),
            Expression::Call(e, m, es) => self.object(alloc, classes, e, *m, es),
            Expression::MakeObject(c, es) => self.make_object(*c, es),
            Expression::MakeLock => self.asks(Action::NewLock, Sort::NewOf(ValueType::Lock)),
            Expression::MakeMarkable(c, es) => self.make_markable(alloc, classes, *c, es),
            Expression::MakeArray(e) => self.operand(classes, Operand::Length, e),
        }
    }
}
