// One move of the work of a statement.

ghost use Rattle.std.specs.Prelude.{◌≡◌, ◌<◌, ◌+◌, ◌∷◌, vec_len, vec_capacity, slice_set, map, if◌then◌else◌};
ghost use Rattle.ls_checked.specs.Plain.{plain, plain_statement, plain_class};
ghost use Rattle.ls_meaning.specs.Values.{int_of, reference_of, truth_of};
ghost use Rattle.ls_source_pending.specs.Pending.{On, Up, ToNothing, ToAddend, ToTest, OfBody, OfTry};
ghost use Rattle.ls_source_pending.specs.Pending.{Asks as PlainAsks, Evaluates as PlainEvaluates};
ghost use Rattle.ls_source_pending.specs.ExpressionMoves.{at, known, thrown_on_null, evaluating};
ghost use Rattle.ls_source_pending.specs.Moves.{on_written, entering, ending, waited, going_on, going_further};
ghost use Rattle.ls_source_pending.specs.Moves.{executing};
ghost use Rattle.ls_source_pending.specs.Seen.{waiting_of, frames_of};
ghost use Rattle.ls_source_pending.specs.SeenPending.{state_of};

use crate::endings::{end_anyhow, end_normally, enter, run};
use ls_checked::tree::{Class, Expression, Operator, Statement};
use ls_events::action::Action;
use ls_events::value::{Value, ValueType};
use ls_meaning::completion::Completion;
use ls_meaning::sort::Sort;
use ls_source_pending::pending::Pending;
use ls_source_pending::stack::push;
use ls_source_pending::tables::known;
use ls_source_pending::work::{Control, Ending, Frame, Waiting};
use ls_source_store::value::{int_of, operated, reference_of, truth_of};
use std::alloc::Global;

// The rest of a statement waits for a value, whose evaluation is the next move.
#[inline(always)]
fn put_off<'a>(pending: &mut Pending<'a>, rest: Waiting<'a>, e: &'a Expression)
    requires { vec_len pending.old.frames < vec_capacity pending.old.frames }
    ensures { state_of pending.new ≡
        at (PlainEvaluates (plain e.now)) (On (waiting_of rest.entry) ∷ frames_of pending.old.frames.items)
        pending.old.locals.items pending.old.depth }
{
    pending.inside(Frame::Waiting(rest), Control::Evaluates(e))
}

// The rest of a statement waits for a value, whose evaluation begins.
#[inline(always)]
fn wait<'a>(
    pending: &mut Pending<'a>,
    alloc: Global,
    classes: &[Class],
    rest: Waiting<'a>,
    e: &'a Expression,
)
    requires { vec_len pending.old.frames + 1 < vec_capacity pending.old.frames }
    ensures { state_of pending.new ≡
        evaluating (map plain_class classes.now) (plain e.now) (On (waiting_of rest.entry) ∷
        frames_of pending.old.frames.items) pending.old.locals.items pending.old.depth }
{
    push(&mut pending.frames, Frame::Waiting(rest));
    pending.evaluate(alloc, classes, e)
}

// The write of a field.
#[inline(always)]
fn write_field<'a>(pending: &mut Pending<'a>, o: Value, field: usize, value: Value)
    requires { vec_len pending.old.frames < vec_capacity pending.old.frames }
    ensures { state_of pending.new ≡
        at (thrown_on_null (reference_of o) (PlainAsks (Action.WriteField (reference_of o) field value) Sort.NoValue))
        (On ToNothing ∷ frames_of pending.old.frames.items) pending.old.locals.items pending.old.depth }
{
    let object = reference_of(o);
    let action = Action::WriteField {
        object,
        field,
        value,
    };
    push(&mut pending.frames, Frame::Waiting(Waiting::Nothing));
    pending.asks_of(object, action, Sort::NoValue)
}

// The read of a field that is added to.
fn read_counter<'a>(pending: &mut Pending<'a>, o: Value, field: usize, addend: &'a Expression)
    requires { vec_len pending.old.frames < vec_capacity pending.old.frames }
    ensures { state_of pending.new ≡
        at (thrown_on_null (reference_of o)
        (PlainAsks (Action.ReadField (reference_of o) field) (Sort.ValueOf ValueType.Int)))
        (On (ToAddend o field (plain addend.now)) ∷ frames_of pending.old.frames.items) pending.old.locals.items
        pending.old.depth }
{
    let object = reference_of(o);
    push(
        &mut pending.frames,
        Frame::Waiting(Waiting::Addend(o, field, addend)),
    );
    pending.asks_of(
        object,
        Action::ReadField { object, field },
        Sort::ValueOf(ValueType::Int),
    )
}

// The write of an item.
fn write_item<'a>(pending: &mut Pending<'a>, o: Value, n: Value, value: Value)
    requires { vec_len pending.old.frames < vec_capacity pending.old.frames }
    ensures { state_of pending.new ≡
        at (thrown_on_null (reference_of o)
        (PlainAsks (Action.WriteItem (reference_of o) (int_of n) value) Sort.NoValue))
        (On ToNothing ∷ frames_of pending.old.frames.items) pending.old.locals.items pending.old.depth }
{
    let array = reference_of(o);
    let action = Action::WriteItem {
        array,
        index: int_of(n),
        value,
    };
    push(&mut pending.frames, Frame::Waiting(Waiting::Nothing));
    pending.asks_of(array, action, Sort::NoValue)
}

// A local is written.
#[inline(always)]
fn write_local<'a>(pending: &mut Pending<'a>, n: usize, v: Value)
    requires { vec_len pending.old.frames < vec_capacity pending.old.frames }
    ensures { state_of pending.new ≡
        ending Completion.Normal (frames_of pending.old.frames.items) (slice_set pending.old.locals.items n v)
        pending.old.depth }
{
    if n < pending.locals.len() {
        pending.locals[n] = v;
    }
    end_normally(pending)
}

// The first or the second statement of an `if`.
#[inline(always)]
fn branch<'a>(pending: &mut Pending<'a>, v: Value, a: &'a Statement, b: &'a Statement)
    requires { vec_len pending.old.frames < vec_capacity pending.old.frames }
    ensures { state_of pending.new ≡ entering (if truth_of v then plain_statement a.now else plain_statement b.now)
        (frames_of pending.old.frames.items) pending.old.locals.items pending.old.depth }
{
    let s = if truth_of(v) { a } else { b };
    enter(pending, s)
}

// The body of a loop.
#[inline(always)]
fn body<'a>(pending: &mut Pending<'a>, e: &'a Expression, s: &'a Statement)
    requires { vec_len pending.old.frames + 1 < vec_capacity pending.old.frames }
    ensures { state_of pending.new ≡
        entering (plain_statement s.now) (Up (OfBody (plain e.now) (plain_statement s.now)) ∷
        frames_of pending.old.frames.items) pending.old.locals.items pending.old.depth }
{
    push(&mut pending.frames, Frame::Ending(Ending::Body(e, s)));
    enter(pending, s)
}

// The block of a `try`.
fn guard<'a>(pending: &mut Pending<'a>, b: &'a Statement, f: &'a Statement)
    requires { vec_len pending.old.frames + 1 < vec_capacity pending.old.frames }
    ensures { state_of pending.new ≡
        entering (plain_statement b.now) (Up (OfTry (plain_statement f.now)) ∷ frames_of pending.old.frames.items)
        pending.old.locals.items pending.old.depth }
{
    push(&mut pending.frames, Frame::Ending(Ending::Try(f)));
    enter(pending, b)
}

// The value that a statement waits for.
#[inline(always)]
fn go_on<'a>(pending: &mut Pending<'a>, f: Waiting<'a>, v: Value)
    requires { vec_len pending.old.frames + 1 < vec_capacity pending.old.frames }
    ensures { state_of pending.new ≡ going_on (waiting_of f.entry) v (frames_of pending.old.frames.items)
        pending.old.locals.items pending.old.depth }
{
    match f {
        Waiting::Slot(n) => write_local(pending, n, v),
        Waiting::Target(f, e) => put_off(pending, Waiting::Field(v, f), e),
        Waiting::Field(o, field) => write_field(pending, o, field, v),
        Waiting::Counter(f, e) => read_counter(pending, v, f, e),
        Waiting::Addend(o, f, e) => put_off(pending, Waiting::Sum(o, f, v), e),
        Waiting::Sum(o, f, x) => write_field(pending, o, f, operated(Operator::Add, x, v)),
        Waiting::Array(i, e) => put_off(pending, Waiting::Index(v, e), i),
        Waiting::Index(o, e) => put_off(pending, Waiting::Item(o, v), e),
        Waiting::Item(o, n) => write_item(pending, o, n, v),
        Waiting::Nothing => end_normally(pending),
        Waiting::If(a, b) => branch(pending, v, a, b),
        Waiting::Test(e, s) => {
            if truth_of(v) {
                body(pending, e, s)
            } else {
                end_normally(pending)
            }
        }
        Waiting::Return => end_anyhow(pending, Completion::Returned(Some(v))),
    }
}

// The rest of a statement waits for a value. If that is known, the statement goes on with it.
#[inline(always)]
fn wait_or_go<'a>(
    pending: &mut Pending<'a>,
    alloc: Global,
    classes: &[Class],
    rest: Waiting<'a>,
    e: &'a Expression,
)
    requires { vec_len pending.old.frames + 1 < vec_capacity pending.old.frames }
    ensures { state_of pending.new ≡ waited (map plain_class classes.now) (known (plain e.now) pending.old.locals.items)
        (waiting_of rest.entry) (plain e.now) (frames_of pending.old.frames.items) pending.old.locals.items
        pending.old.depth }
{
    match known(&pending.locals, e) {
        None => wait(pending, alloc, classes, rest, e),
        Some(v) => go_on(pending, rest, v),
    }
}

// The write of a field begins, with its object if that is known.
#[inline(always)]
fn target_of_write<'a>(
    pending: &mut Pending<'a>,
    alloc: Global,
    classes: &[Class],
    e: &'a Expression,
    field: usize,
    value: &'a Expression,
)
    requires { vec_len pending.old.frames + 1 < vec_capacity pending.old.frames }
    ensures { state_of pending.new ≡
        on_written (map plain_class classes.now) (known (plain e.now) pending.old.locals.items) (plain e.now) field
        (plain value.now) (frames_of pending.old.frames.items) pending.old.locals.items pending.old.depth }
{
    match known(&pending.locals, e) {
        None => wait(pending, alloc, classes, Waiting::Target(field, value), e),
        Some(o) => wait_or_go(pending, alloc, classes, Waiting::Field(o, field), value),
    }
}

/// The value that a statement waits for, and the next one if that is known.
pub fn go_further<'a>(
    pending: &mut Pending<'a>,
    alloc: Global,
    classes: &[Class],
    f: Waiting<'a>,
    v: Value,
)
    requires { vec_len pending.old.frames + 1 < vec_capacity pending.old.frames }
    ensures { state_of pending.new ≡ going_further (map plain_class classes.now) (waiting_of f.entry) v
        (frames_of pending.old.frames.items) pending.old.locals.items pending.old.depth }
{
    match f {
        Waiting::Target(f, e) => wait_or_go(pending, alloc, classes, Waiting::Field(v, f), e),
        Waiting::Addend(o, f, e) => wait_or_go(pending, alloc, classes, Waiting::Sum(o, f, v), e),
        Waiting::Array(i, e) => wait_or_go(pending, alloc, classes, Waiting::Index(v, e), i),
        Waiting::Index(o, e) => wait_or_go(pending, alloc, classes, Waiting::Item(o, v), e),
        f => go_on(pending, f, v),
    }
}

/// A loop, from its condition on.
#[inline(always)]
pub fn loops<'a>(
    pending: &mut Pending<'a>,
    alloc: Global,
    classes: &[Class],
    e: &'a Expression,
    s: &'a Statement,
)
    requires { vec_len pending.old.frames + 1 < vec_capacity pending.old.frames }
    ensures { state_of pending.new ≡ waited (map plain_class classes.now) (known (plain e.now) pending.old.locals.items)
        (ToTest (plain e.now) (plain_statement s.now)) (plain e.now) (frames_of pending.old.frames.items)
        pending.old.locals.items pending.old.depth }
{
    wait_or_go(pending, alloc, classes, Waiting::Test(e, s), e)
}

/// A statement begins.
#[tactic(auto, using(crate::proofs::Blocks::block_read))]
pub fn execute<'a>(pending: &mut Pending<'a>, alloc: Global, classes: &[Class], s: &'a Statement)
    requires { vec_len pending.old.frames + 1 < vec_capacity pending.old.frames }
    ensures { state_of pending.new ≡ executing (map plain_class classes.now) (plain_statement s.now)
        (frames_of pending.old.frames.items) pending.old.locals.items pending.old.depth }
{
    match s {
        Statement::Block(ss) => run(pending, ss),
        Statement::SetSlot(n, e) => wait_or_go(pending, alloc, classes, Waiting::Slot(*n), e),
        Statement::SetField {
            target,
            field,
            value,
        } => target_of_write(pending, alloc, classes, target, *field, value),
        Statement::AddField {
            target,
            field,
            value,
        } => wait_or_go(
            pending,
            alloc,
            classes,
            Waiting::Counter(*field, value),
            target,
        ),
        Statement::SetItem {
            array,
            index,
            value,
        } => wait_or_go(pending, alloc, classes, Waiting::Array(index, value), array),
        Statement::Evaluate(e) => wait(pending, alloc, classes, Waiting::Nothing, e),
        Statement::If(e, a, b) => wait_or_go(pending, alloc, classes, Waiting::If(a, b), e),
        Statement::While(e, s) => wait_or_go(pending, alloc, classes, Waiting::Test(e, s), e),
        Statement::Break(n) => end_anyhow(pending, Completion::Broke(*n)),
        Statement::Continue(n) => end_anyhow(pending, Completion::Continued(*n)),
        Statement::ReturnNothing => end_anyhow(pending, Completion::Returned(None)),
        Statement::ReturnValue(e) => wait_or_go(pending, alloc, classes, Waiting::Return, e),
        Statement::Try(b, f) => guard(pending, b, f),
    }
}
