// The end of a part of a statement, which goes to the innermost frame.

ghost use Rattle.std.specs.Prelude.{◌≡◌, ◌<◌, ◌∷◌, vec_len, vec_capacity};
ghost use Rattle.ls_checked.specs.CheckedTree.{Then};
ghost use Rattle.ls_checked.specs.Plain.{plain, plain_statement, statements_of};
ghost use Rattle.ls_source_pending.specs.Pending.{Up, OfFinally, Executes as PlainExecutes, Ends as PlainEnds};
ghost use Rattle.ls_source_pending.specs.ExpressionMoves.{at};
ghost use Rattle.ls_source_pending.specs.Moves.{running, entering, if_normal, after_loop, leaving, behind, closing};
ghost use Rattle.ls_source_pending.specs.Moves.{ending};
ghost use Rattle.ls_source_pending.specs.Seen.{ending_of, frames_of, control_of};
ghost use Rattle.ls_source_pending.specs.SeenPending.{state_of};

use ls_checked::tree::{Expression, Statement};
use ls_events::value::{Value, ValueType};
use ls_meaning::completion::Completion;
use ls_source_pending::pending::Pending;
use ls_source_pending::stack::pop;
use ls_source_pending::tables::answer_without;
use ls_source_pending::work::{Control, Ending, Frame};

// What goes on after a normal completion.
#[inline(always)]
fn if_normal<'a>(completion: Completion<Value>, control: Control<'a>) -> Control<'a>
    ensures { control_of result ≡ if_normal completion (control_of control.entry) }
{
    match completion {
        Completion::Normal => control,
        completion => Control::Ends(completion),
    }
}

// What goes on after the body of a loop.
#[inline(always)]
fn after_loop<'a>(completion: Completion<Value>, e: &'a Expression, s: &'a Statement) -> Control<'a>
    ensures { control_of result ≡ after_loop completion (plain e.now) (plain_statement s.now) }
{
    match completion {
        Completion::Normal | Completion::Continued(0) => Control::Turns(e, s),
        Completion::Continued(n) => Control::Ends(Completion::Continued(n - 1)),
        Completion::Broke(0) => Control::Ends(Completion::Normal),
        Completion::Broke(n) => Control::Ends(Completion::Broke(n - 1)),
        Completion::Returned(v) => Control::Ends(Completion::Returned(v)),
        Completion::Threw(kind) => Control::Ends(Completion::Threw(kind)),
    }
}

// What goes on after the body of a method.
#[inline(always)]
fn left_by<'a>(answered: Option<ValueType>, completion: Completion<Value>) -> Control<'a>
    ensures { control_of result ≡ leaving answered completion }
{
    match completion {
        Completion::Returned(Some(v)) => Control::Gives(v),
        Completion::Threw(kind) => Control::Ends(Completion::Threw(kind)),
        _ => Control::Gives(answer_without(answered)),
    }
}

// The first statement of a block that has one. The last needs no frame.
#[inline(always)]
fn first<'a>(pending: &mut Pending<'a>, s: &'a Statement, rest: &'a [Statement])
    requires { vec_len pending.old.frames < vec_capacity pending.old.frames }
    ensures { state_of pending.new ≡ running (Then (plain_statement s.now) (statements_of rest.now))
        (frames_of pending.old.frames.items) pending.old.locals.items pending.old.depth }
{
    match rest {
        [] => pending.go(Control::Executes(s)),
        [_, ..] => pending.inside(Frame::Ending(Ending::Sequence(rest)), Control::Executes(s)),
    }
}

/// The next statement, or the end.
#[inline(always)]
pub fn run<'a>(pending: &mut Pending<'a>, ss: &'a [Statement])
    requires { vec_len pending.old.frames < vec_capacity pending.old.frames }
    ensures { state_of pending.new ≡ running (statements_of ss.now) (frames_of pending.old.frames.items)
        pending.old.locals.items pending.old.depth }
{
    match ss {
        [] => pending.completes(Completion::Normal),
        [s, rest @ ..] => first(pending, s, rest),
    }
}

/// A statement begins. The first statement of a block begins at once.
#[tactic(auto, using(crate::proofs::Blocks::block_read))]
pub fn enter<'a>(pending: &mut Pending<'a>, s: &'a Statement)
    requires { vec_len pending.old.frames < vec_capacity pending.old.frames }
    ensures { state_of pending.new ≡ entering (plain_statement s.now) (frames_of pending.old.frames.items)
        pending.old.locals.items pending.old.depth }
{
    match s {
        Statement::Block(ss) => run(pending, ss),
        _ => pending.go(Control::Executes(s)),
    }
}

// The statements after one that has ended.
#[inline(always)]
fn behind<'a>(pending: &mut Pending<'a>, ss: &'a [Statement], completion: Completion<Value>)
    requires { vec_len pending.old.frames < vec_capacity pending.old.frames }
    ensures { state_of pending.new ≡ behind completion (statements_of ss.now) (frames_of pending.old.frames.items)
        pending.old.locals.items pending.old.depth }
{
    match completion {
        Completion::Normal => run(pending, ss),
        completion => pending.completes(completion),
    }
}

// What a loop goes on with after its body.
#[inline(always)]
fn turn<'a>(
    pending: &mut Pending<'a>,
    e: &'a Expression,
    s: &'a Statement,
    completion: Completion<Value>,
)
    ensures { state_of pending.new ≡ at (after_loop completion (plain e.now) (plain_statement s.now))
        (frames_of pending.old.frames.items) pending.old.locals.items pending.old.depth }
{
    match completion {
        Completion::Normal => pending.go(Control::Turns(e, s)),
        completion => pending.go(after_loop(completion, e, s)),
    }
}

// The `finally` block, after the block of a `try` has ended.
fn finish<'a>(pending: &mut Pending<'a>, f: &'a Statement, reason: Completion<Value>)
    requires { vec_len pending.old.frames < vec_capacity pending.old.frames }
    ensures { state_of pending.new ≡
        at (PlainExecutes (plain_statement f.now)) (Up (OfFinally reason) ∷ frames_of pending.old.frames.items)
        pending.old.locals.items pending.old.depth }
{
    pending.inside(Frame::Ending(Ending::Finally(reason)), Control::Executes(f))
}

// The end of a `try`, after its `finally` block.
fn leave<'a>(pending: &mut Pending<'a>, reason: Completion<Value>, completion: Completion<Value>)
    ensures { state_of pending.new ≡ at (if_normal completion (PlainEnds reason)) (frames_of pending.old.frames.items)
        pending.old.locals.items pending.old.depth }
{
    pending.go(if_normal(completion, Control::Ends(reason)))
}

// A part of a statement has ended.
fn close<'a>(pending: &mut Pending<'a>, f: Ending<'a>, completion: Completion<Value>)
    requires { vec_len pending.old.frames < vec_capacity pending.old.frames }
    ensures { state_of pending.new ≡ closing (ending_of f.entry) completion (frames_of pending.old.frames.items)
        pending.old.locals.items pending.old.depth }
{
    match f {
        Ending::Sequence(ss) => behind(pending, ss, completion),
        Ending::Body(e, s) => turn(pending, e, s, completion),
        Ending::Try(f) => finish(pending, f, completion),
        Ending::Finally(reason) => leave(pending, reason, completion),
    }
}

// A completion goes to the innermost frame.
#[inline(always)]
fn end<'a>(pending: &mut Pending<'a>, completion: Completion<Value>)
    requires { vec_len pending.old.frames < vec_capacity pending.old.frames }
    ensures { state_of pending.new ≡ ending completion (frames_of pending.old.frames.items) pending.old.locals.items
        pending.old.depth }
{
    match pop(&mut pending.frames) {
        Some(Frame::Operand(_f)) => pending.completes(completion),
        Some(Frame::Argument(_purpose, _before, _left)) => pending.completes(completion),
        Some(Frame::Waiting(_f)) => pending.completes(completion),
        Some(Frame::Ending(f)) => close(pending, f, completion),
        Some(Frame::Body(answered, saved, depth)) => {
            pending.locals = saved;
            pending.depth = depth;
            pending.go(left_by(answered, completion));
        }
        None => pending.completes(completion),
    }
}

/// Most completions are normal. For these a function of its own needs no room for a completion.
#[inline(never)]
pub fn end_normally<'a>(pending: &mut Pending<'a>)
    requires { vec_len pending.old.frames < vec_capacity pending.old.frames }
    ensures { state_of pending.new ≡
        ending Completion.Normal (frames_of pending.old.frames.items) pending.old.locals.items pending.old.depth }
{
    end(pending, Completion::Normal)
}

/// Any completion.
#[inline(never)]
pub fn end_anyhow<'a>(pending: &mut Pending<'a>, completion: Completion<Value>)
    requires { vec_len pending.old.frames < vec_capacity pending.old.frames }
    ensures { state_of pending.new ≡ ending completion (frames_of pending.old.frames.items) pending.old.locals.items
        pending.old.depth }
{
    end(pending, completion)
}
