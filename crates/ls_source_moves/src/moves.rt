// One move of pending work.

ghost use Rattle.std.specs.Prelude.{◌≡◌, ◌<◌, ◌+◌, ◌∷◌, OnOk, OnErr, vec_len, vec_capacity, map, nat_eq, if◌then◌else◌};
ghost use Rattle.ls_checked.specs.Plain.{plain_file, plain_class};
ghost use Rattle.ls_source_pending.specs.Pending.{Gives as PlainGives, Opens as PlainOpens};
ghost use Rattle.ls_source_pending.specs.ExpressionMoves.{at};
ghost use Rattle.ls_source_pending.specs.Moves.{giving, move, moved};
ghost use Rattle.ls_source_pending.specs.Seen.{frames_of};
ghost use Rattle.ls_source_pending.specs.SeenPending.{state_of};

use crate::endings::{end_anyhow, end_normally, enter};
use crate::statements::{execute, go_further, loops};
use ls_checked::tree::{Class, File};
use ls_events::value::Value;
use ls_meaning::completion::Completion;
use ls_source_pending::pending::Pending;
use ls_source_pending::stack::{pop, push};
use ls_source_pending::tables::frame;
use ls_source_pending::work::{Control, Frame};
use ls_source_store::lookups::method_at;
use std::alloc::{AllocError, Global};
use std::mem;

// A value goes to the innermost frame.
fn give<'a>(
    pending: &mut Pending<'a>,
    alloc: Global,
    classes: &[Class],
    v: Value,
) -> Result<(), AllocError>
    requires { vec_len pending.old.frames + 1 < vec_capacity pending.old.frames }
    ensures ok { OnOk result
        (state_of pending.new ≡ giving (map plain_class classes.now) v (frames_of pending.old.frames.items)
        pending.old.locals.items pending.old.depth) }
    ensures err { OnErr result
        (state_of pending.new ≡ at (PlainGives v) (frames_of pending.old.frames.items) pending.old.locals.items
        pending.old.depth) }
{
    match pop(&mut pending.frames) {
        Some(Frame::Operand(f)) => pending.fill(alloc, classes, f, v),
        Some(Frame::Argument(purpose, before, left)) => pending.put(purpose, before, left, v)?,
        Some(Frame::Waiting(f)) => go_further(pending, alloc, classes, f, v),
        Some(Frame::Ending(_f)) => pending.gives(v),
        Some(Frame::Body(_answered, _saved, _depth)) => pending.gives(v),
        None => pending.gives(v),
    }
    Ok(())
}

// A method is entered. A refusal leaves what was to be done.
fn open<'a>(
    pending: &mut Pending<'a>,
    alloc: Global,
    file: &'a File,
    method: usize,
    o: Value,
    values: Vec<Value>,
) -> Result<(), AllocError>
    requires { vec_len pending.old.frames + 1 < vec_capacity pending.old.frames }
    ensures ok { OnOk result (state_of pending.new ≡ move (plain_file file.now) (PlainOpens method (o ∷ values.items))
        (frames_of pending.old.frames.items) pending.old.locals.items pending.old.depth) }
    ensures err { OnErr result
        (state_of pending.new ≡ at (PlainOpens method (o ∷ values.items)) (frames_of pending.old.frames.items)
        pending.old.locals.items pending.old.depth) }
{
    if pending.depth == 0 {
        pending.gives(Value::Reference(0));
        return Ok(());
    }
    match method_at(file, method) {
        None => pending.gives(Value::Reference(0)),
        Some(m) => match frame(alloc, &m.slots, o, &values) {
            Ok(slots) => {
                let saved = mem::replace(&mut pending.locals, slots);
                let body = Frame::Body(m.result, saved, pending.depth);
                push(&mut pending.frames, body);
                pending.depth -= 1;
                enter(pending, &m.body);
            }
            Err(e) => {
                pending.go(Control::Opens(method, o, values));
                return Err(e);
            }
        },
    }
    Ok(())
}

// A value is given. A refusal changes nothing.
#[inline(always)]
fn give_on<'a>(pending: &mut Pending<'a>, alloc: Global, file: &'a File) -> Result<(), AllocError>
    requires { vec_len pending.old.frames + 1 < vec_capacity pending.old.frames }
    ensures ok { OnOk result (state_of pending.new ≡ moved (plain_file file.now) (state_of pending.old)) }
    ensures err { OnErr result (state_of pending.new ≡ state_of pending.old) }
{
    match &pending.control {
        Control::Gives(v) => {
            let v = *v;
            give(pending, alloc, &file.classes, v)
        }
        _ => take_move(pending, alloc, file),
    }
}

// A statement has come to its end. A refusal changes nothing.
#[inline(always)]
fn end_on<'a>(pending: &mut Pending<'a>, alloc: Global, file: &'a File) -> Result<(), AllocError>
    requires { vec_len pending.old.frames + 1 < vec_capacity pending.old.frames }
    ensures ok { OnOk result (state_of pending.new ≡ moved (plain_file file.now) (state_of pending.old)) }
    ensures err { OnErr result (state_of pending.new ≡ state_of pending.old) }
{
    match &pending.control {
        Control::Ends(Completion::Normal) => {
            end_normally(pending);
            Ok(())
        }
        Control::Ends(completion) => {
            let completion = *completion;
            end_anyhow(pending, completion);
            Ok(())
        }
        _ => take_move(pending, alloc, file),
    }
}

// One move of any kind. What is to be done is taken out of its place; a refusal puts it back.
#[inline(never)]
fn take_move<'a>(pending: &mut Pending<'a>, alloc: Global, file: &'a File) -> Result<(), AllocError>
    requires { vec_len pending.old.frames + 1 < vec_capacity pending.old.frames }
    ensures ok { OnOk result (state_of pending.new ≡ moved (plain_file file.now) (state_of pending.old)) }
    ensures err { OnErr result (state_of pending.new ≡ state_of pending.old) }
{
    let control = mem::replace(&mut pending.control, Control::Gives(Value::Reference(0)));
    match control {
        Control::Evaluates(e) => pending.evaluate(alloc, &file.classes, e),
        Control::Argues(purpose, values, left) => pending.argue(
            &file.classes,
            purpose,
            values,
            left,
        )?,
        Control::Invokes(m, o, values) => pending.invoke(m, o, values),
        Control::Opens(m, o, values) => open(pending, alloc, file, m, o, values)?,
        Control::Executes(s) => execute(pending, alloc, &file.classes, s),
        Control::Loops(e, s) => loops(pending, alloc, &file.classes, e, s),
        Control::Gives(v) => give(pending, alloc, &file.classes, v)?,
        Control::Ends(completion) => end_anyhow(pending, completion),
        control => pending.go(control),
    }
    Ok(())
}

/// One move. A refusal, which is only that memory ran out, changes nothing. Work without values of arguments is read
/// in its place.
pub fn advance<'a>(
    pending: &mut Pending<'a>,
    alloc: Global,
    file: &'a File,
) -> Result<(), AllocError>
    ensures ok { OnOk result (state_of pending.new ≡ moved (plain_file file.now) (state_of pending.old)) }
    ensures err { OnErr result (state_of pending.new ≡ state_of pending.old) }
{
    pending.frames.reserve(2)?;
    match &pending.control {
        Control::Evaluates(e) => {
            let e = *e;
            pending.evaluate(alloc, &file.classes, e);
            Ok(())
        }
        Control::Executes(s) => {
            let s = *s;
            execute(pending, alloc, &file.classes, s);
            Ok(())
        }
        Control::Loops(e, s) => {
            let e = *e;
            let s = *s;
            loops(pending, alloc, &file.classes, e, s);
            Ok(())
        }
        Control::Gives(_) => give_on(pending, alloc, file),
        Control::Ends(_) => end_on(pending, alloc, file),
        _ => take_move(pending, alloc, file),
    }
}
