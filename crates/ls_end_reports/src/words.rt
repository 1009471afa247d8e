// The lines of a program's calls.

ghost use Rattle.std.specs.Prelude.{◌≡◌, ◌++◌, IfOk, OnOk, string_bytes};
ghost use Rattle.ls_checked.specs.PlainProgram.{plain_program};
ghost use Rattle.ls_end_reports.specs.Words.{bound_line, call_text, calls_text, fair_text, free_text, going_line};
ghost use Rattle.ls_end_reports.specs.Words.{going_text, head_line, lasso_line, left_line};

use crate::writing::{CallText, FairText, FreeText, GoingText};
use ls_checked::program::Program;
use ls_events::event::{Event, Happening};
use ls_report::print_history;
use std::alloc::{AllocError, Global};
use std::fmt::Write;

/// Adds what holds of a call with a bound on its steps.
fn push_bound(out: &mut String, words: &str, most: u32) -> Result<(), AllocError>
    ensures { OnOk result (string_bytes out.new ≡ string_bytes out.old ++ bound_line words.now most) }
{
    out.push_str("  ")?;
    out.push_str(words)?;
    out.push_str(": steps between its call and its end ")?;
    write!(out, "{most}")?;
    out.push_str(" at most\n")
}

/// Adds what doesn't hold of a call, and the lasso that shows it.
fn push_lasso(out: &mut String, words: &str, lasso: &str) -> Result<(), AllocError>
    ensures { OnOk result (string_bytes out.new ≡ string_bytes out.old ++ lasso_line words.now lasso.now) }
{
    out.push_str("  ")?;
    out.push_str(words)?;
    out.push_str(": ")?;
    out.push_str(lasso)?;
    out.push_str("\n")
}

/// Adds what is told of a call where no thread has to go on.
fn push_free(out: &mut String, free: &FreeText) -> Result<(), AllocError>
    ensures { OnOk result (string_bytes out.new ≡ string_bytes out.old ++ free_text free.now) }
{
    match free {
        FreeText::WaitFree(most) => push_bound(out, "wait-free", *most),
        FreeText::LockFree(most, lasso) => {
            push_bound(out, "lock-free, unless another call ends", *most)?;
            push_lasso(out, "not wait-free", lasso.as_str())
        }
        FreeText::ObstructionFree(most, lasso) => {
            push_bound(out, "obstruction-free, where its thread is alone", *most)?;
            push_lasso(out, "not lock-free", lasso.as_str())
        }
        FreeText::Blocking(lasso) => push_lasso(out, "blocking", lasso.as_str()),
        FreeText::Unknown => out.push_str("  not known\n"),
    }
}

/// Adds a line.
fn push_line(out: &mut String, line: &str) -> Result<(), AllocError>
    ensures { OnOk result (string_bytes out.new ≡ string_bytes out.old ++ line.now) }
{
    out.push_str(line)
}

/// Adds what doesn't hold though all threads go on, and the lasso that shows it.
fn push_going_line(
    out: &mut String,
    words: &str,
    by_locks: &str,
    going: &GoingText,
) -> Result<(), AllocError>
    ensures { OnOk result (string_bytes out.new ≡ string_bytes out.old ++
        going_line words.now by_locks.now going.now) }
{
    match going {
        GoingText::Nothing => Ok(()),
        GoingText::Fairly(lasso) => push_lasso(out, words, lasso.as_str()),
        GoingText::ByLocks(lasso) => push_lasso(out, by_locks, lasso.as_str()),
    }
}

/// The most that is left of deadlock-free and starvation-free.
fn left_of(stopping: &GoingText, starving: &GoingText) -> &'static str
    ensures { result.now ≡ left_line stopping.now starving.now }
{
    match stopping {
        GoingText::ByLocks(_) => "",
        GoingText::Fairly(_) => match starving {
            GoingText::ByLocks(_) => {
                "  deadlock-free if its locks are fair, as far as was searched\n"
            }
            GoingText::Fairly(_) => "  starvation-free if its locks are, as far as was searched\n",
            GoingText::Nothing => "  starvation-free if its locks are, as far as was searched\n",
        },
        GoingText::Nothing => match starving {
            GoingText::ByLocks(_) => "  deadlock-free as far as was searched\n",
            GoingText::Fairly(_) => {
                "  deadlock-free, and starvation-free if its locks are, as far as was searched\n"
            }
            GoingText::Nothing => "  starvation-free as far as was searched\n",
        },
    }
}

/// Adds what is told of a call where all threads go on.
fn push_fair(out: &mut String, fair: &FairText) -> Result<(), AllocError>
    ensures { OnOk result (string_bytes out.new ≡ string_bytes out.old ++ fair_text fair.now) }
{
    push_going_line(
        out,
        "not deadlock-free",
        "not deadlock-free by fair locks",
        &fair.stopping,
    )?;
    push_going_line(
        out,
        "not starvation-free",
        "not starvation-free by fair locks",
        &fair.starving,
    )?;
    push_line(out, left_of(&fair.stopping, &fair.starving))
}

/// Adds what is told where all threads go on, of a call that may not end where they don't.
fn push_going(out: &mut String, text: &CallText) -> Result<(), AllocError>
    ensures { OnOk result (string_bytes out.new ≡ string_bytes out.old ++ going_text text.now.free text.now.fair) }
{
    match &text.free {
        FreeText::WaitFree(_) => Ok(()),
        FreeText::Unknown => Ok(()),
        FreeText::LockFree(_, _) => push_fair(out, &text.fair),
        FreeText::ObstructionFree(_, _) => push_fair(out, &text.fair),
        FreeText::Blocking(_) => push_fair(out, &text.fair),
    }
}

/// The line of a call.
fn head_of(alloc: Global, program: &Program, text: &CallText) -> Result<String, AllocError>
    ensures { IfOk result (λ line. string_bytes line ≡ head_line (plain_program program.now) text.now) }
{
    let event = Event {
        thread: text.thread as usize,
        call: text.call as usize,
        happening: Happening::Called,
    };
    print_history(alloc, &[event], program)
}

/// Adds what is told of a call.
fn push_call(
    alloc: Global,
    out: &mut String,
    program: &Program,
    text: &CallText,
) -> Result<(), AllocError>
    ensures { OnOk result (string_bytes out.new ≡ string_bytes out.old ++
        call_text (plain_program program.now) text.now) }
{
    let head = head_of(alloc, program, text)?;
    out.push_str(head.as_str())?;
    push_free(out, &text.free)?;
    push_going(out, text)
}

/// Adds what is told of each of these calls.
fn push_calls(
    alloc: Global,
    out: &mut String,
    program: &Program,
    texts: &[CallText],
) -> Result<(), AllocError>
    ensures { OnOk result (string_bytes out.new ≡ string_bytes out.old ++
        calls_text (plain_program program.now) texts.now) }
{
    match texts {
        [] => Ok(()),
        [text, rest @ ..] => {
            push_call(alloc, out, program, text)?;
            push_calls(alloc, out, program, rest)
        }
    }
}

/// The lines of a program's calls: each call, and what is told of it. The only refusal is that memory ran out.
pub fn print_calls(
    alloc: Global,
    program: &Program,
    texts: &[CallText],
) -> Result<String, AllocError>
    ensures { IfOk result (λ text. string_bytes text ≡ calls_text (plain_program program.now) texts.now) }
{
    let mut out = String::new(alloc);
    push_calls(alloc, &mut out, program, texts)?;
    Ok(out)
}
