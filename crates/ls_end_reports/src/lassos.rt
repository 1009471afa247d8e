// Lassos as texts.

ghost use Rattle.std.specs.Prelude.{◌≡◌, ◌++◌, IfOk, IsTrue, OnOk, string_bytes};
ghost use Rattle.ls_schedule.specs.Reading.{thread_names};
ghost use Rattle.ls_end_reports.specs.Written.{IsLassoText, played};

use ls_checked::program::Program;
use ls_events::schedule::{MOST_STEPS, Schedule};
use ls_progress::Lasso;
use ls_schedule::{print_schedule, read_schedule};
use std::alloc::{AllocError, Global};

/// How often the cycle of a lasso is printed to be taken.
const ROUNDS: usize = 10;

/// Adds these steps.
fn push_steps(out: &mut Vec<u8>, steps: &[u8]) -> Result<(), AllocError>
    ensures { OnOk result (out.new.items ≡ out.old.items ++ steps.now) }
{
    for step in steps {
        out.push(*step)?;
    }
    Ok(())
}

/// The steps of the way, and ten times those of the cycle.
fn steps_of(alloc: Global, lasso: &Lasso) -> Result<Vec<u8>, AllocError>
    ensures { IfOk result (λ v. v.items ≡ played lasso.now) }
{
    let mut steps = Vec::new(alloc);
    push_steps(&mut steps, &lasso.way)?;
    for _round in 0..ROUNDS {
        push_steps(&mut steps, &lasso.cycle)?;
    }
    Ok(steps)
}

/// The text of these steps, without the line feed at its end.
fn print_steps(alloc: Global, steps: &[u8], program: &Program) -> Result<String, AllocError> {
    let mut copied = Vec::new(alloc);
    push_steps(&mut copied, steps)?;
    if copied.len() > MOST_STEPS {
        return Err(AllocError);
    }
    let mut text = print_schedule(alloc, &Schedule::of(copied), program)?;
    let _ = text.pop();
    Ok(text)
}

/// The text of a lasso, its cycle as a group. Nothing is told of it: it is read once more.
fn print_lasso(alloc: Global, lasso: &Lasso, program: &Program) -> Result<String, AllocError> {
    let mut out = print_steps(alloc, &lasso.way, program)?;
    let cycle = print_steps(alloc, &lasso.cycle, program)?;
    out.push_str(" (")?;
    for byte in cycle.as_bytes().iter().skip(3) {
        out.push(*byte as char)?;
    }
    out.push_str(")*10")?;
    Ok(out)
}

/// Whether steps are those of the way, and ten times those of the cycle.
fn are_steps(steps: &[u8], lasso: &[u8]) -> bool
    ensures { IsTrue result → steps.now ≡ lasso.now }
{
    steps == lasso
}

/// The text of a lasso, which reads as the way and ten rounds of the cycle. It is refused too if it doesn't read so,
/// as it does where names of threads are of letters, digits and `_`.
pub(crate) fn lasso_text(
    alloc: Global,
    lasso: &Lasso,
    program: &Program,
) -> Result<String, AllocError>
    ensures { IfOk result (λ text. IsLassoText (thread_names program.now) lasso.now (string_bytes text)) }
{
    let text = print_lasso(alloc, lasso, program)?;
    let steps = steps_of(alloc, lasso)?;
    let Ok(schedule) = read_schedule(alloc, text.as_str(), program) else {
        return Err(AllocError);
    };
    if !are_steps(schedule.steps(), &steps) {
        return Err(AllocError);
    }
    Ok(text)
}
