// The last steps of a schedule once more.

ghost use Rattle.ls_events.specs.Limits.{most_steps};
ghost use Rattle.ls_schedule.specs.Answers.{more_steps, so_far};
ghost use Rattle.ls_schedule.specs.Passing.{again};
ghost use Rattle.ls_schedule.specs.Reading.{repeated};
ghost use Rattle.ls_schedule.specs.declared.fault.ScheduleFault.TheVariants.{Memory, TooManySteps};
ghost use Rattle.std.specs.Prelude.{
  ◌≡◌,
  ◌<◌,
  ◌≤◌,
  ◌+◌,
  ◌++◌,
  ◌⊎◌,
  IfErr,
  IfOk,
  IsErrOf,
  OnOk,
  Some,
  drop,
  length,
  take,
};

use crate::fault::ScheduleFault;
use ls_events::schedule::{MOST_STEPS, Schedule};
use std::alloc::AllocError;

// Appends so many steps, from a place on, once more.
fn push_again(schedule: &mut Schedule, from: usize, len: usize) -> Result<(), ScheduleFault>
    requires few { length schedule.old ≤ most_steps }
    requires within { from + len ≤ length schedule.old }
    ensures ok { OnOk result (schedule.new ≡ schedule.old ++ take len (drop from schedule.old)) }
    ensures few { length schedule.new ≤ most_steps }
    ensures err { IsErrOf result TooManySteps → most_steps < length schedule.old + len }
    ensures only { IfErr result (λ e. (e ≡ Memory) ⊎ (e ≡ TooManySteps)) }
{
    for index in 0..len {
        if schedule.len() >= MOST_STEPS {
            return Err(ScheduleFault::TooManySteps);
        }
        let thread = schedule.steps()[from + index];
        schedule.push(thread)?;
    }
    Ok(())
}

// Appends the steps from a place on so many times.
fn append_again(schedule: &mut Schedule, from: usize, times: u64) -> Result<(), ScheduleFault>
    requires { length schedule.old ≤ most_steps }
    ensures ok { OnOk result (schedule.new ≡ schedule.old ++ repeated times (drop from schedule.old)) }
    ensures few { length schedule.new ≤ most_steps }
    ensures err { IsErrOf result TooManySteps →
        most_steps < length (schedule.old ++ repeated times (drop from schedule.old)) }
    ensures only { IfErr result (λ e. (e ≡ Memory) ⊎ (e ≡ TooManySteps)) }
{
    let len = schedule.len().saturating_sub(from);
    if len == 0 {
        return Ok(());
    }
    for _ in 0..times {
        push_again(schedule, from, len)?;
    }
    Ok(())
}

// Appends them so many times, and tells whether the steps fit then.
fn goes_over(schedule: &mut Schedule, from: usize, times: u64) -> Result<bool, AllocError>
    requires { length schedule.old ≤ most_steps }
    ensures more { IfOk result (λ fits. so_far fits schedule.new ≡
        more_steps (Some schedule.old) (drop from schedule.old) times) }
    ensures few { length schedule.new ≤ most_steps }
{
    match append_again(schedule, from, times) {
        Ok(()) => Ok(true),
        Err(ScheduleFault::TooManySteps) => Ok(false),
        Err(ScheduleFault::Memory) => Err(AllocError),
        Err(_) => unreachable!(),
    }
}

// Appends them if the steps so far fit, so that they stand there so many times, and tells whether they all fit then.
pub fn goes_again(
    fits: bool,
    schedule: &mut Schedule,
    from: usize,
    count: u64,
) -> Result<bool, AllocError>
    requires { length schedule.old ≤ most_steps }
    ensures more { IfOk result (λ now. so_far now schedule.new ≡ again (so_far fits schedule.old) from count) }
    ensures few { length schedule.new ≤ most_steps }
{
    if !fits {
        return Ok(false);
    }
    goes_over(schedule, from, count.saturating_sub(1))
}
