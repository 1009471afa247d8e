// Runs of a machine.
ghost use Rattle.std.specs.Prelude.{◌≡◌, ◌+◌, ◌-◌, ◌<◌, ◌≤◌, List, ℕ, IsTrue, drop, false, length};
ghost use Rattle.ls_code.specs.Machine.{machine_run, machine_step};
ghost use Rattle.ls_machine.specs.Staying.{turns};

use super::{Machine, is_due};
use crate::{staying, steps};
use ls_code::step::Did;
use ls_events::schedule::Schedule;

/// Where the steps of a thread end that follow one another from a place on.
fn same_until(steps: &[u8], from: usize, number: u8) -> usize
    requires { from ≤ length steps.now }
    ensures within { (from ≤ result) × (result ≤ length steps.now) }
    ensures same { drop from steps.now ≡ turns (result - from) number (drop result steps.now) }
{
    for at in from..steps.len() {
        if steps[at] != number {
            return at;
        }
    }
    steps.len()
}

impl Machine {
    /// Takes the steps of a schedule. It takes no memory, and always succeeds.
    pub fn run(&mut self, schedule: &Schedule)
        ensures { self.new ≡ machine_run self.old schedule.now }
    {
        let steps = schedule.steps();
        let mut at = 0;
        while at < steps.len() {
            at = self.take_from(steps, at);
        }
    }

    /// Takes the steps of a thread that follow one another from a place on. Answers where they end.
    #[inline(always)]
    fn take_from(&mut self, steps: &[u8], at: usize) -> usize
        requires { at < length steps.now }
        ensures later { at < result }
        ensures same { machine_run self.old (drop at steps.now) ≡ machine_run self.new (drop result steps.now) }
    {
        let number = steps[at];
        let next = at + 1;
        if next < steps.len() && steps[next] == number {
            let end = same_until(steps, next, number);
            self.take_turn(number as usize, end - at);
            return end;
        }
        self.take_step(number as usize);
        next
    }

    /// Takes a step of a thread, and doesn't say what it did. It takes no memory, and always succeeds.
    #[inline(always)]
    pub fn take_step(&mut self, number: usize)
        ensures { self.new ≡ (machine_step self.old number).machine }
    {
        if self.moves_silently(number) {
            return;
        }
        self.take_turn(number, 1);
    }

    /// Takes a step of a thread that is silent. Else it does nothing and answers false.
    #[inline(always)]
    pub(crate) fn moves_silently(&mut self, number: usize) -> bool
        ensures silent { IsTrue result → self.new ≡ (machine_step self.old number).machine }
        ensures did { IsTrue result → (machine_step self.old number).did ≡ Did.Silent }
        ensures left { result ≡ false → self.new ≡ self.old }
    {
        if number >= self.threads.len() {
            return false;
        }
        if self.stopped {
            return false;
        }
        if !is_due(&self.threads, number) {
            return false;
        }
        let thread = &mut self.threads[number];
        if steps::move_silently(&self.code, thread) {
            return true;
        }
        false
    }

    /// Takes so many steps of a thread.
    #[inline(never)]
    fn take_turn(&mut self, number: usize, count: usize)
        ensures { (rest : List ℕ) → machine_run self.old (turns count number rest) ≡ machine_run self.new rest }
    {
        let mut left = count;
        while left > 0 {
            left -= self.stay(number, left);
            if left == 0 {
                return;
            }
            let _ = self.any_step(number);
            left -= 1;
        }
    }

    /// Takes steps of a thread, so many at most, up to the first that may be an event, stop the machine or end the
    /// thread. Answers how many.
    #[inline]
    fn stay(&mut self, number: usize, most: usize) -> usize
        ensures few { result ≤ most }
        ensures same { (rest : List ℕ) → machine_run self.old (turns result number rest) ≡ machine_run self.new rest }
    {
        if number >= self.threads.len() {
            return most;
        }
        if self.stopped {
            return most;
        }
        if !is_due(&self.threads, number) {
            return most;
        }
        let thread = &mut self.threads[number];
        staying::stay(&self.code, &mut self.cells, number, thread, most)
    }
}
