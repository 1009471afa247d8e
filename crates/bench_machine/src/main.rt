//! Steps of the machine, to be timed: `bench_machine WAY PART STEPS`. The way is step or run: by `Machine::step`, or by
//! `Machine::run` of schedules of 1,000 steps. The part is arithmetic, fields, calls, locks, whole_locks, turns or
//! methods.
#![tactic(auto)]

mod images;

use crate::images::{Part, SHORT_STEPS, image};
use ls_code::code::Code;
use ls_code::step::Did;
use ls_events::schedule::Schedule;
use ls_machine::{LoadFault, Machine};
use std::alloc::{AllocError, Global};
use std::{env, io};

/// How the steps are taken.
#[derive(Clone, Copy, Debug, PartialEq, Eq)]
enum Way {
    Step,
    Run,
}

/// How many steps a schedule has.
const TURN: u64 = 1_000;

/// Takes so many steps of thread 1, or of threads 1 and 2 by turns.
fn step(machine: &mut Machine, steps: u64, by_turns: bool) {
    let mut first = true;
    for _ in 0..steps {
        let thread = if first { 1 } else { 2 };
        first = !(first && by_turns);
        let _ = machine.step(thread);
    }
}

/// A schedule of 1,000 steps of thread 1, or of threads 1 and 2 by turns.
fn scheduled(alloc: Global, by_turns: bool) -> Result<Schedule, AllocError> {
    let mut steps = Vec::new(alloc);
    for i in 0..TURN {
        steps.push(if by_turns && i % 2 == 1 { 2 } else { 1 })?;
    }
    if steps.len() > 1_000_000 {
        return Ok(Schedule::new(alloc));
    }
    Ok(Schedule::of(steps))
}

/// Runs a schedule of 1,000 steps so often that they are so many steps. What is left below a thousand is stepped.
fn run(machine: &mut Machine, schedule: &Schedule, steps: u64, by_turns: bool) {
    for _ in 0..steps / TURN {
        machine.run(schedule);
    }
    step(machine, steps % TURN, by_turns);
}

/// A number of the machines after so many steps, the same for the same machines. Steps of short methods are taken on
/// one machine after another.
fn timed(alloc: Global, code: &Code, part: Part, steps: u64, way: Way) -> Result<u64, LoadFault> {
    let (machines, cells, each) = match part {
        Part::Methods => (steps / SHORT_STEPS, 1024, SHORT_STEPS),
        _ => (1, 65536, steps),
    };
    let schedule = scheduled(alloc, part == Part::Turns)?;
    let mut hash = 0_u64;
    for _ in 0..machines {
        let mut machine = Machine::load(alloc, code, cells)?;
        let _ = machine.step(0);
        match way {
            Way::Step => step(&mut machine, each, part == Part::Turns),
            Way::Run => run(&mut machine, &schedule, each, part == Part::Turns),
        }
        hash = hash.wrapping_add(machine.hash());
    }
    Ok(hash)
}

/// The way of a name.
fn way_of(name: &str) -> Option<Way> {
    match name {
        "step" => Some(Way::Step),
        "run" => Some(Way::Run),
        _ => None,
    }
}

/// The part of a name.
fn part_of(name: &str) -> Option<Part> {
    match name {
        "arithmetic" => Some(Part::Arithmetic),
        "fields" => Some(Part::Fields),
        "calls" => Some(Part::Calls),
        "locks" => Some(Part::Locks),
        "whole_locks" => Some(Part::WholeLocks),
        "turns" => Some(Part::Turns),
        "methods" => Some(Part::Methods),
        _ => None,
    }
}

fn main(rt: HostRuntime) -> io::Result<()> {
    let mut words = env::args(&rt)?;
    let _ = words.next();
    let (Some(way), Some(name), Some(count)) = (words.next(), words.next(), words.next()) else {
        println!(rt; "bench_machine WAY PART STEPS")?;
        return Ok(());
    };
    let (Some(way), Some(part), Ok(steps)) = (
        way_of(way.as_str()),
        part_of(name.as_str()),
        count.as_str().parse::<u64>(),
    ) else {
        println!(rt; "bench_machine WAY PART STEPS")?;
        return Ok(());
    };
    let code = match Code::new(image(rt.alloc(), part)?) {
        Some(code) => code,
        None => return Ok(()),
    };
    let Ok(number) = timed(rt.alloc(), &code, part, steps, way) else {
        return Ok(());
    };
    println!(rt; "{steps} steps, and the machine's number is {number}")?;
    Ok(())
}
