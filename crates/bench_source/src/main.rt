//! Steps of a source run, to be timed: `bench_source PART STEPS`.
//! The part is arithmetic, fields, calls, locks or turns.
#![tactic(auto)]

mod part;
mod timing;

use crate::part::{CLASSES, Part, part_of, program_text};
use crate::timing::{Taken, take_steps};
use ls_parser::parsing::parse_text;
use ls_types::{check, read_program};
use std::alloc::Global;
use std::{env, io};

/// `steps` steps of a part, from its texts. None if a text is refused or memory runs out.
fn stepped(alloc: Global, part: Part, steps: u64) -> Option<Taken> {
    let text = program_text(alloc, part).ok()?;
    let checked = check(alloc, parse_text(alloc, CLASSES).ok()?).ok()?;
    let program = read_program(alloc, text.as_str(), &checked).ok()?;
    take_steps(alloc, checked.file(), &program, part, steps).ok()
}

fn main(rt: HostRuntime) -> io::Result<()> {
    let mut words = env::args(&rt)?;
    let _ = words.next();
    let (Some(name), Some(count)) = (words.next(), words.next()) else {
        println!(rt; "bench_source PART STEPS")?;
        return Ok(());
    };
    let (Some(part), Ok(steps)) = (part_of(name.as_str()), count.as_str().parse::<u64>()) else {
        println!(rt; "bench_source PART STEPS")?;
        return Ok(());
    };
    match stepped(rt.alloc(), part, steps) {
        None => println!(rt; "no run")?,
        Some(Taken { acted, sum }) => {
            println!(rt;
                "{acted} of {steps} steps acted, and were answered ints that come to {sum}"
            )?
        }
    }
    Ok(())
}
